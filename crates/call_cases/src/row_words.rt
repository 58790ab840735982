//! Words of rows, and the bytes that they name.

use bytes::Bytes;
use scan_base::Fault;
use std::alloc::{AllocError, Global};

// Bytes by their name.
#[derive(Drop)]
struct NamedBytes {
    name: String,
    bytes: Vec<u8>,
}

/// The bytes that were named.
#[derive(Drop)]
pub struct Names {
    named: Vec<NamedBytes>,
}

/// The parts before and after the first delimiter, or all and nothing.
pub fn halves<'a>(row: &'a str, delimiter: &str) -> (&'a str, &'a str) {
    row.split_once(delimiter).unwrap_or((row, ""))
}

/// The words of a command line. The first one is the program's name.
pub fn words(alloc: Global, line: &str) -> Result<Vec<String>, AllocError> {
    let mut words = Vec::new(alloc);
    words.push(String::from_str(alloc, "flightscan")?)?;
    for word in line.split(' ') {
        if !word.is_empty() {
            words.push(String::from_str(alloc, word)?)?;
        }
    }
    Ok(words)
}

// The number that digits say.
fn number_of(digits: &str) -> Result<u32, Fault> {
    digits.parse::<u32>().map_err(|_| Fault::BadFrame)
}

// The bytes of a text: a dot for each zero, and two digits for each other byte.
fn bytes_of_text(alloc: Global, text: &str) -> Result<Vec<u8>, Fault> {
    let digits = text.replace(alloc, ".", "00")?;
    hex::decode(alloc, &digits).map_err(|_| Fault::BadFrame)
}

// Adds so many numbers of 4 bytes: 0, the step, twice the step, and on.
fn push_numbers(bytes: &mut Vec<u8>, count: u32, step: u32) -> Result<(), AllocError> {
    for place in 0..count {
        bytes.extend_from_slice(&place.wrapping_mul(step).to_le_bytes())?;
    }
    Ok(())
}

// Adds a part so many times.
fn push_times(bytes: &mut Vec<u8>, times: u32, part: &[u8]) -> Result<(), AllocError> {
    for _ in 0..times {
        bytes.extend_from_slice(part)?;
    }
    Ok(())
}

impl Names {
    /// No name.
    pub fn new(alloc: Global) -> Names {
        Names {
            named: Vec::new(alloc),
        }
    }

    // The bytes of a name, if it is one.
    fn find(&self, name: &str) -> Option<&[u8]> {
        for named in self.named.as_slice() {
            if named.name.as_str() == name {
                return Some(named.bytes.as_slice());
            }
        }
        None
    }

    // Adds the bytes of a piece.
    fn push_piece(&self, alloc: Global, bytes: &mut Vec<u8>, piece: &str) -> Result<(), Fault> {
        if let Some((count, step)) = piece.split_once('/') {
            push_numbers(bytes, number_of(count)?, number_of(step)?)?;
            return Ok(());
        }
        let (times, part) = piece.split_once('*').unwrap_or(("1", piece));
        let times = number_of(times)?;
        match self.find(part) {
            Some(named) => push_times(bytes, times, named)?,
            None => push_times(bytes, times, &bytes_of_text(alloc, part)?)?,
        }
        Ok(())
    }

    /// The bytes of a word: of pieces with a `+` between, each a name or a text. `N*` stands before
    /// one that comes N times, and `N/STEP` is N numbers of 4 bytes, from 0 on, each by STEP above
    /// the one before.
    pub fn bytes_of(&self, alloc: Global, word: &str) -> Result<Vec<u8>, Fault> {
        let mut bytes = Vec::new(alloc);
        for piece in word.split('+') {
            self.push_piece(alloc, &mut bytes, piece)?;
        }
        Ok(bytes)
    }

    /// The bytes of a word, as a payload.
    pub fn payload(&self, alloc: Global, word: &str) -> Result<Bytes, Fault> {
        let bytes = self.bytes_of(alloc, word)?;
        Ok(Bytes::from_vec(bytes)?)
    }

    /// The payloads of words with a space between.
    pub fn payloads(&self, alloc: Global, words: &str) -> Result<Vec<Bytes>, Fault> {
        let mut payloads = Vec::new(alloc);
        for word in words.split(' ') {
            if !word.is_empty() {
                payloads.push(self.payload(alloc, word)?)?;
            }
        }
        Ok(payloads)
    }

    /// Keeps the bytes of a row, which is a name and a word.
    pub fn keep(&mut self, alloc: Global, row: &str) -> Result<(), Fault> {
        let (name, word) = halves(row, " ");
        let bytes = self.bytes_of(alloc, word)?;
        let name = String::from_str(alloc, name)?;
        self.named.push(NamedBytes { name, bytes })?;
        Ok(())
    }
}
