//! Rows: what follows their kind.

use scan_base::Fault;
use std::alloc::Global;

/// Bytes, and numbers after them.
#[derive(Drop)]
pub struct CaseRow {
    pub bytes: Vec<u8>,
    pub numbers: Vec<usize>,
}

impl CaseRow {
    /// The row of a text: the bytes in hex, where a dash stands for none, and each number in a word
    /// of its own.
    pub fn read(alloc: Global, text: &str) -> Result<CaseRow, Fault> {
        let (digits, words) = text.split_once(' ').unwrap_or((text, ""));
        Ok(CaseRow {
            bytes: read_bytes(alloc, digits)?,
            numbers: read_numbers(alloc, words)?,
        })
    }
}

/// The bytes of a text in hex.
pub fn read_bytes(alloc: Global, digits: &str) -> Result<Vec<u8>, Fault> {
    if digits == "-" {
        return Ok(Vec::new(alloc));
    }
    hex::decode(alloc, digits).map_err(|_| Fault::BadFrame)
}

fn read_numbers(alloc: Global, words: &str) -> Result<Vec<usize>, Fault> {
    let mut numbers = Vec::new(alloc);
    for word in words.split_whitespace() {
        let number = word.parse::<usize>().map_err(|_| Fault::BadFrame)?;
        numbers.push(number)?;
    }
    Ok(numbers)
}
