//! Messages that are changed at one place.

use crate::messages::by_name::{Message, Messages};
use crate::messages::cases::{hear, last_name};
use crate::pieces::{bytes_of, first_word};
use anyhow::{Result, bail};
use std::alloc::{AllocError, Global};

// Which part of a message is changed.
#[derive(Clone, Copy)]
enum Part {
    Header,
    Body,
}

// A message of which one part is changed, and the names of those that come before.
#[derive(Drop)]
struct Change<'a> {
    messages: &'a Messages,
    before: &'a str,
    name: &'a str,
    message: &'a Message,
    part: Part,
}

impl<'a> Change<'a> {
    // `PART NAMES`.
    fn new(messages: &'a Messages, part: &str, names: &'a str) -> Result<Change<'a>> {
        let (before, name) = last_name(names);
        let part = match part {
            "header" => Part::Header,
            "body" => Part::Body,
            _ => bail!("another part: {part}"),
        };
        let message = messages.get(name)?;
        Ok(Change {
            messages,
            before,
            name,
            message,
            part,
        })
    }

    // The bytes of the part as they stand.
    fn bytes(&self) -> &'a [u8] {
        match self.part {
            Part::Header => self.message.header.as_slice(),
            Part::Body => self.message.body.as_slice(),
        }
    }

    // The answer where the part has these bytes.
    fn answer(&self, alloc: Global, bytes: &[u8]) -> Result<String> {
        let (header, body) = match self.part {
            Part::Header => (bytes, self.message.body.as_slice()),
            Part::Body => (self.message.header.as_slice(), bytes),
        };
        let hearing = hear(alloc, self.messages, self.before, header, body)?;
        Ok(hearing.text(alloc)?)
    }

    // The answer where these bytes stand from a place on.
    fn answer_with(&self, alloc: Global, place: usize, new: &[u8]) -> Result<String> {
        let mut bytes = self.bytes().to_vec(alloc)?;
        put(&mut bytes, place, new);
        self.answer(alloc, &bytes)
    }
}

// Sets the bytes from a place on.
fn put(bytes: &mut Vec<u8>, place: usize, new: &[u8]) {
    for (at, byte) in new.iter().enumerate() {
        if let Some(slot) = bytes.get_mut(place.wrapping_add(at)) {
            *slot = *byte;
        }
    }
}

// Runs of answers that are the same, in one line.
#[derive(Drop)]
struct Runs {
    line: String,
    last: String,
}

impl Runs {
    fn new(alloc: Global) -> Runs {
        Runs {
            line: String::new(alloc),
            last: String::new(alloc),
        }
    }

    // Where the answer is another than the last one, adds what was changed, and the answer.
    fn add(&mut self, at: usize, answer: String) -> Result<(), AllocError> {
        if answer.as_str() != self.last.as_str() {
            write!(self.line, " {at} {answer}")?;
        }
        self.last = answer;
        Ok(())
    }
}

/// `set PART PLACE BYTES NAMES`: the answer to the last message with these bytes from the place on.
pub fn set(alloc: Global, messages: &Messages, words: &str) -> Result<String> {
    let (part, words) = first_word(words)?;
    let (place, words) = first_word(words)?;
    let (new, names) = first_word(words)?;
    let change = Change::new(messages, part, names)?;
    let bytes = bytes_of(alloc, new)?;
    let answer = change.answer_with(alloc, place.parse::<usize>()?, &bytes)?;
    let name = change.name;
    Ok(format!(in alloc; "{name}, {part} {place} {new}: {answer}\n")?)
}

// The runs of answers where a byte is set to each value.
fn of_values(alloc: Global, change: &Change<'_>, place: usize) -> Result<Runs> {
    let mut runs = Runs::new(alloc);
    for value in 0..=255u8 {
        let answer = change.answer_with(alloc, place, &[value])?;
        runs.add(usize::from(value), answer)?;
    }
    Ok(runs)
}

/// `sweep PART NAMES`: the answers to the last message with each byte of its part set to each
/// value. A line for each byte: the first value of each run of answers, and the answer.
pub fn sweep(alloc: Global, messages: &Messages, words: &str) -> Result<String> {
    let (part, names) = first_word(words)?;
    let change = Change::new(messages, part, names)?;
    let name = change.name;
    let mut lines = String::new(alloc);
    for place in 0..change.bytes().len() {
        let runs = of_values(alloc, &change, place)?;
        writeln!(lines, "{name}, {part} {place}:{}", runs.line)?;
    }
    Ok(lines)
}

/// `cut PART NAMES`: the answers to the last message with its part cut to each length, in one line.
pub fn cut(alloc: Global, messages: &Messages, words: &str) -> Result<String> {
    let (part, names) = first_word(words)?;
    let change = Change::new(messages, part, names)?;
    let (name, bytes) = (change.name, change.bytes());
    let mut runs = Runs::new(alloc);
    for length in 0..=bytes.len() {
        let answer = change.answer(alloc, &bytes[..length])?;
        runs.add(length, answer)?;
    }
    Ok(format!(in alloc; "{name}, {part} cut:{}\n", runs.line)?)
}
