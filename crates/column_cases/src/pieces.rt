//! Bytes as text: pieces with a plus between. A piece is two digits for each byte, the same so many
//! times (`0AFF*300`), so many numbers of four bytes from one on that rise by a step (`0:2:301`),
//! or a minus or a dot for nothing. A text that begins with a plus has multiples: `+5*3` stands for
//! the numbers 0, 5 and 10.

use anyhow::{Context, Result};
use bytes::Bytes;
use std::alloc::{AllocError, Global};

/// The first word, and those after it.
pub fn first_word(words: &str) -> Result<(&str, &str)> {
    words.split_once(' ').context("too few words")
}

/// The bytes that a text says, as a buffer.
pub fn buffer(alloc: Global, text: &str) -> Result<Bytes> {
    Ok(Bytes::from_vec(bytes_of(alloc, text)?)?)
}

/// A buffer that may be left out, by a minus.
pub fn optional_buffer(alloc: Global, text: &str) -> Result<Option<Bytes>> {
    match text {
        "-" => Ok(None),
        text => Ok(Some(buffer(alloc, text)?)),
    }
}

/// The bytes that a text says.
pub fn bytes_of(alloc: Global, text: &str) -> Result<Vec<u8>> {
    let mut bytes = Vec::new(alloc);
    if let Some(words) = text.strip_prefix('+') {
        let (step, count) = words.split_once('*').context("no count")?;
        push_numbers(&mut bytes, 0, step.parse::<u32>()?, count.parse::<u32>()?)?;
        return Ok(bytes);
    }
    for piece in text.split('+') {
        push_piece(alloc, &mut bytes, piece)?;
    }
    Ok(bytes)
}

fn push_piece(alloc: Global, bytes: &mut Vec<u8>, piece: &str) -> Result<()> {
    if piece == "-" || piece == "." {
        return Ok(());
    }
    if let Some((digits, count)) = piece.split_once('*') {
        let part = hex::decode(alloc, digits)?;
        return Ok(push_again(bytes, &part, count.parse::<u32>()?)?);
    }
    if let Some((first, words)) = piece.split_once(':') {
        let (step, count) = words.split_once(':').context("no count")?;
        let (first, step) = (first.parse::<u32>()?, step.parse::<u32>()?);
        return Ok(push_numbers(bytes, first, step, count.parse::<u32>()?)?);
    }
    bytes.extend_from_slice(&hex::decode(alloc, piece)?)?;
    Ok(())
}

fn push_again(bytes: &mut Vec<u8>, part: &[u8], count: u32) -> Result<(), AllocError> {
    for _ in 0..count {
        bytes.extend_from_slice(part)?;
    }
    Ok(())
}

// So many numbers of four bytes, from the first on.
fn push_numbers(bytes: &mut Vec<u8>, first: u32, step: u32, count: u32) -> Result<(), AllocError> {
    let mut number = first;
    for _ in 0..count {
        bytes.extend_from_slice(&number.to_le_bytes())?;
        number = number.wrapping_add(step);
    }
    Ok(())
}
