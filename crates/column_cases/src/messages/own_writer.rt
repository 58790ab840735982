//! Messages of our own writer, byte for byte.

use crate::messages::by_name::Messages;
use crate::messages::cases::{hear_last, last_name, own_message};
use crate::pieces::{buffer, first_word, optional_buffer};
use anyhow::{Context, Result};
use arrays::Texts;
use ipc_batch::{WrittenMessage, write_dictionary};
use std::alloc::{AllocError, Global};

// A line of a name and the bytes of a message.
fn bytes_line(alloc: Global, name: &str, message: &WrittenMessage) -> Result<String, AllocError> {
    let header = hex::encode_upper(alloc, message.header.as_slice())?;
    let body = hex::encode_upper(alloc, message.body.as_slice())?;
    format!(in alloc; "{name}, written: {header} {body}\n")
}

/// `written NAMES`: the bytes that our own writer makes of the last message's batch.
pub fn batch_bytes(alloc: Global, messages: &Messages, names: &str) -> Result<String> {
    let hearing = hear_last(alloc, messages, names)?;
    let message = own_message(alloc, hearing.batch()?)?;
    Ok(bytes_line(alloc, last_name(names).1, &message)?)
}

// `ROWS VALIDITY OFFSETS BYTES`: texts over these buffers.
fn texts(alloc: Global, words: &str) -> Result<Texts> {
    let (rows, words) = first_word(words)?;
    let (validity, words) = first_word(words)?;
    let (offsets, bytes) = first_word(words)?;
    let validity = optional_buffer(alloc, validity)?;
    let offsets = buffer(alloc, offsets)?;
    let bytes = buffer(alloc, bytes)?;
    Ok(Texts::new(validity, offsets, bytes, rows.parse::<usize>()?)?)
}

/// `write NAME ID DELTA ROWS VALIDITY OFFSETS BYTES`: the bytes of the dictionary message of these
/// texts, which is then kept under the name.
pub fn dictionary_bytes(alloc: Global, messages: &mut Messages, words: &str) -> Result<String> {
    let (name, words) = first_word(words)?;
    let (id, words) = first_word(words)?;
    let (delta, words) = first_word(words)?;
    let values = texts(alloc, words)?;
    let message = write_dictionary(alloc, id.parse::<u64>()?, &values, delta == "delta")?.context(
        "a long body",
    )?;
    let line = bytes_line(alloc, name, &message)?;
    messages.push(alloc, name, message.header, message.body)?;
    Ok(line)
}
