//! Cases: messages that a reader is given one after the other.

ghost use Rattle.arrow_types.specs.Schema.{IsSchema};

use crate::messages::answers::{Answer, answer_text, push_count, push_rows};
use crate::messages::by_name::Messages;
use anyhow::{Context, Result, bail};
use arrays::Batch;
use arrow_schema::write_schema;
use arrow_types::{MAX_COLUMNS, Schema};
use bytes::Bytes;
use ipc_batch::{Reader, WrittenMessage, write_batch};
use std::alloc::{AllocError, Global};

/// The names before the last one, and that.
pub fn last_name(names: &str) -> (&str, &str) {
    names.rsplit_once(' ').unwrap_or(("", names))
}

// What a reader answers to a header and a body.
fn read(
    alloc: Global,
    reader: &mut Reader,
    header: &[u8],
    body: &[u8],
) -> Result<Answer, AllocError> {
    let header = Bytes::copy_from_slice(alloc, header)?;
    let body = Bytes::copy_from_slice(alloc, body)?;
    Ok(reader.message(alloc, header, body))
}

// The batch of the message of a name, where a reader gives one. A refused one is passed over.
fn next_batch(
    alloc: Global,
    messages: &Messages,
    reader: &mut Reader,
    name: &str,
) -> Result<Option<Batch>> {
    if name.is_empty() {
        return Ok(None);
    }
    let message = messages.get(name)?;
    Ok(read(alloc, reader, &message.header, &message.body)?.unwrap_or(None))
}

// Gives a reader messages, one after the other.
fn read_before(alloc: Global, messages: &Messages, reader: &mut Reader, names: &str) -> Result<()> {
    for name in names.split(' ') {
        next_batch(alloc, messages, reader, name)?;
    }
    Ok(())
}

/// What a reader said to the last of some messages.
#[derive(Drop)]
pub struct ReaderAnswer {
    reader: Reader,
    is_first: bool,
    answer: Answer,
}

/// What a reader says to a header and a body after messages.
pub fn hear(
    alloc: Global,
    messages: &Messages,
    before: &str,
    header: &[u8],
    body: &[u8],
) -> Result<ReaderAnswer> {
    let mut reader = Reader::new();
    read_before(alloc, messages, &mut reader, before)?;
    let is_first = reader.schema().is_none();
    let answer = read(alloc, &mut reader, header, body)?;
    Ok(ReaderAnswer {
        reader,
        is_first,
        answer,
    })
}

/// What a reader says to the last of some messages.
pub fn hear_last(alloc: Global, messages: &Messages, names: &str) -> Result<ReaderAnswer> {
    let (before, name) = last_name(names);
    let message = messages.get(name)?;
    hear(alloc, messages, before, &message.header, &message.body)
}

impl ReaderAnswer {
    /// What was said, in words.
    pub fn text(&self, alloc: Global) -> Result<String, AllocError> {
        let schema = if self.is_first {
            self.reader.schema()
        } else {
            None
        };
        answer_text(alloc, &self.answer, schema)
    }

    /// The batch that was said.
    pub fn batch(&self) -> Result<&Batch> {
        match &self.answer {
            Ok(Some(batch)) => Ok(batch),
            _ => bail!("no batch"),
        }
    }

    // What is said of the schema or the batch, once our own writer wrote it. Before the batch come
    // the dictionaries among messages.
    fn again(&self, alloc: Global, messages: &Messages, names: &str) -> Result<ReaderAnswer> {
        let schema = self.reader.schema().context("no schema")?;
        let mut hearing = schema_again(alloc, schema)?;
        if let Ok(Some(batch)) = &self.answer {
            let message = own_message(alloc, batch)?;
            read_before(alloc, messages, &mut hearing.reader, names)?;
            hearing.answer = read(alloc, &mut hearing.reader, &message.header, &message.body)?;
        }
        Ok(hearing)
    }

    // Of each column of the batch the count and the digest.
    fn counts(&self, alloc: Global) -> Result<String, AllocError> {
        match &self.answer {
            Ok(Some(batch)) => counts(alloc, batch),
            _ => self.text(alloc),
        }
    }
}

fn counts(alloc: Global, batch: &Batch) -> Result<String, AllocError> {
    let mut counts = String::new(alloc);
    for column in batch.columns() {
        push_count(&mut counts, column)?;
    }
    Ok(counts)
}

/// The message that our own writer makes of a batch.
pub fn own_message(alloc: Global, batch: &Batch) -> Result<WrittenMessage> {
    if batch.columns().len() > MAX_COLUMNS {
        bail!("a batch of many columns");
    }
    write_batch(alloc, batch)?.context("a long body")
}

// What a reader says to the schema of our own writer.
fn schema_again(alloc: Global, schema: &Schema) -> Result<ReaderAnswer, AllocError>
    requires { IsSchema schema.now }
{
    let header = write_schema(alloc, schema)?;
    let mut reader = Reader::new();
    let answer = read(alloc, &mut reader, &header, &[])?;
    Ok(ReaderAnswer {
        reader,
        is_first: true,
        answer,
    })
}

// A line: a name, of what it speaks, and the text.
fn line(alloc: Global, name: &str, of: &str, text: &str) -> Result<String, AllocError> {
    format!(in alloc; "{name}{of}: {text}\n")
}

/// `case NAMES`: the answer to the last message.
pub fn case(alloc: Global, messages: &Messages, names: &str) -> Result<String> {
    let text = hear_last(alloc, messages, names)?.text(alloc)?;
    Ok(line(alloc, last_name(names).1, "", &text)?)
}

/// `again NAMES`: what the last message says, a schema or a batch, written by our own writer and
/// read once more.
pub fn again(alloc: Global, messages: &Messages, names: &str) -> Result<String> {
    let (before, name) = last_name(names);
    let again = hear_last(alloc, messages, names)?.again(alloc, messages, before)?;
    let text = again.text(alloc)?;
    Ok(line(alloc, name, ", written again", &text)?)
}

/// `count NAMES`: of each column of the last message's batch how many slots and nulls it has, and a
/// digest, and the same of what our own writer makes of it.
pub fn count(alloc: Global, messages: &Messages, names: &str) -> Result<String> {
    let (before, name) = last_name(names);
    let hearing = hear_last(alloc, messages, names)?;
    let again = hearing.again(alloc, messages, before)?.counts(alloc)?;
    let counts = hearing.counts(alloc)?;
    Ok(format!(in alloc; "{name}: {counts}\n{name}, written again: {again}\n")?)
}

// The batches of messages.
fn batches(alloc: Global, messages: &Messages, names: &str) -> Result<Vec<Batch>> {
    let mut reader = Reader::new();
    let mut batches = Vec::new(alloc);
    for name in names.split(' ') {
        if let Some(batch) = next_batch(alloc, messages, &mut reader, name)? {
            batches.push(batch)?;
        }
    }
    Ok(batches)
}

/// `total NAMES`: the rows of all batches, once all messages were read.
pub fn total(alloc: Global, messages: &Messages, names: &str) -> Result<String> {
    let batches = batches(alloc, messages, names)?;
    let mut rows = String::new(alloc);
    for batch in batches.as_slice() {
        push_rows(&mut rows, batch)?;
    }
    Ok(line(alloc, last_name(names).1, ", all rows", &rows)?)
}
