//! The records of a connection, of which one byte comes at a time.

use crate::words::{Word, push_part};
use grpc_frame::{Inbox, Record};
use scan_base::Fault;
use std::alloc::{AllocError, Global};

/// What a server is sent.
pub fn calls(alloc: Global, bytes: &[u8]) -> Result<String, Fault> {
    records(alloc, Inbox::of_server(alloc), bytes)
}

/// What a client is sent.
pub fn answers(alloc: Global, bytes: &[u8]) -> Result<String, Fault> {
    records(alloc, Inbox::of_client(alloc), bytes)
}

// Adds a record to a text.
fn push_record(text: &mut String, record: &Record) -> Result<(), AllocError> {
    match record {
        Record::Open(path) => push_part(text, &[Word::Text("Open"), Word::Bytes(path)]),
        Record::Message(message) => push_part(text, &[Word::Text("Message"), Word::Bytes(message)]),
        Record::End => push_part(text, &[Word::Text("End")]),
        Record::Status { code, text: told } => {
            let (code, told) = (Word::Number(i128::from(*code)), Word::Text(told.as_str()));
            push_part(text, &[Word::Text("Status"), code, told])
        }
    }
}

// Takes in a byte, and adds the record that is whole then.
fn push_next(text: &mut String, inbox: &mut Inbox, byte: u8) -> Result<(), Fault> {
    inbox.feed(&[byte])?;
    if let Some(record) = inbox.next()? {
        push_record(text, &record)?;
    }
    Ok(())
}

// The records, and what ends them.
fn records(alloc: Global, inbox: Inbox, bytes: &[u8]) -> Result<String, Fault> {
    let mut inbox = inbox;
    let mut text = String::new(alloc);
    for byte in bytes {
        if let Err(fault) = push_next(&mut text, &mut inbox, *byte) {
            text.push_str(fault.text().as_str())?;
            return Ok(text);
        }
    }
    text.push_str(if inbox.is_between_calls() {
        "between calls"
    } else {
        "not between calls"
    })?;
    Ok(text)
}
