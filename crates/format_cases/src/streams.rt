//! Arrow IPC streams, cut into their messages.

use crate::row::read_bytes;
use bytes::Bytes;
use ipc_stream::{IpcMessage, ipc_messages};
use scan_base::Fault;
use std::alloc::{AllocError, Global};

// Adds a message to a text: its header and its body, with a slash between.
fn push_message(alloc: Global, text: &mut String, message: &IpcMessage) -> Result<(), AllocError> {
    text.push(' ')?;
    text.push_str(&hex::encode(alloc, message.header.as_slice())?)?;
    text.push('/')?;
    text.push_str(&hex::encode(alloc, message.body.as_slice())?)
}

/// How many messages a stream has, and each of them. They share the stream's bytes: where they do
/// not, that is said.
pub fn messages(alloc: Global, digits: &str) -> Result<String, Fault> {
    let stream = Bytes::from_vec(read_bytes(alloc, digits)?)?;
    let messages = ipc_messages(alloc, &stream)?;
    let mut text = format!(in alloc; "{}", messages.len())?;
    for message in &messages {
        push_message(alloc, &mut text, message)?;
    }
    if !messages.is_empty() && stream.is_unique() {
        text.push_str(" copied")?;
    }
    Ok(text)
}
