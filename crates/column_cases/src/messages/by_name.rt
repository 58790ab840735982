//! Messages by their names.

use crate::pieces::{bytes_of, first_word};
use anyhow::{Result, anyhow};
use std::alloc::Global;

/// A message: its name, its header and its body.
#[derive(Drop)]
pub struct Message {
    name: String,
    pub header: Vec<u8>,
    pub body: Vec<u8>,
}

/// The messages so far.
#[derive(Drop)]
pub struct Messages {
    messages: Vec<Message>,
}

impl Messages {
    /// None.
    pub fn new(alloc: Global) -> Messages {
        Messages {
            messages: Vec::new(alloc),
        }
    }

    /// Adds the message of a row: a name, a header and a body.
    pub fn add(&mut self, alloc: Global, words: &str) -> Result<()> {
        let (name, parts) = first_word(words)?;
        let (header, body) = first_word(parts)?;
        let header = bytes_of(alloc, header)?;
        let body = bytes_of(alloc, body)?;
        self.push(alloc, name, header, body)
    }

    /// Adds a message under a name.
    pub fn push(
        &mut self,
        alloc: Global,
        name: &str,
        header: Vec<u8>,
        body: Vec<u8>,
    ) -> Result<()> {
        let name = String::from_str(alloc, name)?;
        self.messages.push(Message { name, header, body })?;
        Ok(())
    }

    /// The message of a name.
    pub fn get(&self, name: &str) -> Result<&Message> {
        for message in self.messages.as_slice() {
            if message.name.as_str() == name {
                return Ok(message);
            }
        }
        Err(anyhow!("no message {name}"))
    }
}
