//! Messages of Arrow: what a reader answers to them, and what our own writer makes of what they
//! say.

mod answers;
mod by_name;
mod cases;
mod own_writer;
mod sweeps;

pub use crate::messages::by_name::Messages;
use crate::messages::cases::{again, case, count, total};
use crate::messages::own_writer::{batch_bytes, dictionary_bytes};
use crate::messages::sweeps::{cut, set, sweep};
use crate::pieces::first_word;
use anyhow::{Result, bail};
use std::alloc::Global;

/// The answer to a row, by its first word. A message is kept, and its answer has no line.
pub fn answer(alloc: Global, messages: &mut Messages, row: &str) -> Result<String> {
    let (verb, words) = first_word(row)?;
    match verb {
        "message" => {
            messages.add(alloc, words)?;
            Ok(String::new(alloc))
        }
        "case" => case(alloc, messages, words),
        "again" => again(alloc, messages, words),
        "total" => total(alloc, messages, words),
        "count" => count(alloc, messages, words),
        "written" => batch_bytes(alloc, messages, words),
        "write" => dictionary_bytes(alloc, messages, words),
        "set" => set(alloc, messages, words),
        "sweep" => sweep(alloc, messages, words),
        "cut" => cut(alloc, messages, words),
        _ => bail!("another word: {verb}"),
    }
}
