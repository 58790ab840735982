//! Messages of Arrow, columns of buffers and texts of CSV: an answer to each row of the standard
//! input. `README.md` says what a row has.
#![tactic(auto)]

mod columns;
mod csv_texts;
mod messages;
mod pieces;

use crate::messages::Messages;
use anyhow::Result;
use scan_base::HashSeed;
use std::alloc::Global;

// The answer of the room that a row is for: lines, each of which ends with LF. A row of CSV has
// ` ~ ` or is a note, and one of columns begins with a capital.
fn answer(alloc: Global, seed: HashSeed, messages: &mut Messages, row: &str) -> Result<String> {
    if row.starts_with('#') || row.contains(" ~ ") {
        return Ok(csv_texts::answer(alloc, row)?);
    }
    match row.as_bytes() {
        [b'A'..=b'Z', ..] => Ok(columns::answer(alloc, seed, row)?),
        _ => messages::answer(alloc, messages, row),
    }
}

fn main(rt: HostRuntime) -> Result<()> {
    let alloc = rt.alloc();
    let seed = HashSeed::new(&rt)?;
    let mut messages = Messages::new(alloc);
    for row in rt.lines(alloc) {
        let lines = answer(alloc, seed, &mut messages, row?.as_str())?;
        rt.print(lines)?;
    }
    Ok(())
}
