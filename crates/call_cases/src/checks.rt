//! Checks whose rows, expected answers and claims stand in the code: tables, steps, calls and the
//! program, with ends that fail.

mod calls;
mod command_lines;
mod first_run;
mod program;
mod ranges;
mod steps;
mod tables;

use crate::row_words::halves;
use anyhow::{Result, bail};
use flight_calls::Options;
use scan_base::HashSeed;
use std::alloc::{AllocError, Global};

/// What a server runs with: one part, one worker, and all versions are kept.
pub const OPTIONS: Options = Options {
    parts: 1,
    workers: 1,
    keep: 0,
};

// What comes of the check of this name, of this module.
fn check(alloc: Global, seed: HashSeed, module: &str, name: &str) -> Result<()> {
    match module {
        "calls" => calls::check(alloc, seed, name),
        "command_lines" => command_lines::check(alloc, name),
        "program" => program::check(alloc, name),
        "ranges" => ranges::check(alloc, name),
        "steps" => steps::check(alloc, seed, name),
        "tables" => tables::check(alloc, seed, name),
        _ => bail!("no module"),
    }
}

/// What a check is answered: that it holds, or else the claim that does not, or the fault of a call.
pub fn answer(alloc: Global, seed: HashSeed, path: &str) -> Result<String, AllocError> {
    let (module, name) = halves(path, "::");
    match check(alloc, seed, module, name) {
        Ok(()) => format!(in alloc; "{path} holds"),
        Err(error) => format!(in alloc; "{path} fails: {error}"),
    }
}
