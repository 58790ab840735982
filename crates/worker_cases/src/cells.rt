//! What calls of a cell answer, in one thread and in several.

mod index;
mod many_threads;
mod one_thread;
mod rows;
mod told_logs;

use scan_base::{Fault, HashSeed};
use std::alloc::Global;
use std::io;
use std::io::Print;
use std::sync::Wait;
use std::thread::Threads;

// Prints the line of a case: its name, and what it saw.
fn show(rt: &impl Print, name: &str, seen: Result<String, Fault>) -> io::Result<()> {
    match seen {
        Ok(seen) => println!(rt; "{name}: {seen}"),
        Err(fault) => println!(rt; "{name}: fault: {fault}"),
    }
}

/// Prints a line for each case.
pub fn print<R: Print + Sync + Threads + Wait>(
    rt: &R,
    alloc: Global,
    seed: HashSeed,
) -> io::Result<()> {
    show(rt, "refusals", one_thread::refusals(rt, alloc, seed))?;
    show(rt, "expiries", one_thread::expiries(rt, alloc, seed))?;
    show(rt, "an_index_stays", index::an_index_stays(alloc, seed))?;
    show(
        rt,
        "versions_by_number",
        index::versions_by_number(alloc, seed),
    )?;
    show(
        rt,
        "a_version_is_dropped",
        index::a_version_is_dropped(alloc, seed),
    )?;
    show(
        rt,
        "two_look_while_one_puts",
        many_threads::two_look_while_one_puts(rt, alloc, seed),
    )?;
    show(
        rt,
        "two_put_by_one_lock",
        many_threads::two_put_by_one_lock(rt, alloc, seed),
    )?;
    show(
        rt,
        "one_seat_tells_another",
        told_logs::one_seat_tells_another(rt, alloc, seed),
    )?;
    show(
        rt,
        "one_seat_holds_what_expires",
        told_logs::one_seat_holds_what_expires(rt, alloc, seed),
    )
}
