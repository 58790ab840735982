//! What the layers from tokens to rows answer, case by case: `stdin` holds the cases, a line each,
//! and `stdout` what is wanted of them. `vectors/queries` writes both files, by tools of another
//! making and answers worked out by hand.
#![tactic(auto)]

mod case_notation;
mod cases;
mod merges;
mod puts;
mod rows;
mod sentences;
mod texts;

use scan_base::{Fault, HashSeed};
use std::alloc::Global;
use std::io;
use std::sync::Arc;
use table_versions::{CatalogVersion, Snapshot};

// The tables with a put more, where it is accepted, and the fault else.
fn after_put(alloc: Global, snapshot: Snapshot, case: &str) -> (Snapshot, Option<Fault>) {
    match puts::next_version(alloc, &snapshot, case) {
        Ok(next) => (next, None),
        Err(fault) => (snapshot, Some(fault)),
    }
}

fn main(rt: HostRuntime) -> io::Result<()> {
    let alloc = rt.alloc();
    let catalog = CatalogVersion::empty(alloc, HashSeed::new(&rt)?);
    let mut snapshot = Snapshot::new(0, Arc::new(alloc, catalog)?);
    for line in rt.lines(alloc) {
        let line = case_notation::plain(alloc, line?.as_str())?;
        let (kind, case) = line.as_str().split_once(' ').unwrap_or((line.as_str(), ""));
        if kind == "put" {
            let (next, fault) = after_put(alloc, snapshot, case);
            snapshot = next;
            println!(rt; "{fault:?}")?;
        } else {
            let answer = cases::answer(alloc, snapshot.catalog(), kind, case)?;
            println!(rt; "{answer}")?;
        }
    }
    Ok(())
}
