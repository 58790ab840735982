//! What workers answer, and what calls of a cell answer, in one thread and in several: of each case
//! a line, with its name and what came. `stdout` has what is wanted.
#![tactic(auto)]

mod cells;
mod workers;

use scan_base::HashSeed;
use std::io;

fn main(rt: HostRuntime) -> io::Result<()> {
    let alloc = rt.alloc();
    let seed = HashSeed::new(&rt)?;
    workers::print(&rt, alloc)?;
    cells::print(&rt, alloc, seed)
}
