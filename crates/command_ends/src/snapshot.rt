//! What an output held at one time, as contracts see it.

ghost use Rattle.std.specs.Prelude.{◌≡◌, List, Option, ℕ};
ghost use Rattle.std.specs.Borrow.{ftrue};

use grpc_frame::Output;
use std::marker::Model;

/// What an output held at one time, where that is known. Contracts alone see it: it takes no memory
/// and no time. No memory holds it, so only clauses fix it, and `of` is proved by hand.
#[derive(Drop)]
pub(crate) struct Snapshot {
    pub(crate) ghost bytes: { Option (List ℕ) },
}

impl Model for Snapshot {
    ghost also_owns = { λ _. ftrue };
}

// It owns nothing.
unsafe impl Send for Snapshot {}

unsafe impl Sync for Snapshot {}

impl Snapshot {
    /// What this output holds now.
    pub(crate) fn of<W: Output>(_output: &W) -> Snapshot
        ensures { result.bytes ≡ W.contents _output.now }
    {
        Snapshot {}
    }
}
