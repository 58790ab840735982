//! Streams whose groups several workers make.

ghost use Rattle.std.specs.Prelude.{◌≡◌, IfOk, OnOk};

use crate::GroupWorkers;
use fetch_stream::FetchStream;
use std::alloc::{AllocError, Global};
use std::sync::Wait;
use std::thread::Threads;
use work_watch::Watches;

/// A stream, and how many workers make its groups at most.
#[derive(Drop)]
pub struct GroupedWork {
    pub alloc: Global,
    pub stream: FetchStream,
    pub workers: usize,
}

// A stream whose groups are made by so many workers, watched.
pub(crate) fn ready_grouped<R: Threads + Wait + Sync, L: Watches>(
    rt: &R,
    work: GroupedWork,
    watch: &mut L,
) -> Result<FetchStream, AllocError>
    requires ready { L.ready watch.old }
    ensures stream { IfOk result (λ stream. stream.stream ≡ work.stream.stream) }
    ensures ready { OnOk result (L.ready watch.new) }
    ensures watched { L.watched watch.old watch.new }
{
    let GroupedWork {
        alloc,
        stream,
        workers,
    } = work;
    let by = GroupWorkers::new(rt, workers);
    stream.readied(alloc, &by, watch)
}
