//! Several workers that group the rows of batches.

ghost use Rattle.std.specs.Prelude.{◌≡◌, OnOk};
ghost use Rattle.scan_exec.specs.GroupWork.{CanBeGrouped, GroupsOfAll, work_at};

use crate::batch_parts::part_count;
use crate::group_merger::{GroupMerger, PartGroups};
use grouping::Groups;
use scan_base::Fault;
use scan_exec::{GroupWork, GroupsBatches, InOneWalk};
use scan_workers::{NoGate, in_order};
use std::alloc::Global;
use std::marker::Model;
use std::sync::Wait;
use std::thread::Threads;
use work_watch::Watches;

/// A handle that starts the threads which make groups: each that may start threads and wait, and
/// that threads may share.
pub trait StartsGroupWorkers {
    ghost use Rattle.std.specs.Prelude.{OnOk};
    ghost use Rattle.scan_exec.specs.GroupWork.{CanBeGrouped, GroupsOfAll, work_at};

    // What is to be known of it: that threads may share it.
    ghost shared: { Self → Type 0 };

    /// The groups of all batches, of which so many workers make those of each part. Who watches may
    /// end it.
    ///
    /// # Errors
    ///
    /// F21 (`Fault::OutOfMemory`) where memory is refused, or who watches ends it.
    fn groups_beside<'t, L: Watches>(
        &self,
        alloc: Global,
        work: &GroupWork<'t>,
        workers: usize,
        watch: &mut L,
    ) -> Result<Groups<'t>, Fault>
        requires shared { shared self.now }
        requires can { CanBeGrouped (work_at work.now) }
        requires ready { L.ready watch.old }
        ensures groups { GroupsOfAll (work_at work.now) result }
        ensures ready { OnOk result (L.ready watch.new) }
        ensures watched { L.watched watch.old watch.new };
}

impl<R: Threads + Wait + Sync> StartsGroupWorkers for R {
    ghost use Rattle.fetch_workers.specs.SharedValues.{MayBeShared};

    ghost shared = { λ _. MayBeShared R.row };

    fn groups_beside<'t, L: Watches>(
        &self,
        alloc: Global,
        work: &GroupWork<'t>,
        workers: usize,
        watch: &mut L,
    ) -> Result<Groups<'t>, Fault> {
        groups_beside(self, alloc, work, workers, watch)
    }
}

/// Groups the rows of each part of the batches for itself, by several workers, and merges the
/// groups in the order of the parts. There is one part for each worker, or for each batch where
/// there are fewer batches. Threads are started once for a call, and have ended when it returns. No
/// more workers are at work than there are batches; with fewer than two the rows are grouped in one
/// walk, and no thread is started.
#[derive(Drop)]
pub struct GroupWorkers<'h, R: StartsGroupWorkers> {
    rt: &'h R,
    workers: usize,
}

// That threads may share the handle is known where workers are made of it, and kept for where they
// group.
impl<'h, R: StartsGroupWorkers> Model for GroupWorkers<'h, R> {
    ghost Value = { Unit {0} };

    ghost view = { λ _. tt };

    ghost invariant = { λ w. R.shared w.rt.now };
}

impl<'h, R: Threads + Wait + Sync> GroupWorkers<'h, R> {
    /// So many workers at most, one of which is the thread that calls. This handle starts threads
    /// for the others, and one more.
    pub fn new(rt: &'h R, workers: usize) -> GroupWorkers<'h, R> {
        GroupWorkers { rt, workers }
    }
}

impl<'h, R: StartsGroupWorkers> GroupsBatches for GroupWorkers<'h, R> {
    fn groups_of_all<'t, L: Watches>(
        &self,
        alloc: Global,
        work: &GroupWork<'t>,
        watch: &mut L,
    ) -> Result<Groups<'t>, Fault> {
        let batches = work.shape.batches;
        let workers = self.workers.min(batches.len());
        if workers < 2 {
            return InOneWalk.groups_of_all(alloc, work, watch);
        }
        self.rt.groups_beside(alloc, work, workers, watch)
    }
}

// The groups of all batches, of which so many workers make those of each part. This thread merges
// them in order, watched.
fn groups_beside<'t, R: Threads + Wait + Sync, L: Watches>(
    rt: &R,
    alloc: Global,
    work: &GroupWork<'t>,
    workers: usize,
    watch: &mut L,
) -> Result<Groups<'t>, Fault>
    requires can { CanBeGrouped (work_at work.now) }
    requires ready { L.ready watch.old }
    ensures groups { GroupsOfAll (work_at work.now) result }
    ensures ready { OnOk result (L.ready watch.new) }
    ensures watched { L.watched watch.old watch.new }
{
    let parts = part_count(work.shape.batches.len(), workers);
    let morsels = PartGroups { work, parts };
    let mut merging = GroupMerger { alloc, work, watch };
    let merged = in_order(rt, alloc, &morsels, workers, &NoGate, &mut merging);
    let GroupMerger {
        alloc: _,
        work: _,
        watch,
    } = merging;
    take_back(watch);
    merged?
}

// Does nothing, but that what was lent is used after the merging ties what became of it to it.
fn take_back<T>(lent: &mut T)
    ensures { lent.new ≡ lent.old }
{}
