//! Groups of each part of the batches for itself, merged in the order of the parts.

ghost use Rattle.std.specs.Prelude.{◌≡◌, IfOk, OnOk};
ghost use Rattle.fetch_workers.specs.Merging.{AreNextGroups, CanMerge, IsNextPart};
ghost use Rattle.scan_exec.specs.GroupWork.{GroupsOfAll, work_at};

use crate::batch_parts::{count_before, row_count};
use grouping::Groups;
use scan_base::Fault;
use scan_exec::{FedPart, GroupWork};
use scan_workers::{Answers, NextAnswer, Reads, Work};
use std::alloc::Global;
use work_watch::pace::TURN_ROWS;
use work_watch::{Watches, tell};

// Parts of the batches as morsels, each answered by its groups. A worker feeds some of its rows
// ahead, turn by turn.
#[derive(Clone, Copy, Drop)]
pub(crate) struct PartGroups<'w, 't> {
    pub(crate) work: &'w GroupWork<'t>,
    pub(crate) parts: usize,
}

impl<'w, 't> Work for PartGroups<'w, 't> {
    type Answer = Result<FedPart<'t>, Fault>;

    ghost use Rattle.fetch_workers.specs.Merging.{IsPartAt};
    ghost use Rattle.scan_exec.specs.GroupWork.{CanBeGrouped, work_at};

    ghost ready = { λ p. CanBeGrouped (work_at p.work.now) };

    ghost count = { λ p. p.parts };

    ghost answers = { λ p number answer. IsPartAt (work_at p.work.now) p.parts number answer };

    fn count(&self) -> usize {
        self.parts
    }

    fn answer(&self, alloc: Global, morsel: usize) -> Result<FedPart<'t>, Fault> {
        let work = self.work;
        let batches = work.shape.batches.len();
        let from = count_before(batches, self.parts, morsel);
        let to = count_before(batches, self.parts, morsel + 1);
        work.begin_part(alloc, from, to)
    }

    fn go_on(&self, alloc: Global, answer: &mut Result<FedPart<'t>, Fault>) -> bool {
        let Ok(part) = std::mem::replace(answer, Err(Fault::OutOfMemory)) else {
            return false;
        };
        match part.feed_turn(alloc) {
            Ok((part, more)) => {
                *answer = Ok(part);
                more
            }
            Err(_) => false,
        }
    }
}

// Merges the groups of each part after those of the parts before it, watched.
pub(crate) struct GroupMerger<'w, 't, 'l, L> {
    pub(crate) alloc: Global,
    pub(crate) work: &'w GroupWork<'t>,
    pub(crate) watch: &'l mut L,
}

impl<'w, 't, 'l, L: Watches> Reads<Result<FedPart<'t>, Fault>> for GroupMerger<'w, 't, 'l, L> {
    type Out = Result<Groups<'t>, Fault>;

    ghost use Rattle.std.specs.Prelude.{◌≡◌, OnOk};
    ghost use Rattle.fetch_workers.specs.Merging.{CanMerge};
    ghost use Rattle.scan_exec.specs.GroupWork.{GroupsOfAll, work_at};

    ghost takes = { λ m right count. CanMerge (work_at m.work.now) right count
        × L.ready m.watch.now };

    ghost reads = { λ m right count out new. GroupsOfAll (work_at m.work.now) out
        × (new.watch.ghost_name ≡ m.watch.ghost_name) × OnOk out (L.ready new.watch.now)
        × L.watched m.watch.now new.watch.now };

    fn read<P: Answers<Result<FedPart<'t>, Fault>>>(
        &mut self,
        answers: &mut P,
    ) -> Result<Groups<'t>, Fault> {
        merge_parts(self.alloc, self.work, answers, self.watch)
    }
}

// The groups of all parts, merged in the order of the parts, watched.
fn merge_parts<'t, P: Answers<Result<FedPart<'t>, Fault>>, L: Watches>(
    alloc: Global,
    work: &GroupWork<'t>,
    answers: &mut P,
    watch: &mut L,
) -> Result<Groups<'t>, Fault>
    requires ready { P.ready answers.old }
    requires begin { P.given answers.old ≡ 0 }
    requires can { CanMerge (work_at work.now) P.right (P.count answers.old) }
    requires watch { L.ready watch.old }
    ensures groups { GroupsOfAll (work_at work.now) result }
    ensures watch { OnOk result (L.ready watch.new) }
    ensures watched { L.watched watch.old watch.new }
{
    let mut untold = row_count(work.shape.batches).saturating_mul(work.picker.weight());
    let Some(first) = next_groups(alloc, work, answers, &mut untold, watch)? else {
        return Ok(Groups::new(alloc, work.seed, work.shape)?);
    };
    let mut groups = first;
    while let Some(part) = next_groups(alloc, work, answers, &mut untold, watch)? {
        groups.merge(alloc, part, watch)?;
    }
    Ok(groups)
}

// The part that is answered next, or none after the last one. After each turn of its worker, who
// watches may end it. So many rows of turns are untold: where a part ends or has no more to do, a
// turn is over too, and no more rows are told than count.
fn next_part<'t, P: Answers<Result<FedPart<'t>, Fault>>, L: Watches>(
    answers: &mut P,
    untold: &mut usize,
    watch: &mut L,
) -> Result<Option<FedPart<'t>>, Fault>
    requires ready { P.ready answers.old }
    requires watch { L.ready watch.old }
    ensures ready { P.ready answers.new }
    ensures count { P.count answers.new ≡ P.count answers.old }
    ensures part { IfOk result
        (IsNextPart P.right (P.count answers.old) (P.given answers.old) (P.given answers.new)) }
    ensures watch { OnOk result (L.ready watch.new) }
    ensures watched { L.watched watch.old watch.new }
{
    let mut turns = u64::MAX;
    while turns > 0 {
        match answers.turn() {
            NextAnswer::Given(part) => return Ok(Some(part?)),
            NextAnswer::End => return Ok(None),
            NextAnswer::Going => {}
        }
        let told = TURN_ROWS.min(*untold);
        *untold -= told;
        tell(watch, told)?;
        turns -= 1;
    }
    match answers.next() {
        Some(part) => Ok(Some(part?)),
        None => Ok(None),
    }
}

// The groups of the part that is answered next, or none after the last one. What its worker has not
// fed is fed here.
fn next_groups<'t, P: Answers<Result<FedPart<'t>, Fault>>, L: Watches>(
    alloc: Global,
    work: &GroupWork<'t>,
    answers: &mut P,
    untold: &mut usize,
    watch: &mut L,
) -> Result<Option<Groups<'t>>, Fault>
    requires ready { P.ready answers.old }
    requires can { CanMerge (work_at work.now) P.right (P.count answers.old) }
    requires watch { L.ready watch.old }
    ensures ready { P.ready answers.new }
    ensures count { P.count answers.new ≡ P.count answers.old }
    ensures groups { IfOk result (AreNextGroups (work_at work.now) (P.count answers.old)
        (P.given answers.old) (P.given answers.new)) }
    ensures watch { OnOk result (L.ready watch.new) }
    ensures watched { L.watched watch.old watch.new }
{
    match next_part(answers, untold, watch)? {
        Some(part) => Ok(Some(part.into_groups(alloc, watch)?)),
        None => Ok(None),
    }
}
