//! What is grouped, and who groups it.

ghost use Rattle.std.specs.Prelude.{◌≡◌, ◌≤◌, ◌<◌, ◌+◌, ◌-◌, ℕ, IfOk, None, Ok, OnOk, length, map};
ghost use Rattle.arrays.specs.Batch.{row_of};
ghost use Rattle.array_select.specs.Room.{most_batch_rows};
ghost use Rattle.grouping.specs.FedRows.{HasFed, batch_at};
ghost use Rattle.row_sources.specs.Picking.{IsPick, chosen_rows, pick_of};
ghost use Rattle.scan_base.specs.Limits.{most_rows};
ghost use Rattle.scan_exec.specs.GroupWork.{CanBeGrouped, GroupWorkAt, GroupsOfAll, GroupsOfPart};
ghost use Rattle.scan_exec.specs.GroupWork.{IsPartOf, IsSamePart, part_at, row_count_between};
ghost use Rattle.scan_exec.specs.GroupWork.{work_at};
ghost use Rattle.work_watch.specs.WatchedWork.{ToldAtLeast};

use array_select::Selection;
use grouping::{Grouping, Groups};
use row_sources::{BatchSlice, Picker};
use scan_base::{Fault, HashSeed};
use std::alloc::Global;
use std::marker::Model;
use work_watch::pace::{GROUPED_ROWS, TURN_ROWS};
use work_watch::{Watches, tell};

/// What is grouped: those rows of batches that filters let through.
#[derive(Clone, Copy, Drop)]
pub struct GroupWork<'t> {
    /// What the hashes of keys begin with.
    pub seed: HashSeed,
    /// The batches, the types of their columns, the columns that are the key, and what is wanted of
    /// each group.
    pub shape: Grouping<'t>,
    /// The filters.
    pub picker: &'t Picker,
}

// As how many rows one counts that is fed, and how many are looked at at once.
#[derive(Clone, Copy, Drop)]
struct Pace {
    weight: usize,
    rows: usize,
}

/// A part of the batches, from one up to, not with, another, with the groups of its first rows,
/// which were fed. They are those of the batches before `at`, and the first `row` ones of that
/// batch. A contract sees what is grouped, and how many rows are left.
pub struct FedPart<'t> {
    work: GroupWork<'t>,
    groups: Groups<'t>,
    from: usize,
    at: usize,
    row: usize,
    to: usize,
    pace: Pace,
    // The rows that were chosen last. Its memory is used again.
    selection: Selection,
}

impl<'t> Model for FedPart<'t> {
    ghost use Rattle.std.specs.Prelude.{◌-◌};
    ghost use Rattle.scan_exec.specs.GroupWork.{IsPace, IsPartFed, PartAt, part_at};
    ghost use Rattle.scan_exec.specs.GroupWork.{row_count_between};
    ghost use Rattle.scan_exec.specs.GroupWork.{work_at};

    ghost Value = { PartAt };

    ghost view = { λ p. part_at (work_at p.work) p.from p.to
        (row_count_between p.at p.to p.work.shape.batches.now - p.row) };

    ghost invariant = { λ p. IsPartFed (work_at p.work) p.from p.at p.row p.to p.groups
        × IsPace p.pace.weight p.pace.rows };
}

// Written out, so that dropping it is one call (docs/DECISIONS.md).
impl<'t> Drop for FedPart<'t> {
    fn drop(self) {
        let FedPart {
            work: _,
            groups: _,
            from: _,
            at: _,
            row: _,
            to: _,
            pace: _,
            selection: _,
        } = self;
    }
}

/// Who groups the rows of batches.
pub trait GroupsBatches {
    ghost use Rattle.std.specs.Prelude.{OnOk};
    ghost use Rattle.scan_exec.specs.GroupWork.{CanBeGrouped, GroupsOfAll, work_at};

    /// The groups of those rows of all batches that the filters let through, in the order of the
    /// batches. Who watches may end it.
    ///
    /// # Errors
    ///
    /// F21 (`Fault::OutOfMemory`) where memory is refused, or who watches ends it.
    fn groups_of_all<'t, W: Watches>(
        &self,
        alloc: Global,
        work: &GroupWork<'t>,
        watch: &mut W,
    ) -> Result<Groups<'t>, Fault>
        requires can { CanBeGrouped (work_at work.now) }
        requires ready { W.ready watch.old }
        ensures groups { GroupsOfAll (work_at work.now) result }
        ensures ready { OnOk result (W.ready watch.new) }
        ensures watched { W.watched watch.old watch.new };
}

/// Groups the rows in one walk through the batches.
#[derive(Clone, Copy, Drop)]
pub struct InOneWalk;

impl GroupsBatches for InOneWalk {
    fn groups_of_all<'t, W: Watches>(
        &self,
        alloc: Global,
        work: &GroupWork<'t>,
        watch: &mut W,
    ) -> Result<Groups<'t>, Fault> {
        let part = work.begin_part(alloc, 0, work.shape.batches.len())?;
        part.into_groups(alloc, watch)
    }
}

impl<'t> GroupWork<'t> {
    /// A part of the batches, of which no row was fed yet.
    ///
    /// # Errors
    ///
    /// F21 (`Fault::OutOfMemory`) where memory is refused.
    pub fn begin_part(&self, alloc: Global, from: usize, to: usize) -> Result<FedPart<'t>, Fault>
        requires can { CanBeGrouped (work_at self.now) }
        requires ordered { from ≤ to }
        requires there { to ≤ length self.now.shape.batches.now }
        ensures { IfOk result (λ part. part ≡ part_at (work_at self.now) from to
            (row_count_between from to self.now.shape.batches.now)) }
    {
        let groups = Groups::new(alloc, self.seed, self.shape)?;
        Ok(FedPart {
            work: *self,
            groups,
            from,
            at: from,
            row: 0,
            to,
            pace: Pace {
                weight: self.picker.weight(),
                rows: self.picker.most_rows().min(GROUPED_ROWS),
            },
            selection: Selection::new(alloc),
        })
    }
}

// Some rows of a batch that are fed, the number of the batch among all, and what chooses rows of
// it.
#[derive(Clone, Copy, Drop)]
struct BatchFeed<'a> {
    number: usize,
    slice: BatchSlice<'a>,
    picker: &'a Picker,
}

// Feeds those rows of a slice that the filters let through. The selection's memory is used again:
// it is not used where there is no filter and no key.
fn feed_slice(
    alloc: Global,
    groups: &mut Groups<'_>,
    feeding: &BatchFeed<'_>,
    selection: &mut Selection,
) -> Result<(), Fault>
    requires ready { groups.old.refused ≡ None }
    requires there { feeding.now.number < length groups.old.batches }
    requires is { batch_at groups.old.batches feeding.now.number ≡ feeding.now.slice.batch.now }
    requires pick { IsPick (length feeding.now.slice.batch.now.columns)
        (pick_of feeding.now.picker.now) }
    requires ordered { feeding.now.slice.from ≤ feeding.now.slice.to }
    requires within { feeding.now.slice.to ≤ feeding.now.slice.batch.now.rows }
    requires small { feeding.now.slice.to ≤ most_batch_rows }
    requires few { groups.old.count + (feeding.now.slice.to - feeding.now.slice.from) ≤ most_rows }
    ensures { OnOk result (HasFed groups.old groups.new
        (map (row_of feeding.now.slice.batch.now.columns)
        (chosen_rows (pick_of feeding.now.picker.now) feeding.now.slice))) }
{
    if feeding.picker.filters.is_empty() && groups.has_one_group() {
        return groups.feed_span(feeding.number, feeding.slice.from, feeding.slice.to);
    }
    selection.clear();
    feeding.picker.select(alloc, &feeding.slice, selection)?;
    groups.feed(alloc, feeding.number, selection)
}

// As how many rows these count, where each counts so often.
fn weighted_rows(rows: usize, weight: usize) -> usize
    requires { 1 ≤ weight }
    ensures { rows ≤ result }
{
    rows.saturating_mul(weight)
}

impl<'t> FedPart<'t> {
    // The same part, with the next slice of a batch fed, and as how many rows its rows count.
    fn feed_next(self, alloc: Global) -> Result<(FedPart<'t>, usize), Fault>
        requires more { 0 < self.left }
        ensures same { IfOk result (λ fed. fed.0 ≡ record self.entry { left = fed.0.left }) }
        ensures less { IfOk result (λ fed. fed.0.left < self.entry.left) }
        ensures counted { IfOk result (λ fed. self.entry.left ≤ fed.0.left + fed.1) }
    {
        let FedPart {
            work,
            mut groups,
            from,
            at,
            row,
            to,
            pace,
            mut selection,
        } = self;
        let batch = &work.shape.batches[at];
        let end = batch.rows().min(row + pace.rows);
        let feeding = BatchFeed {
            number: at,
            slice: BatchSlice {
                batch,
                from: row,
                to: end,
            },
            picker: work.picker,
        };
        feed_slice(alloc, &mut groups, &feeding, &mut selection)?;
        let counted = weighted_rows(end - row, pace.weight);
        let (at, row) = if end < batch.rows() {
            (at, end)
        } else {
            (at + 1, 0)
        };
        let part = FedPart {
            work,
            groups,
            from,
            at,
            row,
            to,
            pace,
            selection,
        };
        Ok((part, counted))
    }

    /// The same part, with slices of its batches fed for a turn: 1,048,576 rows, and after them
    /// those of the slice in hand. A row counts as often as filters compare in it
    /// (`Picker::weight`). A slice has as many rows as the filters look at at once
    /// (`Picker::most_rows`), and 16,384 at most. Whether there are more: where not, its groups
    /// free their tables.
    ///
    /// # Errors
    ///
    /// F21 (`Fault::OutOfMemory`) where memory is refused.
    pub fn feed_turn(self, alloc: Global) -> Result<(FedPart<'t>, bool), Fault>
        ensures { IfOk result (λ fed. IsSamePart self.entry fed.0) }
    {
        let mut part = self;
        let mut rows = 0usize;
        while part.at < part.to && rows < TURN_ROWS {
            let (next, counted) = part.feed_next(alloc)?;
            part = next;
            rows = rows.saturating_add(counted);
        }
        let more = part.at < part.to;
        if !more {
            part.groups.free_tables();
        }
        Ok((part, more))
    }

    /// The groups of the part, once its other rows are fed. Who watches is told of the rows of each
    /// slice, and may end it after each. A row counts as often as filters compare in it.
    ///
    /// # Errors
    ///
    /// F21 (`Fault::OutOfMemory`) where memory is refused, or who watches ends it.
    pub fn into_groups<W: Watches>(self, alloc: Global, watch: &mut W) -> Result<Groups<'t>, Fault>
        requires ready { W.ready watch.old }
        ensures groups { (work : GroupWorkAt) (from to : ℕ) → IsPartOf work from to self.entry →
            GroupsOfPart work from to result }
        ensures ready { OnOk result (W.ready watch.new) }
        ensures watched { W.watched watch.old watch.new }
        ensures told { OnOk result (ToldAtLeast W.told self.entry.left watch.old watch.new) }
    {
        let mut part = self;
        while part.at < part.to {
            let (next, counted) = part.feed_next(alloc)?;
            part = next;
            tell(watch, counted)?;
        }
        Ok(part.groups())
    }

    // The groups, where all rows were fed. They free their tables.
    fn groups(self) -> Groups<'t>
        requires { self.left ≡ 0 }
        ensures { (work : GroupWorkAt) (from to : ℕ) → IsPartOf work from to self.entry →
            GroupsOfPart work from to (Ok result) }
    {
        let FedPart {
            work: _,
            mut groups,
            from: _,
            at: _,
            row: _,
            to: _,
            pace: _,
            selection: _,
        } = self;
        groups.free_tables();
        groups
    }
}
