//! Groups of rows.

ghost use Rattle.std.specs.Prelude.{◌≡◌, ◌≤◌, All, IfOk, OnOk, length, take};
ghost use Rattle.std.specs.List.{flat_map};
ghost use Rattle.arrays.specs.Batch.{rows_of};
ghost use Rattle.grouping.specs.Answers.{GivesAnswer, HasFirstRows};
ghost use Rattle.scan_base.specs.Limits.{most_rows};
ghost use Rattle.scan_exec.specs.Giving.{GivesNext, MakesReady};
ghost use Rattle.row_sources.specs.CollectedRows.{IsBatchOf};
ghost use Rattle.scan_exec.specs.GroupedRows.{AreMade, AnswersAll, CanGroup, IsGroupSpec};
ghost use Rattle.row_sources.specs.Running.{GoesOn};

use crate::group_work::{GroupWork, GroupsBatches, InOneWalk};
use arrays::Batch;
use arrow_types::DataType;
use grouping::{Answers, Grouping, Groups};
use row_sources::{Picker, Rows, collect_watched};
use scan_base::{Fault, HashSeed};
use std::alloc::{AllocError, Global};
use std::marker::Model;
use typed_plan::Aggregate;
use work_watch::{NoWatch, Watches};

// What is wanted of rows with columns of these types: those that the filters let through are
// grouped by the columns of the keys, and the items are given of each group. The hashes of keys
// begin with the seed.
pub(crate) struct GroupSpec {
    pub(crate) picker: Picker,
    pub(crate) seed: HashSeed,
    pub(crate) types: Vec<DataType>,
    pub(crate) keys: Vec<usize>,
    pub(crate) items: Vec<Aggregate>,
}

// Written out, so that dropping it is one call (docs/DECISIONS.md).
impl Drop for GroupSpec {
    fn drop(self) {
        let GroupSpec {
            picker: _,
            seed: _,
            types: _,
            keys: _,
            items: _,
        } = self;
    }
}

// The batches of all rows, and what is still to be answered of their groups.
pub(crate) struct MadeGroups {
    pub(crate) batches: Vec<Batch>,
    pub(crate) answers: Answers,
}

// Written out, so that dropping it is one call (docs/DECISIONS.md).
impl Drop for MadeGroups {
    fn drop(self) {
        let MadeGroups {
            batches: _,
            answers: _,
        } = self;
    }
}

// How far the answer is: not begun; made, with what is still to be given; or refused.
pub(crate) enum Stage {
    Waiting,
    Made(MadeGroups),
    Refused,
}

// Written out, so that dropping it is one call (docs/DECISIONS.md).
impl Drop for Stage {
    fn drop(self) {
        match self {
            Stage::Waiting => {}
            Stage::Made(_) => {}
            Stage::Refused => {}
        }
    }
}

// Rows, what is wanted of their groups, and how far the answer is. A contract sees the answer that
// is still to be given.
pub(crate) struct GroupedRows {
    pub(crate) rows: Rows,
    pub(crate) wanted: GroupSpec,
    pub(crate) stage: Stage,
}

impl Model for GroupedRows {
    ghost use Rattle.scan_exec.specs.Giving.{GivingAt};
    ghost use Rattle.scan_exec.specs.GroupedRows.{IsGrouped, of_groups};

    ghost Value = { GivingAt };

    ghost view = { λ g. of_groups g.rows g.wanted g.stage };

    ghost invariant = { λ g. IsGrouped g.rows g.wanted g.stage };
}

// Written out, so that dropping it is one call (docs/DECISIONS.md).
impl Drop for GroupedRows {
    fn drop(self) {
        let GroupedRows {
            rows: _,
            wanted: _,
            stage: _,
        } = self;
    }
}

// What is wanted of the groups of batches.
fn answers_of<G: GroupsBatches, W: Watches>(
    alloc: Global,
    batches: &[Batch],
    wanted: &GroupSpec,
    by: &G,
    watch: &mut W,
) -> Result<Answers, Fault>
    requires named { IsGroupSpec wanted.now }
    requires batches { All (IsBatchOf wanted.now.types.items) batches.now }
    requires few { length (flat_map rows_of batches.now) ≤ most_rows }
    requires ready { W.ready watch.old }
    ensures answers { IfOk result (AnswersAll batches.now wanted.now) }
    ensures ready { OnOk result (W.ready watch.new) }
    ensures watched { W.watched watch.old watch.new }
{
    let work = GroupWork {
        seed: wanted.seed,
        shape: Grouping {
            batches,
            types: wanted.types.as_slice(),
            keys: wanted.keys.as_slice(),
            items: wanted.items.as_slice(),
        },
        picker: &wanted.picker,
    };
    let groups = by.groups_of_all(alloc, &work, watch)?;
    groups.finish(alloc)
}

// The groups of all rows that are still to be given.
fn made<G: GroupsBatches, W: Watches>(
    alloc: Global,
    rows: &mut Rows,
    wanted: &GroupSpec,
    by: &G,
    watch: &mut W,
) -> Result<MadeGroups, Fault>
    requires can { CanGroup rows.old wanted.now }
    requires front { take (length rows.old.opened) rows.old.batches ≡ rows.old.opened }
    requires ready { W.ready watch.old }
    ensures on { GoesOn rows.old rows.new }
    ensures made { IfOk result (λ made. AreMade rows.old wanted.now made rows.new) }
    ensures ready { OnOk result (W.ready watch.new) }
    ensures watched { W.watched watch.old watch.new }
{
    let batches = collect_watched(alloc, rows, watch)?;
    let answers = answers_of(alloc, batches.as_slice(), wanted, by, watch)?;
    Ok(MadeGroups { batches, answers })
}

impl MadeGroups {
    // The next batch of the answer, which is made here.
    fn next(&mut self, alloc: Global) -> Result<Option<Batch>, AllocError>
        requires { HasFirstRows self.old.batches.items self.old.answers }
        ensures batches { self.new.batches ≡ self.old.batches }
        ensures gives { GivesAnswer self.old.batches.items self.old.answers result
            self.new.answers }
    {
        self.answers.next(alloc, self.batches.as_slice())
    }
}

impl GroupedRows {
    // Makes the groups, unless they are there. Who watches may end it. What refused them is
    // answered from then on.
    pub(crate) fn make<G: GroupsBatches, W: Watches>(
        &mut self,
        alloc: Global,
        by: &G,
        watch: &mut W,
    ) -> Result<(), AllocError>
        requires ready { W.ready watch.old }
        ensures makes { MakesReady self.old result self.new }
        ensures ready { OnOk result (W.ready watch.new) }
        ensures watched { W.watched watch.old watch.new }
    {
        match &self.stage {
            Stage::Made(_) => return Ok(()),
            Stage::Refused => return Err(AllocError),
            Stage::Waiting => {}
        }
        match made(alloc, &mut self.rows, &self.wanted, by, watch) {
            Ok(made) => {
                self.stage = Stage::Made(made);
                Ok(())
            }
            Err(_) => {
                self.stage = Stage::Refused;
                Err(AllocError)
            }
        }
    }

    // The next batch of the answer. Groups that were not made before are made here, in one walk.
    // What refused them is answered from then on.
    pub(crate) fn next(&mut self, alloc: Global) -> Result<Option<Batch>, AllocError>
        ensures { GivesNext self.old result self.new }
    {
        match &mut self.stage {
            Stage::Made(made) => return made.next(alloc),
            Stage::Refused => return Err(AllocError),
            Stage::Waiting => {}
        }
        match made(
            alloc,
            &mut self.rows,
            &self.wanted,
            &InOneWalk,
            &mut NoWatch,
        ) {
            Ok(mut made) => {
                let first = made.next(alloc);
                self.stage = Stage::Made(made);
                first
            }
            Err(_) => {
                self.stage = Stage::Refused;
                Err(AllocError)
            }
        }
    }

    // How many batches of the first place were opened.
    pub(crate) fn opened(&self) -> usize
        ensures { result ≡ length self.now.opened }
    {
        self.rows.opened()
    }
}
