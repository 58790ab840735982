//! What a scan gives: rows, or groups of them.

ghost use Rattle.std.specs.Prelude.{◌≡◌, ◌≤◌, true, IfOk, length, take, OnOk};
ghost use Rattle.scan_base.specs.Limits.{most_rows};
ghost use Rattle.typed_plan.specs.TypedPlans.{HasOutput, is_grouping};
ghost use Rattle.scan_exec.specs.Answering.{IsGiving, answer_for, giving_at};
ghost use Rattle.scan_exec.specs.Giving.{AnswerGivesTurn, MakesReady, of_rows};

use crate::distinct_items::DistinctItems;
use crate::distinct_keys::DistinctKeys;
use crate::group_work::GroupsBatches;
use crate::grouped_rows::{GroupSpec, GroupedRows, Stage};
use crate::shown_groups::ShownGroups;
use arrays::Batch;
use row_sources::{Patience, RowSource, Rows, Turn, TurnContext, UnfilteredRows, given};
use scan_base::HashSeed;
use std::alloc::{AllocError, Global};
use typed_plan::Output;
use work_watch::Watches;

// What is still to be given.
pub(crate) enum ScanAnswer {
    Rows(Rows),
    Groups(ShownGroups),
}

// Written out, so that dropping it is one call (docs/DECISIONS.md).
impl Drop for ScanAnswer {
    fn drop(self) {
        match self {
            ScanAnswer::Rows(_) => {}
            ScanAnswer::Groups(_) => {}
        }
    }
}

impl ScanAnswer {
    // Makes the groups of a grouped query, unless they are there. Who watches may end it.
    pub(crate) fn make_groups<G: GroupsBatches, W: Watches>(
        &mut self,
        alloc: Global,
        by: &G,
        watch: &mut W,
    ) -> Result<(), AllocError>
        requires giving { IsGiving self.old }
        requires ready { W.ready watch.old }
        ensures giving { IsGiving self.new }
        ensures makes { MakesReady (giving_at self.old) result (giving_at self.new) }
        ensures ready { OnOk result (W.ready watch.new) }
        ensures watched { W.watched watch.old watch.new }
    {
        match self {
            ScanAnswer::Rows(_) => Ok(()),
            ScanAnswer::Groups(groups) => groups.make(alloc, by, watch),
        }
    }

    // A turn to the next batch.
    pub(crate) fn turn(
        &mut self,
        alloc: Global,
        patience: Patience,
    ) -> Result<Turn<Batch>, AllocError>
        requires { IsGiving self.old }
        ensures giving { IsGiving self.new }
        ensures gives { AnswerGivesTurn patience (giving_at self.old) result (giving_at self.new) }
    {
        match self {
            ScanAnswer::Rows(rows) => turn_of_rows(alloc, rows, patience),
            ScanAnswer::Groups(groups) => match groups.next(alloc)? {
                Some(batch) => Ok(Turn::Given(batch)),
                None => Ok(Turn::End),
            },
        }
    }

    // How many batches of the first place were opened.
    pub(crate) fn opened(&self) -> usize
        ensures { result ≡ length (giving_at self.now).opened }
    {
        match self {
            ScanAnswer::Rows(rows) => rows.opened(),
            ScanAnswer::Groups(groups) => groups.opened(),
        }
    }
}

// A turn to the next batch of rows.
#[tactic(auto, using(crate::proofs::Scanning::gives_of))]
fn turn_of_rows(
    alloc: Global,
    rows: &mut Rows,
    patience: Patience,
) -> Result<Turn<Batch>, AllocError>
    ensures { AnswerGivesTurn patience (of_rows rows.old) result (of_rows rows.new) }
{
    let mut looking = TurnContext { alloc, patience };
    let piece = given!(rows.turn(&mut looking)?);
    Ok(Turn::Given(piece.batch))
}

// What a result takes of the rows of a source. Rows that are grouped are read without their
// filters, as slices; which of them are grouped is for the filters to choose then. A column that
// the key names more than once is one part of it for the groups, and items that are the same are
// made once.
pub(crate) fn answer_of(
    alloc: Global,
    source: RowSource,
    output: Output,
    seed: HashSeed,
) -> Result<ScanAnswer, AllocError>
    requires output { HasOutput output source.rows.types }
    requires front { take (length source.rows.opened) source.rows.batches ≡ source.rows.opened }
    requires few { is_grouping output ≡ true → source.count ≤ most_rows }
    ensures giving { IfOk result IsGiving }
    ensures answer { IfOk result (λ answer. giving_at answer ≡ answer_for output source.rows) }
{
    match output {
        Output::Project(columns) => Ok(ScanAnswer::Rows(source.project(alloc, &columns)?)),
        Output::Groups { keys, items } => {
            let UnfilteredRows {
                rows,
                picker,
                types,
            } = source.without_filters(alloc)?;
            let once = DistinctKeys::of(alloc, keys.as_slice())?;
            let named = once.items(alloc, items.as_slice())?;
            let different = DistinctItems::of(alloc, named.as_slice())?;
            let wanted = GroupSpec {
                picker,
                seed,
                types,
                keys: once.columns,
                items: different.items,
            };
            let groups = GroupedRows {
                rows,
                wanted,
                stage: Stage::Waiting,
            };
            let shown = ShownGroups::new(alloc, groups, different.places);
            Ok(ScanAnswer::Groups(shown))
        }
    }
}
