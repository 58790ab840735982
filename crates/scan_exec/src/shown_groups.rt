//! Groups of which each different item is made once.

ghost use Rattle.std.specs.Prelude.{◌≡◌, IsTrue, length, OnOk};
ghost use Rattle.batch_skipping.specs.ChosenColumns.{are_within};
ghost use Rattle.scan_exec.specs.Giving.{GivesNext, MakesReady};
ghost use Rattle.scan_exec.specs.ShownGroups.{with_cells};

use crate::group_work::GroupsBatches;
use crate::grouped_rows::GroupedRows;
use array_select::Selection;
use arrays::Batch;
use row_sources::{BatchSlice, Picker};
use std::alloc::{AllocError, Global};
use std::marker::Model;
use work_watch::Watches;

// Groups, and the columns of their answer that are given: in this order, and as often as they are
// named.
pub(crate) struct ShownGroups {
    groups: GroupedRows,
    shown: Picker,
}

impl Model for ShownGroups {
    ghost use Rattle.scan_exec.specs.Giving.{GivingAt};
    ghost use Rattle.scan_exec.specs.ShownGroups.{ShowsAll, with_cells};

    ghost Value = { GivingAt };

    ghost view = { λ s. with_cells s.shown.shown.items s.groups };

    ghost invariant = { λ s. ShowsAll s.groups s.shown };
}

// Written out, so that dropping it is one call (docs/DECISIONS.md).
impl Drop for ShownGroups {
    fn drop(self) {
        let ShownGroups {
            groups: _,
            shown: _,
        } = self;
    }
}

impl ShownGroups {
    // These columns of the answer of groups.
    pub(crate) fn new(alloc: Global, groups: GroupedRows, columns: Vec<usize>) -> ShownGroups
        requires { IsTrue (are_within (length groups.types) columns.items) }
        ensures { result ≡ with_cells columns.items groups }
    {
        let shown = Picker {
            filters: Vec::new(alloc),
            read: Vec::new(alloc),
            shown: columns,
        };
        ShownGroups { groups, shown }
    }

    // Makes the groups, unless they are there. Who watches may end it.
    pub(crate) fn make<G: GroupsBatches, W: Watches>(
        &mut self,
        alloc: Global,
        by: &G,
        watch: &mut W,
    ) -> Result<(), AllocError>
        requires ready { W.ready watch.old }
        ensures makes { MakesReady self.old result self.new }
        ensures ready { OnOk result (W.ready watch.new) }
        ensures watched { W.watched watch.old watch.new }
    {
        self.groups.make(alloc, by, watch)
    }

    // The next batch of the answer. A column that is given more than once lies in the same buffers.
    pub(crate) fn next(&mut self, alloc: Global) -> Result<Option<Batch>, AllocError>
        ensures { GivesNext self.old result self.new }
    {
        let Some(batch) = self.groups.next(alloc)? else {
            return Ok(None);
        };
        let whole = BatchSlice {
            batch: &batch,
            from: 0,
            to: batch.rows(),
        };
        self.shown.pick(alloc, &whole, &mut Selection::new(alloc))
    }

    // How many batches of the first place were opened.
    pub(crate) fn opened(&self) -> usize
        ensures { result ≡ length self.now.opened }
    {
        self.groups.opened()
    }
}
