//! Which rows of a source are given, and which of their columns.

ghost use Rattle.std.specs.Prelude.{◌≡◌, ◌≤◌, ◌+◌, ◌^◌, ◌<◌, [], IfOk, OnOk, length};
ghost use Rattle.array_select.specs.Room.{most_batch_rows};
ghost use Rattle.row_sources.specs.Picking.{IsPick, chosen_rows, pick_of};
ghost use Rattle.row_sources.specs.PickedRows.{Picks};

use crate::batch_slice::BatchSlice;
use crate::columns::{gather_of, slice_of};
use array_select::Selection;
use arrays::Batch;
use kernels::PredicateColumns;
use scan_base::Predicate;
use std::alloc::{AllocError, Global};
use work_watch::comparisons_in;
use work_watch::pace::{LEAST_PIECE_ROWS, MOST_PIECE_ROWS, PIECE_COMPARISONS};

/// Which rows of a source are given, and which of their columns.
pub struct Picker {
    /// The filters: a row is given for which each is true.
    pub filters: Vec<Predicate<usize>>,
    /// The numbers of the source's columns that the filters see, in their order.
    pub read: Vec<usize>,
    /// The numbers of the source's columns that are given, in their order.
    pub shown: Vec<usize>,
}

// Written out, so that dropping it is one call (docs/DECISIONS.md).
impl Drop for Picker {
    fn drop(self) {
        let Picker {
            filters: _,
            read: _,
            shown: _,
        } = self;
    }
}

impl Picker {
    /// What is given of a part of a batch of the source, or nothing where that is no row: a slice
    /// where its rows stand next to each other, else in buffers of their own. The selection's
    /// memory is used again.
    ///
    /// # Errors
    ///
    /// `AllocError` where memory is refused.
    pub fn pick(
        &self,
        alloc: Global,
        part: &BatchSlice<'_>,
        selection: &mut Selection,
    ) -> Result<Option<Batch>, AllocError>
        requires pick { IsPick (length part.now.batch.now.columns) (pick_of self.now) }
        requires some { part.now.from < part.now.to }
        requires within { part.now.to ≤ part.now.batch.now.rows }
        requires small { part.now.to + 64 ≤ 2 ^ 32 }
        ensures { Picks (pick_of self.now) part.now result }
    {
        if !self.filters.is_empty() {
            selection.clear();
            self.select(alloc, part, selection)?;
        }
        self.give(alloc, part, selection)
    }

    /// How many comparisons the filters make for each row at most, and one at least. Contracts say
    /// no more of it: it tells what a row costs. Two texts that are compared may have 65,536 bytes
    /// each, and a batch of one row is asked each comparison apart.
    pub fn weight(&self) -> usize
        ensures { 1 ≤ result }
    {
        let mut comparisons = 0usize;
        for filter in &self.filters {
            comparisons = comparisons.saturating_add(comparisons_in(filter));
        }
        comparisons.max(1)
    }

    /// How many rows the filters look at at once: as many as take 4,194,304 comparisons, but 64 at
    /// least and 65,536 at most. Whether the client is still there is seen between two such pieces.
    pub fn most_rows(&self) -> usize
        ensures some { 1 ≤ result }
        ensures few { result ≤ most_batch_rows }
    {
        (PIECE_COMPARISONS / self.weight())
            .max(LEAST_PIECE_ROWS)
            .min(MOST_PIECE_ROWS)
    }

    /// The numbers in their batch of those rows of a part that the filters let through, in order,
    /// into an empty selection.
    ///
    /// # Errors
    ///
    /// `AllocError` where memory is refused.
    pub fn select(
        &self,
        alloc: Global,
        part: &BatchSlice<'_>,
        selection: &mut Selection,
    ) -> Result<(), AllocError>
        requires pick { IsPick (length part.now.batch.now.columns) (pick_of self.now) }
        requires ordered { part.now.from ≤ part.now.to }
        requires within { part.now.to ≤ part.now.batch.now.rows }
        requires small { part.now.to + 64 ≤ 2 ^ 32 }
        requires empty { selection.old ≡ [] }
        ensures { OnOk result (selection.new ≡ chosen_rows (pick_of self.now) part.now) }
    {
        let columns = PredicateColumns {
            columns: part.batch.columns(),
            read: self.read.as_slice(),
            count: part.batch.rows(),
        };
        let (from, to) = (part.from, part.to);
        kernels::select(
            alloc,
            self.filters.as_slice(),
            &columns,
            from,
            to,
            selection,
        )
    }

    // What is given of a part, whose rows are selected where there is a filter.
    pub(crate) fn give(
        &self,
        alloc: Global,
        part: &BatchSlice<'_>,
        selection: &Selection,
    ) -> Result<Option<Batch>, AllocError>
        requires pick { IsPick (length part.now.batch.now.columns) (pick_of self.now) }
        requires some { part.now.from < part.now.to }
        requires within { part.now.to ≤ part.now.batch.now.rows }
        requires selected { 0 < length self.now.filters.items →
            selection.now ≡ chosen_rows (pick_of self.now) part.now }
        ensures { Picks (pick_of self.now) part.now result }
    {
        if self.filters.is_empty() {
            return Ok(Some(slice_of(alloc, part, self.shown.as_slice())?));
        }
        self.selected(alloc, part, selection)
    }

    // The rows of a part that are selected: a slice where they stand next to each other, else in
    // buffers of their own.
    fn selected(
        &self,
        alloc: Global,
        part: &BatchSlice<'_>,
        selection: &Selection,
    ) -> Result<Option<Batch>, AllocError>
        requires pick { IsPick (length part.now.batch.now.columns) (pick_of self.now) }
        requires within { part.now.to ≤ part.now.batch.now.rows }
        requires ordered { part.now.from ≤ part.now.to }
        requires selected { selection.now ≡ chosen_rows (pick_of self.now) part.now }
        ensures { Picks (pick_of self.now) part.now result }
    {
        let (batch, shown) = (part.batch, self.shown.as_slice());
        let rows = selection.places();
        if rows.is_empty() {
            return Ok(None);
        }
        let (from, to) = (rows[0] as usize, rows[rows.len() - 1] as usize + 1);
        if to - from > rows.len() {
            return Ok(Some(gather_of(alloc, batch, selection, shown)?));
        }
        let run = BatchSlice { batch, from, to };
        Ok(Some(slice_of(alloc, &run, shown)?))
    }
}
