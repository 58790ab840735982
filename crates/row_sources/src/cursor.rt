//! Going through the batches of a table in order.

ghost use Rattle.std.specs.Prelude.{◌≡◌, ◌≤◌, ◌<◌, length};
ghost use Rattle.std.specs.List.{range_with_len};
ghost use Rattle.table_versions.specs.StoredTables.{table_of};
ghost use Rattle.batch_skipping.specs.Narrow.{BeginsInFirst};
ghost use Rattle.batch_skipping.specs.OpenedBatches.{batches_in};
ghost use Rattle.row_sources.specs.PlaceCursor.{IsPlaced, IsBatchSlice, IsNextPart, Begins, Opens};

use crate::batch_slice::BatchSlice;
use crate::opened_table::OpenedTable;
use array_select::MOST_BATCH_ROWS;
use arrays::laws::batch_slices_keep_rows;
use table_versions::laws::batches_are_rows;

// Where a scan of the rows `from` up to, not with, `to` of a table has come to.
#[derive(Clone, Copy, Drop)]
pub(crate) struct Cursor {
    pub(crate) from: usize,
    pub(crate) to: usize,
    // The next row to look at.
    pub(crate) at: usize,
    // The number of the batch that it stands in, and how many rows stand before that batch.
    pub(crate) batch: usize,
    pub(crate) start: usize,
    // How many batches were opened.
    pub(crate) opened: usize,
    // How many rows are looked at at once.
    pub(crate) most: usize,
}

impl Cursor {
    // Before the rows `from` up to, not with, `to` of a table, of which the first is one of its
    // first batch, and each batch has one.
    pub(crate) fn new(table: &OpenedTable, from: usize, to: usize) -> Cursor
        requires ordered { from ≤ to }
        requires within { from < to → to ≤ length (table_of table.now).rows }
        requires first { BeginsInFirst from table.now.batches }
        requires each { batches_in from to table.now.batches
            ≡ range_with_len 0 (length table.now.batches) }
        ensures placed { IsPlaced table.now result }
        ensures begins { Begins from to result }
    {
        Cursor {
            from,
            to,
            at: from,
            batch: 0,
            start: 0,
            opened: 0,
            most: MOST_BATCH_ROWS,
        }
    }

    // The next rows of the range that stand in one batch, as many as are looked at at once.
    pub(crate) fn peek<'a>(&self, table: &'a OpenedTable) -> BatchSlice<'a>
        requires more { self.now.at < self.now.to }
        requires placed { IsPlaced table.now self.now }
        ensures part { IsBatchSlice table.now result }
        ensures next { IsNextPart table.now self.now result }
    {
        batches_are_rows();
        let _most = table.rows();
        let batch = table.batch(self.batch);
        let from = self.at - self.start;
        let to = batch.rows().min(self.to - self.start).min(from + self.most);
        BatchSlice { batch, from, to }
    }

    // The same rows. The cursor goes on after them.
    pub(crate) fn open<'a>(&mut self, table: &'a OpenedTable) -> BatchSlice<'a>
        requires more { self.old.at < self.old.to }
        requires placed { IsPlaced table.now self.old }
        ensures placed { IsPlaced table.now self.new }
        ensures part { IsBatchSlice table.now result }
        ensures next { IsNextPart table.now self.old result }
        ensures opened { Opens table.now self.old result self.new }
    {
        batches_are_rows();
        batch_slices_keep_rows();
        let part = self.peek(table);
        let rows = part.batch.rows();
        if self.at == self.start.max(self.from) {
            self.opened += 1;
        }
        self.at = self.start + part.to;
        if part.to == rows {
            self.batch += 1;
            self.start += rows;
        }
        part
    }
}
