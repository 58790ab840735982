//! A table as a version of the catalog has it.

ghost use Rattle.std.specs.Prelude.{◌≡◌, ◌<◌, ◌≤◌, ◌*◌, ◌/◌, Some, length, option_map, slice_get};
ghost use Rattle.std.specs.Prelude.{IfOk, IfSome};
ghost use Rattle.std.specs.Arc.{arc_value};
ghost use Rattle.arrow_types.specs.Schema.{IsSchema};
ghost use Rattle.arrays.specs.Batch.{BatchAt, rows_of};
ghost use Rattle.arrays.specs.TypedLayouts.{AreOfTypes};
ghost use Rattle.batch_stats.specs.Beginnings.{AreBeginnings};
ghost use Rattle.batch_stats.specs.Columns.{stats_in};
ghost use Rattle.batch_stats.specs.Sides.{side_at};
ghost use Rattle.scan_base.specs.Limits.{most_columns, most_rows};
ghost use Rattle.table_versions.specs.KeptTables.{AreSound, IsKept};
ghost use Rattle.table_versions.specs.Standing.{StandsIn};
ghost use Rattle.table_versions.specs.StatsPages.{AreOfBatch, IsPageFrom};
ghost use Rattle.table_versions.specs.StoredTables.{table_of};

use crate::growing_table::GrowingTable;
use crate::placed_batch::PlacedBatch;
use crate::stats_page::{PAGE_BATCHES, StatsPage};
use arrays::Batch;
use arrow_types::Schema;
use batch_stats::{Beginnings, MeasuredBatch, OwnedStats, Side};
use shared_pages::Pages;
use std::alloc::{AllocError, Global};
use std::marker::Model;
use std::sync::Arc;

/// A table: its schema, which can be written, and its rows in batches. Each batch has rows, and one
/// column for each field, of the field's type. No cell is null in a column that takes no null, and
/// no text has more than 65,536 bytes. A longer version of the table shares these batches.
pub struct TableVersion {
    schema: Arc<Schema>,
    batches: Arc<Pages<PlacedBatch>>,
    stats: Arc<Pages<StatsPage>>,
    rows: usize,
}

// Written out, so that dropping it is one call (docs/DECISIONS.md).
impl Drop for TableVersion {
    fn drop(self) {
        let TableVersion {
            schema: _,
            batches: _,
            stats: _,
            rows: _,
        } = self;
    }
}

/// A batch of a table: its number, counted from 0, and how many rows of the table stand before it.
#[derive(Clone, Copy, Drop)]
pub struct BatchPlace {
    pub index: usize,
    pub start: usize,
}

impl Model for TableVersion {
    ghost use Rattle.std.specs.Arc.{arc_value};
    ghost use Rattle.table_versions.specs.StoredTables.{TableAt};
    ghost use Rattle.table_versions.specs.Batches.{placed_table};
    ghost use Rattle.table_versions.specs.StatsPages.{AreStored};

    ghost Value = { TableAt };

    ghost view = { λ t. placed_table (arc_value t.schema) (arc_value t.batches) };

    ghost invariant = { λ t. AreStored (arc_value t.schema) (arc_value t.batches)
        (arc_value t.stats) t.rows };
}

impl TableVersion {
    /// The columns, 1 to 64 of them.
    pub fn schema(&self) -> &Schema
        ensures schema { result.now ≡ self.now.schema }
        ensures valid { IsSchema result.now }
    {
        &self.schema
    }

    /// How many rows there are, at most 16,777,216.
    pub fn rows(&self) -> usize
        ensures rows { result ≡ length (table_of self.now).rows }
        ensures few { result ≤ most_rows }
        ensures sound { AreSound self.now.schema.fields (table_of self.now).rows }
        ensures kept { IsKept self.now result }
    {
        self.rows
    }

    /// How many batches there are.
    pub fn batch_count(&self) -> usize
        ensures { result ≡ length self.now.batches }
    {
        self.batches.len()
    }

    /// The batch of a number, counted from 0. It has rows, and one column for each field, of the
    /// field's type. The rows of the batches, in order, are those of the table.
    pub fn batch(&self, index: usize) -> &Batch
        requires { index < length self.now.batches }
        ensures batch { slice_get self.now.batches index ≡ Some result.now }
        ensures filled { 0 < result.now.rows }
        ensures typed { AreOfTypes self.now.schema.fields result.now.columns }
        ensures wide { length result.now.columns ≡ length self.now.schema.fields }
        ensures few { length result.now.columns ≤ most_columns }
        ensures sound { AreSound self.now.schema.fields (rows_of result.now) }
    {
        self.measured(index).batch()
    }

    /// The batch of a number with the statistics of its columns.
    pub fn measured(&self, index: usize) -> &MeasuredBatch
        requires { index < length self.now.batches }
        ensures batch { slice_get self.now.batches index ≡ Some result.now }
        ensures filled { 0 < result.now.rows }
        ensures typed { AreOfTypes self.now.schema.fields result.now.columns }
        ensures wide { length result.now.columns ≡ length self.now.schema.fields }
        ensures few { length result.now.columns ≤ most_columns }
        ensures sound { AreSound self.now.schema.fields (rows_of result.now) }
    {
        &self.batches.get(index).batch
    }

    /// How many rows the batch of a number has, at least 1.
    pub fn batch_rows(&self, index: usize) -> usize
        requires { index < length self.now.batches }
        ensures rows { option_map (λ (batch : BatchAt). batch.rows)
            (slice_get self.now.batches index) ≡ Some result }
        ensures filled { 0 < result }
    {
        match self.paged_rows(index) {
            Some(rows) => rows,
            None => self.measured(index).rows(),
        }
    }

    /// What the values of a column of a batch are between, and how many are null. In the full pages
    /// of 256 batches it is read without the batch, unless one of the two is a text of more than 36
    /// bytes.
    pub fn side(&self, index: usize, column: usize) -> Side<'_>
        requires batch { index < length self.now.batches }
        requires column { column < length self.now.schema.fields }
        ensures stats { option_map (λ (batch : BatchAt). stats_in batch.columns column)
            (slice_get self.now.batches index) ≡ Some (side_at result) }
        ensures wide { IfSome (slice_get self.now.batches index)
            (λ batch. length batch.columns ≡ length self.now.schema.fields) }
    {
        match self.paged_side(index, column) {
            Some(side) => side,
            None => self.measured(index).side(column),
        }
    }

    /// How the least and the greatest text of a column of a batch begin. It is `None` of other
    /// values, and of a batch that has no page.
    pub fn beginnings(&self, index: usize, column: usize) -> Option<Beginnings<'_>>
        ensures wide { IfSome result (λ _. IfSome (slice_get self.now.batches index)
            (λ batch. length batch.columns ≡ length self.now.schema.fields)) }
        ensures beginnings { IfSome result
            (λ known. (batch : BatchAt) × (slice_get self.now.batches index ≡ Some batch)
            × AreBeginnings known (stats_in batch.columns column)) }
    {
        self.paged_stats(index, column)?.beginnings()
    }

    // The values that the page of a batch has of a column.
    fn paged_side(&self, index: usize, column: usize) -> Option<Side<'_>>
        ensures wide { IfSome result (λ _. IfSome (slice_get self.now.batches index)
            (λ batch. length batch.columns ≡ length self.now.schema.fields)) }
        ensures stats { IfSome result
            (λ side. option_map (λ (batch : BatchAt). stats_in batch.columns column)
            (slice_get self.now.batches index) ≡ Some (side_at side)) }
    {
        self.paged_stats(index, column)?.side()
    }

    // The rows of a batch that has a page.
    fn paged_rows(&self, index: usize) -> Option<usize>
        ensures filled { IfSome result (λ rows. 0 < rows) }
        ensures rows { IfSome result
            (λ rows. option_map (λ (batch : BatchAt). batch.rows) (slice_get self.now.batches index)
            ≡ Some rows) }
    {
        self.page_of(index)?.rows.get(index % PAGE_BATCHES).copied()
    }

    // The statistics of a column of a batch that has a page.
    fn paged_stats(&self, index: usize, column: usize) -> Option<&OwnedStats>
        ensures wide { IfSome result (λ _. IfSome (slice_get self.now.batches index)
            (λ batch. length batch.columns ≡ length self.now.schema.fields)) }
        ensures stats { IfSome result
            (λ owned. AreOfBatch self.now.batches index column owned.now) }
    {
        self.page_of(index)?
            .columns
            .get(column)?
            .get(index % PAGE_BATCHES)
    }

    // The page of a batch.
    fn page_of(&self, index: usize) -> Option<&StatsPage>
        ensures page { IfSome result
            (λ page. IsPageFrom self.now.batches (index / 256 * 256) page.now) }
        ensures kept { IsKept self.now (length (table_of self.now).rows) }
    {
        let page = index / PAGE_BATCHES;
        if page < self.stats.len() {
            Some(self.stats.get(page))
        } else {
            None
        }
    }

    /// The batch that a row stands in, looked for by halves.
    pub fn batch_of(&self, row: usize) -> BatchPlace
        requires { row < length (table_of self.now).rows }
        ensures { StandsIn self.now row result }
    {
        let mut index = 0;
        let mut end = self.batches.len();
        while end - index > 1 {
            let middle = index + (end - index) / 2;
            if self.batches.get(middle).start <= row {
                index = middle;
            } else {
                end = middle;
            }
        }
        let start = self.batches.get(index).start;
        BatchPlace { index, start }
    }

    /// The same table once more, over the same batches. It takes no memory.
    ///
    /// # Errors
    ///
    /// `AllocError` where the table refuses another owner.
    pub fn share(&self) -> Result<TableVersion, AllocError>
        ensures { IfOk result (λ table. table ≡ self.now) }
    {
        Ok(TableVersion {
            schema: Arc::try_clone(&self.schema)?,
            batches: Arc::try_clone(&self.batches)?,
            stats: Arc::try_clone(&self.stats)?,
            rows: self.rows,
        })
    }

    // The same table once more, for more batches.
    pub(crate) fn grow(&self, alloc: Global) -> Result<GrowingTable, AllocError>
        ensures { IfOk result (λ table. table ≡ self.now) }
    {
        Ok(GrowingTable {
            schema: Arc::try_clone(&self.schema)?,
            batches: self.batches.share(alloc)?,
            stats: Arc::try_clone(&self.stats)?,
            rows: self.rows,
        })
    }

    // A table that has all its batches.
    pub(crate) fn grown(alloc: Global, table: GrowingTable) -> Result<TableVersion, AllocError>
        ensures { IfOk result (λ version. version ≡ table) }
    {
        let GrowingTable {
            schema,
            batches,
            stats,
            rows,
        } = table;
        Ok(TableVersion {
            schema,
            batches: Arc::new(alloc, batches).map_err(|_| AllocError)?,
            stats,
            rows,
        })
    }
}
