//! A table that gets more batches.

ghost use Rattle.std.specs.Prelude.{◌≡◌, ◌+◌, ◌<◌, ◌≤◌, ◌∷◌, ◌++◌, [], length, IfOk, IsTrue, All};
ghost use Rattle.std.specs.List.{flat_map};
ghost use Rattle.std.specs.Arc.{arc_value};
ghost use Rattle.arrow_types.specs.Schema.{IsSchema};
ghost use Rattle.arrays.specs.Batch.{BatchAt, rows_of};
ghost use Rattle.arrays.specs.TypedLayouts.{AreOfTypes};
ghost use Rattle.scan_base.specs.Limits.{most_rows};
ghost use Rattle.table_versions.specs.Batches.{ArePlaced, placed_table};
ghost use Rattle.table_versions.specs.StoredTables.{has_rows, kept};
ghost use Rattle.table_versions.specs.KeptTables.{AreSound, Stands};
ghost use Rattle.table_versions.specs.StatsPages.{AreRowsFrom, AreStatsFrom, IsPageFrom};

use crate::placed_batch::PlacedBatch;
use crate::stats_page::{PAGE_BATCHES, StatsPage};
use arrow_types::Schema;
use batch_stats::{MeasuredBatch, OwnedStats};
use shared_pages::Pages;
use std::alloc::{AllocError, Global};
use std::marker::Model;
use std::sync::Arc;

// The columns of a table, and its batches so far.
#[derive(Drop)]
pub(crate) struct GrowingTable {
    pub(crate) schema: Arc<Schema>,
    pub(crate) batches: Pages<PlacedBatch>,
    pub(crate) stats: Arc<Pages<StatsPage>>,
    pub(crate) rows: usize,
}

impl Model for GrowingTable {
    ghost use Rattle.std.specs.Arc.{arc_value};
    ghost use Rattle.table_versions.specs.StoredTables.{TableAt};
    ghost use Rattle.table_versions.specs.Batches.{placed_table};
    ghost use Rattle.table_versions.specs.StatsPages.{AreStored};

    ghost Value = { TableAt };

    ghost view = { λ t. placed_table (arc_value t.schema) t.batches };

    ghost invariant = { λ t. AreStored (arc_value t.schema) t.batches (arc_value t.stats) t.rows };
}

impl GrowingTable {
    // A table of no rows.
    pub(crate) fn new(alloc: Global, schema: Schema) -> Result<GrowingTable, AllocError>
        requires { IsSchema schema }
        ensures { IfOk result (λ table. table ≡ record { schema = schema; batches = [] }) }
    {
        Ok(GrowingTable {
            schema: Arc::new(alloc, schema).map_err(|_| AllocError)?,
            batches: Pages::new(alloc),
            stats: Arc::new(alloc, Pages::new(alloc)).map_err(|_| AllocError)?,
            rows: 0,
        })
    }

    // The table with one batch more after its others.
    fn with(self, alloc: Global, batch: MeasuredBatch) -> Result<GrowingTable, AllocError>
        requires filled { IsTrue (has_rows batch) }
        requires typed { AreOfTypes self.schema.fields batch.columns }
        requires stands { Stands batch }
        requires sound { AreSound self.schema.fields (rows_of batch) }
        requires few { length (flat_map rows_of self.batches) + batch.rows ≤ most_rows }
        ensures { IfOk result (λ table. table
            ≡ record self { batches = self.batches ++ batch ∷ [] }) }
    {
        let GrowingTable {
            schema,
            batches,
            stats,
            rows: start,
        } = self;
        let rows = start + batch.rows();
        let placed = Arc::new(alloc, PlacedBatch { batch, start }).map_err(|_| AllocError)?;
        Ok(GrowingTable {
            schema,
            batches: batches.with(alloc, placed)?,
            stats,
            rows,
        })
    }

    // The same table. Where it has 256 batches that no page of statistics has, there is one page
    // more.
    fn with_page(self, alloc: Global) -> Result<GrowingTable, AllocError>
        ensures { IfOk result (λ table. table ≡ self) }
    {
        if self.batches.len() / PAGE_BATCHES <= self.stats.len() {
            return Ok(self);
        }
        let page = self.page_from(alloc, self.stats.len() * PAGE_BATCHES)?;
        let GrowingTable {
            schema,
            batches,
            stats,
            rows,
        } = self;
        let page = Arc::new(alloc, page).map_err(|_| AllocError)?;
        let longer = stats.share(alloc)?.with(alloc, page)?;
        Ok(GrowingTable {
            schema,
            batches,
            stats: Arc::new(alloc, longer).map_err(|_| AllocError)?,
            rows,
        })
    }

    // The statistics of the 256 batches from this one on.
    fn page_from(&self, alloc: Global, first: usize) -> Result<StatsPage, AllocError>
        requires { first + 256 ≤ length self.now.batches }
        ensures { IfOk result (λ page. IsPageFrom self.now.batches first page) }
    {
        let rows = self.rows_from(alloc, first)?;
        let width = self.schema.fields.len();
        let mut columns = Vec::with_capacity(alloc, width)?;
        for column in 0..width {
            columns.push(self.column_from(alloc, first, column)?)?;
        }
        Ok(StatsPage { rows, columns })
    }

    // How many rows each of these batches has.
    fn rows_from(&self, alloc: Global, first: usize) -> Result<Vec<usize>, AllocError>
        requires { first + 256 ≤ length self.now.batches }
        ensures { IfOk result (λ rows. AreRowsFrom self.now.batches first rows.items) }
    {
        let batches = &self.batches;
        let mut rows = Vec::with_capacity(alloc, PAGE_BATCHES)?;
        for index in first..first + PAGE_BATCHES {
            rows.push(batches.get(index).batch.rows())?;
        }
        Ok(rows)
    }

    // The statistics of a column of these batches.
    fn column_from(
        &self,
        alloc: Global,
        first: usize,
        column: usize,
    ) -> Result<Vec<OwnedStats>, AllocError>
        requires there { first + 256 ≤ length self.now.batches }
        requires column { column < length self.now.schema.fields }
        ensures { IfOk result (λ all. AreStatsFrom self.now.batches first column all.items) }
    {
        let batches = &self.batches;
        let mut all = Vec::with_capacity(alloc, PAGE_BATCHES)?;
        for index in first..first + PAGE_BATCHES {
            match batches.get(index).batch.owned_stats(column) {
                Some(stats) => all.push(stats)?,
                None => return Ok(all),
            }
        }
        Ok(all)
    }

    // The table with those of the batches that have rows after its others.
    pub(crate) fn extended(
        self,
        alloc: Global,
        batches: Vec<MeasuredBatch>,
    ) -> Result<GrowingTable, AllocError>
        requires typed { All (λ (batch : BatchAt). AreOfTypes self.schema.fields batch.columns)
            batches.items }
        requires stand { All Stands batches.items }
        requires sound { AreSound self.schema.fields (flat_map rows_of batches.items) }
        requires few { length (flat_map rows_of (self.batches ++ batches.items)) ≤ most_rows }
        ensures { IfOk result (λ table. table
            ≡ record self { batches = self.batches ++ kept batches.items }) }
    {
        let mut table = self;
        for batch in batches {
            if batch.rows() > 0 {
                table = table.with(alloc, batch)?.with_page(alloc)?;
            }
        }
        Ok(table)
    }
}
