//! Batches with the statistics of their columns.

ghost use Rattle.std.specs.Prelude.{◌≡◌, ◌<◌, length, IfNone, IfOk, IfSome};
ghost use Rattle.arrays.specs.Column.{ColumnAt};
ghost use Rattle.batch_stats.specs.Columns.{stats_in};
ghost use Rattle.batch_stats.specs.OwnedStats.{AreKept, AreUnlike};
ghost use Rattle.batch_stats.specs.Sides.{side_at};
ghost use Rattle.batch_stats.specs.inside.MeasuredBatch.{AreStatsOf};

use crate::owned_stats::OwnedStats;
use crate::side::Side;
use crate::stats::Stats;
use arrays::{Batch, Cells, Column};
use std::alloc::{AllocError, Global};
use std::marker::Model;

/// A batch, and the statistics of each of its columns. A contract sees the batch.
#[derive(Drop)]
pub struct MeasuredBatch {
    batch: Batch,
    stats: Vec<Stats>,
}

impl Model for MeasuredBatch {
    ghost use Rattle.arrays.specs.Batch.{BatchAt};
    ghost use Rattle.batch_stats.specs.inside.MeasuredBatch.{AreStatsOf};

    ghost Value = { BatchAt };

    ghost view = { λ m. m.batch };

    ghost invariant = { λ m. AreStatsOf (m.batch).columns m.stats.items };
}

impl MeasuredBatch {
    /// A batch with the statistics of its columns: one pass over each.
    ///
    /// # Errors
    ///
    /// `AllocError` where memory is refused: that of a handful of numbers for each column.
    pub fn new(alloc: Global, batch: Batch) -> Result<MeasuredBatch, AllocError>
        ensures { IfOk result (λ measured. measured ≡ batch) }
    {
        let stats = stats_of_each(alloc, batch.columns())?;
        Ok(MeasuredBatch { batch, stats })
    }

    /// The batch.
    pub fn batch(&self) -> &Batch
        ensures { result.now ≡ self.now }
    {
        &self.batch
    }

    /// How many rows there are.
    pub fn rows(&self) -> usize
        ensures { result ≡ self.now.rows }
    {
        self.batch.rows()
    }

    /// What the values of a column are between, and how many are null.
    pub fn side(&self, column: usize) -> Side<'_>
        requires { column < length self.now.columns }
        ensures { side_at result ≡ stats_in self.now.columns column }
    {
        self.stats[column].side(&self.batch.columns()[column])
    }

    /// The statistics of a column, to be kept without it. It is `None` only of two ends
    /// that are not alike: no column has such ends.
    pub fn owned_stats(&self, column: usize) -> Option<OwnedStats>
        requires { column < length self.now.columns }
        ensures kept { IfSome result (λ owned. AreKept owned (stats_in self.now.columns column)) }
        ensures alike { IfNone result (AreUnlike (stats_in self.now.columns column)) }
    {
        self.stats[column].owned(&self.batch.columns()[column])
    }
}

// The statistics of each column.
fn stats_of_each(alloc: Global, columns: &[Column]) -> Result<Vec<Stats>, AllocError>
    ensures { IfOk result (λ stats. AreStatsOf columns.now stats.items) }
{
    let mut stats = Vec::with_capacity(alloc, columns.len())?;
    for column in columns {
        stats.push(Stats::of(alloc, column))?;
    }
    Ok(stats)
}
