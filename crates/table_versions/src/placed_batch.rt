//! Batches that know their place in a table.

use batch_stats::MeasuredBatch;

// A batch of a table, and how many rows of the table stand before it.
#[derive(Drop)]
pub(crate) struct PlacedBatch {
    pub(crate) batch: MeasuredBatch,
    pub(crate) start: usize,
}
