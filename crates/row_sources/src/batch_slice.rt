//! Parts of batches.

use arrays::Batch;

/// The rows `from` up to, not with, `to` of a batch.
#[derive(Clone, Copy, Drop)]
pub struct BatchSlice<'a> {
    /// The batch.
    pub batch: &'a Batch,
    /// Its first row that is of the part.
    pub from: usize,
    /// The first row after the part.
    pub to: usize,
}
