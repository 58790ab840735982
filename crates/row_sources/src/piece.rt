//! Pieces of rows.

use arrays::Batch;

/// Rows of one batch of the first place.
#[derive(Drop)]
pub struct Piece {
    /// The rows.
    pub batch: Batch,
    /// The number of the batch of which they come, counted from 0 among those that are read.
    pub number: usize,
}
