//! Pairs of rows.

/// A row of the left batch, and the batch of the right and the row in it that it joins, counted
/// from 0.
#[derive(Clone, Copy, Drop)]
pub struct Pair {
    pub left: u32,
    pub batch: u32,
    pub row: u32,
}
