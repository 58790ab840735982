//! The statistics of 256 batches in a row.

use batch_stats::OwnedStats;

// How many batches a page is of.
pub(crate) const PAGE_BATCHES: usize = 256;

// What is read of 256 batches without the batches: how many rows each has, and the statistics of
// its columns. Those of one column stand one after the other.
#[derive(Drop)]
pub(crate) struct StatsPage {
    pub(crate) rows: Vec<usize>,
    pub(crate) columns: Vec<Vec<OwnedStats>>,
}
