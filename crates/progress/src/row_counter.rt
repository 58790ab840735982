//! Counting rows in records that pass.

ghost use Rattle.std.specs.Prelude.{◌≤◌, ◌<◌, length};

use crate::record_beginning::{MOST_LOOKED, record_length, rows_begun};
use std::alloc::Global;

/// Counts the rows of the record batches in records that pass, cut anywhere. It holds the beginning
/// of one record at a time, and changes none.
#[derive(Drop)]
pub struct RowCounter {
    // What came of the record at hand, up to where its rows are known.
    beginning: Vec<u8>,
    // So many bytes more belong to a record whose rows are known.
    rest: u64,
}

impl RowCounter {
    /// Nothing passed yet. It takes no memory.
    pub fn new(alloc: Global) -> RowCounter {
        RowCounter {
            beginning: Vec::new(alloc),
            rest: 0,
        }
    }

    /// How many rows begin in a piece, whose records go on where the last piece ended. Where memory
    /// is refused no further row is counted.
    pub fn pass(&mut self, piece: &[u8]) -> u64 {
        let mut rows: u64 = 0;
        let mut left = piece;
        while let [byte, behind @ ..] = left {
            if self.rest > 0 {
                left = self.pass_over(left);
            } else {
                rows = rows.saturating_add(self.take(*byte));
                left = behind;
            }
        }
        rows
    }

    // Passes over the rest of a record whose rows are known, and gives what lies after.
    fn pass_over<'a>(&mut self, left: &'a [u8]) -> &'a [u8]
        requires some { 0 < self.old.rest }
        requires more { 0 < length left.now }
        ensures { length result.now < length left.entry.now }
    {
        let count = self.rest.min(left.len() as u64);
        self.rest -= count;
        left.get(count as usize..).unwrap_or(&[])
    }

    // Takes one byte of a beginning, and gives the rows where they are known by it.
    fn take(&mut self, byte: u8) -> u64 {
        if self.beginning.push(byte).is_err() {
            self.rest = u64::MAX;
            return 0;
        }
        let Some(length) = record_length(&self.beginning) else {
            return 0;
        };
        let looked = self.beginning.len() as u64;
        if looked < length.min(MOST_LOOKED) {
            return 0;
        }
        let rows = rows_begun(&self.beginning);
        self.rest = length.saturating_sub(looked);
        self.beginning.clear();
        rows
    }
}
