//! A left batch, and its pairs.

ghost use Rattle.std.specs.Prelude.{◌≡◌, ◌≤◌, ◌<◌, ◌++◌, [], All, IfOk, IsTrue, OnErr, false};
ghost use Rattle.std.specs.Prelude.{length, nat_lt, true};
ghost use Rattle.std.specs.List.{list_all};
ghost use Rattle.array_select.specs.Room.{most_batch_rows};
ghost use Rattle.hash_join.specs.Pairs.{pairs_ahead};
ghost use Rattle.join_batches.specs.BuiltSides.{AreBuilt};
ghost use Rattle.join_batches.specs.LeftPairs.{IsLeft, KeepsPairs, pairs_left};
ghost use Rattle.join_batches.specs.Rows.{IsPair};

use crate::joiner::BuiltSides;
use array_select::MOST_BATCH_ROWS;
use arrays::Batch;
use hash_join::{Build, LeftSide, Pair, Probe};
use std::alloc::{AllocError, Global};

// The left batch whose joined rows are given, and where it has come to.
pub(crate) struct LeftPairs {
    pub(crate) batch: Batch,
    pub(crate) probe: Probe,
    // The pairs that were found last, and how many of them were given.
    pub(crate) pairs: Vec<Pair>,
    pub(crate) given: usize,
}

// Written out, so that dropping it is one call (docs/DECISIONS.md).
impl Drop for LeftPairs {
    fn drop(self) {
        let LeftPairs {
            batch: _,
            probe: _,
            pairs: _,
            given: _,
        } = self;
    }
}

impl LeftPairs {
    // Finds the next pairs, where all that were found were given. Whether some are there.
    pub(crate) fn find(&mut self, alloc: Global, sides: &BuiltSides) -> Result<bool, AllocError>
        requires built { AreBuilt sides.now }
        requires left { IsLeft sides.now self.old }
        ensures kept { KeepsPairs sides.now self.old self.new }
        ensures some { IfOk result
            (λ found. found ≡ true → self.new.given < length self.new.pairs.items) }
        ensures none { IfOk result (λ found. found ≡ false → pairs_left sides.now self.old ≡ []) }
    {
        if self.given < self.pairs.len() {
            return Ok(true);
        }
        let left = LeftSide {
            batch: &self.batch,
            key: sides.left.key.as_slice(),
        };
        self.pairs = next_pairs(alloc, &sides.build, &left, &mut self.probe)?;
        self.given = 0;
        Ok(!self.pairs.is_empty())
    }
}

// The next pairs of a left batch that are to be found: none where the batch has no row.
fn next_pairs(
    alloc: Global,
    build: &Build,
    left: &LeftSide<'_>,
    probe: &mut Probe,
) -> Result<Vec<Pair>, AllocError>
    requires alike { length left.now.key.now ≡ length build.now.key }
    requires key { 0 < left.now.batch.now.rows →
        IsTrue
        (list_all (λ column. nat_lt column (length left.now.batch.now.columns)) left.now.key.now) }
    requires few { left.now.batch.now.rows ≤ most_batch_rows }
    ensures next { IfOk result
        (λ pairs. pairs.items ++ pairs_ahead build.now left.now.batch.now left.now.key.now probe.new
        ≡ pairs_ahead build.now left.now.batch.now left.now.key.now probe.old) }
    ensures there { IfOk result
        (λ pairs. All (IsPair build.now.batches left.now.batch.now) pairs.items) }
    ensures few { IfOk result (λ pairs. length pairs.items ≤ most_batch_rows) }
    ensures some { IfOk result
        (λ pairs. pairs.items ≡ [] →
        pairs_ahead build.now left.now.batch.now left.now.key.now probe.old ≡ []) }
    ensures kept { OnErr result (probe.new ≡ probe.old) }
{
    if left.batch.rows() == 0 {
        return Ok(Vec::new(alloc));
    }
    build.next(alloc, left, probe, MOST_BATCH_ROWS)
}
