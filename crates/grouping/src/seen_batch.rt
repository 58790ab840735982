//! Numbers of long texts that were seen in a batch.

ghost use Rattle.std.specs.Prelude.{◌≡◌, ℕ, [], List, Option};
ghost use Rattle.scan_base.specs.declared.value.Value.{Value};
ghost use Rattle.arrays.specs.Batch.{BatchAt};
ghost use Rattle.coded_keys.specs.Numbers.{AreNumbers};
ghost use Rattle.grouping.specs.FedRows.{batch_at};

use coded_keys::SeenNumbers;
use scan_base::HashSeed;
use std::alloc::Global;

/// The numbers of long texts that were seen in the batch of a number.
#[derive(Drop)]
pub(crate) struct SeenBatch {
    pub(crate) number: usize,
    pub(crate) numbers: SeenNumbers,
}

impl SeenBatch {
    /// No text was seen, for keys of so many parts.
    pub(crate) fn new(alloc: Global, seed: HashSeed, parts: usize) -> SeenBatch
        ensures { result.numbers.places.items ≡ [] }
    {
        SeenBatch {
            number: 0,
            numbers: SeenNumbers::new(alloc, seed, parts),
        }
    }

    /// Turns to the batch of a number: what was seen in another one is forgotten.
    pub(crate) fn turn_to(&mut self, number: usize)
        ensures number { self.new.number ≡ number }
        ensures stays { (numbers : Value → Option ℕ) (batches : List BatchAt) (columns : List ℕ) →
            AreNumbers numbers
            (batch_at batches self.old.number) columns self.old.numbers.places.items →
            AreNumbers numbers (batch_at batches number) columns self.new.numbers.places.items }
    {
        if number != self.number {
            self.numbers.forget();
            self.number = number;
        }
    }
}
