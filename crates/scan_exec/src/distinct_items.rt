//! Items that differ.

ghost use Rattle.std.specs.Prelude.{◌≡◌, ◌<◌, ◌++◌, ◌∷◌, [], List, true, IfOk, IfSome, OnOk};
ghost use Rattle.std.specs.Prelude.{length};
ghost use Rattle.typed_plan.specs.declared.plan.Aggregate.{Aggregate};
ghost use Rattle.scan_exec.specs.DistinctItems.{StandFor, item_at};

use std::alloc::{AllocError, Global};
use typed_plan::Aggregate;

// The items that differ, by first appearance, and for each item its place among them.
#[derive(Drop)]
pub(crate) struct DistinctItems {
    pub(crate) items: Vec<Aggregate>,
    pub(crate) places: Vec<usize>,
}

impl DistinctItems {
    // Of these items.
    pub(crate) fn of(alloc: Global, items: &[Aggregate]) -> Result<DistinctItems, AllocError>
        ensures { IfOk result
            (λ different. StandFor items.now different.items.items different.places.items) }
    {
        let mut different = DistinctItems {
            items: Vec::new(alloc),
            places: Vec::new(alloc),
        };
        for item in items {
            different.push(*item)?;
        }
        Ok(different)
    }

    // With an item more.
    fn push(&mut self, item: Aggregate) -> Result<(), AllocError>
        ensures { OnOk result
            ((items : List Aggregate) → StandFor items self.old.items.items self.old.places.items
            → StandFor (items ++ item ∷ []) self.new.items.items self.new.places.items) }
    {
        if let Some(place) = place_of(self.items.as_slice(), item) {
            self.places.push(place)?;
            return Ok(());
        }
        self.places.push(self.items.len())?;
        self.items.push(item)?;
        Ok(())
    }
}

// Where an item stands among these.
fn place_of(items: &[Aggregate], item: Aggregate) -> Option<usize>
    ensures there { IfSome result (λ place. place < length items.now) }
    ensures is { IfSome result (λ place. item_at items.now place ≡ item) }
{
    for place in 0..items.len() {
        if is_same(items[place], item) {
            return Some(place);
        }
    }
    None
}

// Whether two items are the same.
fn is_same(item: Aggregate, other: Aggregate) -> bool
    ensures { result ≡ true → item ≡ other }
{
    match (item, other) {
        (Aggregate::Key(place), Aggregate::Key(other)) => place == other,
        (Aggregate::CountRows, Aggregate::CountRows) => true,
        (Aggregate::Count(column), Aggregate::Count(other)) => column == other,
        (Aggregate::Sum(column), Aggregate::Sum(other)) => column == other,
        _ => false,
    }
}
