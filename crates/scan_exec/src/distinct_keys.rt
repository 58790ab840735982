//! Columns of a key that differ.

ghost use Rattle.std.specs.Prelude.{◌≡◌, ◌<◌, ◌++◌, ◌∷◌, [], ℕ, List, true, IfOk, IfSome, OnOk};
ghost use Rattle.std.specs.Prelude.{length, map};
ghost use Rattle.scan_exec.specs.DistinctItems.{KeyedBy, column_at, item_by};

use std::alloc::{AllocError, Global};
use typed_plan::Aggregate;

// The columns of a key that differ, by first appearance, and for each part of the key its place
// among them.
#[derive(Drop)]
pub(crate) struct DistinctKeys {
    pub(crate) columns: Vec<usize>,
    pub(crate) places: Vec<usize>,
}

impl DistinctKeys {
    // Of a key.
    pub(crate) fn of(alloc: Global, keys: &[usize]) -> Result<DistinctKeys, AllocError>
        ensures { IfOk result
            (λ different. KeyedBy keys.now different.columns.items different.places.items) }
    {
        let mut different = DistinctKeys {
            columns: Vec::new(alloc),
            places: Vec::new(alloc),
        };
        for key in keys {
            different.push(*key)?;
        }
        Ok(different)
    }

    // With a part more.
    fn push(&mut self, key: usize) -> Result<(), AllocError>
        ensures { OnOk result
            ((keys : List ℕ) → KeyedBy keys self.old.columns.items self.old.places.items
            → KeyedBy (keys ++ key ∷ []) self.new.columns.items self.new.places.items) }
    {
        if let Some(place) = place_of(self.columns.as_slice(), key) {
            self.places.push(place)?;
            return Ok(());
        }
        self.places.push(self.columns.len())?;
        self.columns.push(key)?;
        Ok(())
    }

    // Items of groups by the key, where they are made by the columns that differ.
    pub(crate) fn items(
        &self,
        alloc: Global,
        items: &[Aggregate],
    ) -> Result<Vec<Aggregate>, AllocError>
        ensures { IfOk result (λ made. made.items ≡ map (item_by self.now.places.items) items.now) }
    {
        let mut made = Vec::with_capacity(alloc, items.len())?;
        for item in items {
            made.push(self.item(*item))?;
        }
        Ok(made)
    }

    // The same of one item.
    fn item(&self, item: Aggregate) -> Aggregate
        ensures { result ≡ item_by self.now.places.items item }
    {
        match item {
            Aggregate::Key(place) if place < self.places.len() => {
                Aggregate::Key(self.places[place])
            }
            Aggregate::Key(_) => Aggregate::Key(0),
            _ => item,
        }
    }
}

// Where a column stands among these.
fn place_of(columns: &[usize], column: usize) -> Option<usize>
    ensures there { IfSome result (λ place. place < length columns.now) }
    ensures is { IfSome result (λ place. column_at columns.now place ≡ column) }
{
    for place in 0..columns.len() {
        if columns[place] == column {
            return Some(place);
        }
    }
    None
}
