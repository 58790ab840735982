//! Pairs, and where the cells of their rows are.

ghost use Rattle.std.specs.Prelude.{◌≡◌, ◌≤◌, IfOk, length, map, take};
ghost use Rattle.join_batches.specs.BatchSides.{left_place, right_place, HavePlaces};

use array_select::SlotPlace;
use hash_join::Pair;
use std::alloc::{AllocError, Global};

// Pairs, and for each the place of its left row among the slots of a left column, and that of its
// right row among those of the right columns.
#[derive(Clone, Copy, Drop)]
pub(crate) struct PlacedPairs<'a> {
    pub(crate) pairs: &'a [Pair],
    pub(crate) lefts: &'a [SlotPlace],
    pub(crate) rights: &'a [SlotPlace],
}

impl<'a> PlacedPairs<'a> {
    // The same of the first pairs.
    pub(crate) fn first(&self, count: usize) -> PlacedPairs<'a>
        requires placed { HavePlaces self.now }
        requires within { count ≤ length self.now.pairs.now }
        ensures placed { HavePlaces result }
        ensures pairs { result.pairs.now ≡ take count self.now.pairs.now }
    {
        PlacedPairs {
            pairs: &self.pairs[..count],
            lefts: &self.lefts[..count],
            rights: &self.rights[..count],
        }
    }
}

// The places of the left rows of pairs in one left column.
pub(crate) fn left_places(alloc: Global, pairs: &[Pair]) -> Result<Vec<SlotPlace>, AllocError>
    ensures { IfOk result (λ places. places.items ≡ map left_place pairs.now) }
{
    let mut places = Vec::with_capacity(alloc, pairs.len())?;
    for pair in pairs {
        places.push(SlotPlace {
            column: 0,
            place: pair.left,
        })?;
    }
    Ok(places)
}

// The places of the right rows of pairs in the columns of the right batches.
pub(crate) fn right_places(alloc: Global, pairs: &[Pair]) -> Result<Vec<SlotPlace>, AllocError>
    ensures { IfOk result (λ places. places.items ≡ map right_place pairs.now) }
{
    let mut places = Vec::with_capacity(alloc, pairs.len())?;
    for pair in pairs {
        places.push(SlotPlace {
            column: pair.batch,
            place: pair.row,
        })?;
    }
    Ok(places)
}
