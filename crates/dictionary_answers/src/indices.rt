//! The indices of slots.

ghost use Rattle.std.specs.Prelude.{◌≡◌, ◌<◌, None, MatchOption, get_or, length};
ghost use Rattle.std.specs.Prelude.{slice_get};
ghost use Rattle.scan_base.specs.declared.value.Value.TheVariants.{Null};
ghost use Rattle.arrays.specs.Indices.{entry_of};
ghost use Rattle.arrays.specs.Layout.{layout_slot};
ghost use Rattle.arrays.specs.declared.layout.Layout.TheVariants as layout;

use arrays::{Column, Indices};

/// A column whose slots are indices, and these slots.
#[derive(Drop)]
pub(crate) struct IndexColumn<'t> {
    pub(crate) column: &'t Column,
    pub(crate) cells: Indices<'t>,
}

/// Slots of such a column that follow each other.
#[derive(Drop)]
pub(crate) struct Block<'b, 't> {
    pub(crate) of: &'b IndexColumn<'t>,
    pub(crate) from: usize,
    pub(crate) to: usize,
}

/// The index of a slot that is not null by its validity bit: it is that of a value of the
/// dictionary.
pub(crate) fn valid_index(cells: &Indices<'_>, slot: usize) -> Option<usize>
    requires { slot < (cells.now).len }
    ensures { MatchOption result (layout_slot (layout.Indices cells.now) slot ≡ Null)
        (λ index. (index < length (cells.now).dictionary)
        × (layout_slot (layout.Indices cells.now) slot
        ≡ get_or (cells.now).dictionary index Null)) }
{
    let _count = cells.len();
    if cells.validity().is_valid(slot) {
        index_at(cells, slot)
    } else {
        None
    }
}

// The index of a slot, where it is that of a value of the dictionary; as may not be where the slot
// is null.
fn index_at(cells: &Indices<'_>, slot: usize) -> Option<usize>
    requires { slot < (cells.now).len }
    ensures { MatchOption result (entry_of cells.now slot ≡ None)
        (λ index. (index < length (cells.now).dictionary)
        × (entry_of cells.now slot ≡ slice_get (cells.now).dictionary index)) }
{
    let count = cells.dictionary().len();
    match usize::try_from(cells.index_at(slot)) {
        Ok(index) if index < count => Some(index),
        _ => None,
    }
}
