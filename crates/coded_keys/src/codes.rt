//! Codes of cells.

ghost use Rattle.std.specs.Prelude.{◌≡◌, ◌<◌, ◌+◌, true};
ghost use Rattle.scan_base.specs.Value.{value_of};
ghost use Rattle.arrays.specs.Column.{slot_of};
ghost use Rattle.arrays.specs.declared.layout.Layout.TheVariants as layout;
ghost use Rattle.coded_keys.specs.Codes.{code_of, layout_code};

use arrays::{Cells, Column, Indices, Layout};
use scan_base::ValueRef;
use std::hash::{DefaultHasher, Hash, Hasher};

/// The code of a cell: the index of its text in the column's dictionary, or the value itself. It
/// takes no memory.
pub(crate) fn code_at(column: &Column, row: usize) -> ValueRef<'_>
    requires { row < column.now.len }
    ensures { value_of result ≡ code_of column.now row }
{
    let _count = column.len();
    match column.layout() {
        Layout::Indices(cells) => index_at(&cells, column.first() + row),
        _ => column.value_at(row),
    }
}

// The index of a slot, or null where it is not valid.
fn index_at<'a>(cells: &Indices<'a>, slot: usize) -> ValueRef<'a>
    requires { slot < cells.now.len }
    ensures { value_of result ≡ layout_code (layout.Indices cells.now) slot }
{
    let _count = cells.len();
    if cells.validity().is_valid(slot) {
        ValueRef::Int(cells.index_at(slot))
    } else {
        ValueRef::Null
    }
}

/// Whether two rows of a column have the same code. Then they have the same value.
pub(crate) fn have_one_code(column: &Column, row: usize, other: usize) -> bool
    requires row { row < column.now.len }
    requires other { other < column.now.len }
    ensures { result ≡ true → slot_of column.now row ≡ slot_of column.now other }
{
    are_one(code_at(column, row), code_at(column, other))
}

// Whether two codes are the same, where two nulls are.
fn are_one(code: ValueRef<'_>, other: ValueRef<'_>) -> bool
    ensures { result ≡ true → value_of code.entry ≡ value_of other.entry }
{
    match (code, other) {
        (ValueRef::Null, ValueRef::Null) => true,
        (ValueRef::Bool(flag), ValueRef::Bool(other)) => flag == other,
        (ValueRef::Int(number), ValueRef::Int(other)) => number == other,
        (ValueRef::Text(text), ValueRef::Text(other)) => text == other,
        _ => false,
    }
}

/// Takes a code into a hash: first a byte that tells its kind, so that no code takes as another
/// kind's does.
pub(crate) fn take_code(hasher: &mut DefaultHasher, code: ValueRef<'_>) {
    match code {
        ValueRef::Null => hasher.write_u8(0),
        ValueRef::Bool(flag) => {
            hasher.write_u8(1);
            flag.hash(hasher);
        }
        ValueRef::Int(number) => {
            hasher.write_u8(2);
            number.hash(hasher);
        }
        ValueRef::Text(text) => {
            hasher.write_u8(3);
            text.hash(hasher);
        }
    }
}
