//! Columns of the slots of others.

ghost use Rattle.std.specs.Prelude.{◌≡◌, ◌<◌, ◌^◌, All, IfOk, length, map, nat_le};
ghost use Rattle.arrow_types.specs.Answer.{copied_type};
ghost use Rattle.arrays.specs.Column.{values_of};
ghost use Rattle.array_select.specs.OfSlots.{slot_value, IsSlotOf};
ghost use Rattle.arrays.specs.TypedLayouts.{IsOfType};
ghost use Rattle.arrays.specs.WrittenSlots.{texts_joined};

use crate::slot_filling::fill_column;
use arrays::Column;
use arrow_types::DataType;
use std::alloc::{AllocError, Global};

/// A slot of a column, by its place, counted from 0.
#[derive(Clone, Copy, Drop)]
pub struct SlotRef<'a> {
    pub column: &'a Column,
    pub place: u32,
}

/// These slots, in order, as a column of its own buffers: a slot may stand in any column of the
/// type, and more than once. Of dictionaries of texts it is a column of the texts.
///
/// # Errors
///
/// `AllocError` where memory is refused.
pub fn column_of_slots(
    alloc: Global,
    data_type: DataType,
    slots: &[SlotRef<'_>],
) -> Result<Column, AllocError>
    requires there { All (IsSlotOf data_type) slots.now }
    requires short { length (texts_joined (map slot_value slots.now)) < 2 ^ 31 }
    ensures values { IfOk result (λ column. values_of column ≡ map slot_value slots.now) }
    ensures long { IfOk result (λ column. column.len ≡ length slots.now) }
    ensures typed { IfOk result (λ column. IsOfType (copied_type data_type) column.layout) }
{
    fill_column(alloc, data_type, slots)
}

/// Whether the texts of these slots have no more than `most` bytes, one after another.
pub fn texts_fit(slots: &[SlotRef<'_>], most: usize) -> bool
    requires { All (λ slot. slot.place < slot.column.now.len) slots.now }
    ensures { result ≡ nat_le (length (texts_joined (map slot_value slots.now))) most }
{
    let mut left = most;
    for slot in slots {
        let bytes = slot.column.text_at(slot.place as usize).len();
        if bytes > left {
            return false;
        }
        left -= bytes;
    }
    true
}
