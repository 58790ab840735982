//! Columns that are built of values of a type.

ghost use Rattle.std.specs.Prelude.{◌≡◌, ◌<◌, ◌^◌, All, IfOk, length, map};
ghost use Rattle.scan_base.specs.declared.value.Value.{Value};
ghost use Rattle.scan_base.specs.Value.{value_of};
ghost use Rattle.arrow_types.specs.declared.data_type.DataType.{DataType};
ghost use Rattle.arrow_types.specs.Answer.{copied_type};
ghost use Rattle.arrays.specs.Column.{values_of};
ghost use Rattle.arrays.specs.TypedLayouts.{IsOfType, IsValueOf};
ghost use Rattle.arrays.specs.WrittenSlots.{texts_joined};

use crate::slot_filling::fill_column;
use crate::source::Source;
use arrays::Column;
use arrow_types::DataType;
use scan_base::ValueRef;
use std::alloc::{AllocError, Global};

impl<'a> Source for ValueRef<'a> {
    ghost held = { value_of };

    ghost IsThere = { λ _. Unit {0} };

    ghost IsOf = { λ data_type value. IsValueOf data_type (value_of value) };

    fn value(&self) -> ValueRef<'_> {
        *self
    }
}

/// A column of these values, of a type; of the texts of a dictionary one of texts. All texts
/// together have fewer bytes than an offset can name.
///
/// # Errors
///
/// `AllocError` where memory is refused.
pub fn column_of_values(
    alloc: Global,
    data_type: DataType,
    values: &[ValueRef<'_>],
) -> Result<Column, AllocError>
    requires typed { All (λ value. IsValueOf data_type (value_of value)) values.now }
    requires short { length (texts_joined (map value_of values.now)) < 2 ^ 31 }
    ensures values { IfOk result (λ column. values_of column ≡ map value_of values.now) }
    ensures typed { IfOk result (λ column. IsOfType (copied_type data_type) column.layout) }
    ensures long { IfOk result (λ column. column.len ≡ length values.now) }
{
    fill_column(alloc, data_type, values)
}
