//! What a field says in a column.

ghost use Rattle.std.specs.Prelude.{◌≡◌, IfSome, option_map};
ghost use Rattle.scan_base.specs.Value.{value_of};
ghost use Rattle.arrays.specs.TypedLayouts.{IsValueOf};
ghost use Rattle.csv_columns.specs.FieldValues.{cell_in};

use crate::field_values::value_in;
use arrow_types::Field;
use scan_base::ValueRef;

/// The value that a field says in a column, if it says one. A field without a byte is a null where
/// the column may have nulls. It takes no memory.
pub fn cell_in<'a>(column: &Field, field: &'a [u8]) -> Option<ValueRef<'a>>
    ensures value { option_map value_of result ≡ cell_in column.now field.now }
    ensures typed { IfSome result (λ value. IsValueOf (column.now).data_type (value_of value)) }
{
    if field.is_empty() && column.nullable {
        return Some(ValueRef::Null);
    }
    value_in(column.data_type, field)
}
