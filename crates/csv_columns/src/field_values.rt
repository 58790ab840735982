//! What a field says as a value of a type.

ghost use Rattle.std.specs.Prelude.{◌≡◌, IfSome, Some, option_map, true};
ghost use Rattle.std.specs.Str.{is_utf8};
ghost use Rattle.scan_base.specs.declared.value.Value.TheVariants as value;
ghost use Rattle.scan_base.specs.Value.{value_of};
ghost use Rattle.arrow_types.specs.declared.data_type.DataType.TheVariants as type;
ghost use Rattle.arrays.specs.TypedLayouts.{IsValueOf};
ghost use Rattle.csv_columns.specs.FieldValues.{said_as, value_in};

use arrow_types::{DataType, NumberType};
use number_words::read;
use scan_base::{Fault, ValueRef, read_text};

/// The value that a field says in a column of a type, if it says one. It takes no memory.
pub fn value_in<'a>(data_type: DataType, field: &'a [u8]) -> Option<ValueRef<'a>>
    ensures value { option_map value_of result ≡ value_in data_type field.now }
    ensures typed { IfSome result (λ value. IsValueOf data_type (value_of value)) }
{
    match read_text(field, Fault::BadBatch) {
        Ok(text) => said_as(data_type, text),
        Err(_) => None,
    }
}

// The value that a text says.
fn said_as<'a>(data_type: DataType, text: &'a str) -> Option<ValueRef<'a>>
    ensures value { option_map value_of result ≡ said_as data_type text.now }
    ensures typed { IfSome result (λ value. IsValueOf data_type (value_of value)) }
{
    match data_type {
        DataType::Number(kind) => number_said(kind, text),
        DataType::Bool => flag_said(text),
        DataType::Utf8 => text_said(text),
        DataType::Dictionary(_) => text_said(text),
    }
}

// A text, as it stands.
fn text_said<'a>(text: &'a str) -> Option<ValueRef<'a>>
    ensures value { option_map value_of result ≡ Some (value.Text text.now) }
    ensures utf8 { is_utf8 text.now ≡ true }
    ensures typed { IfSome result (λ said. IsValueOf type.Utf8 (value_of said)) }
{
    let _bytes = text.as_bytes();
    Some(ValueRef::Text(text))
}

fn number_said<'a>(kind: NumberType, text: &str) -> Option<ValueRef<'a>>
    ensures value { option_map value_of result ≡ said_as (type.Number kind) text.now }
    ensures typed { IfSome result (λ value. IsValueOf (type.Number kind) (value_of value)) }
{
    match read(kind, text) {
        Some(number) => Some(ValueRef::Int(number)),
        None => None,
    }
}

fn flag_said<'a>(text: &str) -> Option<ValueRef<'a>>
    ensures value { option_map value_of result ≡ said_as type.Bool text.now }
    ensures typed { IfSome result (λ value. IsValueOf type.Bool (value_of value)) }
{
    if text == "true" || text == "True" {
        Some(ValueRef::Bool(true))
    } else if text == "false" || text == "False" {
        Some(ValueRef::Bool(false))
    } else {
        None
    }
}
