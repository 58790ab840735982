//! How many columns of a terminal texts and values take, and how wide the columns of a table are.

ghost use Rattle.std.specs.Prelude.{◌≡◌, ◌<◌, ◌≤◌, All, length, map, min};
ghost use Rattle.std.specs.List.{count_by, flat_map};
ghost use Rattle.scan_base.specs.Limits.{most_columns};
ghost use Rattle.scan_base.specs.Value.{value_of};
ghost use Rattle.arrays.specs.Batch.{rows_of};
ghost use Rattle.arrays.specs.Column.{values_of};
ghost use Rattle.row_text.specs.TableCells.{values_of_column, column_width, greatest, is_control};
ghost use Rattle.row_text.specs.TableCells.{is_escaped};
ghost use Rattle.row_text.specs.TableCells.{text_width, value_width, widths_from};

use crate::text::{is_control, is_escaped};
use crate::value::numbers_of;
use arrays::{Batch, Cells, Column};
use arrayvec::ArrayVec;
use arrow_types::{DataType, Field};
use number_words::NumberText;
use scan_base::ValueRef;
use unicode_width::UnicodeWidthStr;

/// No column is wider than this.
pub(crate) const MOST_WIDTH: usize = 40;

// How many bytes of a text are written as two.
fn escapes(text: &[u8]) -> usize
    ensures { result ≡ count_by is_escaped text.now }
{
    let mut count = 0;
    for byte in text {
        if is_escaped(*byte) {
            count += 1;
        }
    }
    count
}

// How many bytes of a text are other control bytes.
fn controls(text: &[u8]) -> usize
    ensures { result ≡ count_by is_control text.now }
{
    let mut count = 0;
    for byte in text {
        if is_control(*byte) {
            count += 1;
        }
    }
    count
}

/// How many columns a text takes, counted no further than matters.
pub(crate) fn text_width(text: &str) -> usize
    ensures { result ≡ text_width text.now }
{
    let bytes = text.as_bytes();
    text.width().min(MOST_WIDTH)
        + escapes(bytes).min(MOST_WIDTH)
        + 3 * controls(bytes).min(MOST_WIDTH)
}

/// How many columns a value takes.
pub(crate) fn value_width(data_type: DataType, value: ValueRef<'_>) -> usize
    ensures { result ≡ value_width data_type (value_of value.entry) }
{
    match value {
        ValueRef::Int(number) => NumberText::new().shown(numbers_of(data_type), number).len(),
        ValueRef::Text(text) => text_width(text),
        ValueRef::Null => 4,
        ValueRef::Bool(true) => 4,
        ValueRef::Bool(false) => 5,
    }
}

// The greatest of a width and of those of a column's values.
fn widest_of_column(data_type: DataType, column: &Column, start: usize) -> usize
    ensures { result ≡ greatest start (map (value_width data_type) (values_of column.now)) }
{
    let mut widest = start;
    for place in 0..column.len() {
        widest = widest.max(value_width(data_type, column.value_at(place)));
    }
    widest
}

// How wide the column of a number is.
fn column_width(field: &Field, number: usize, batches: &[Batch]) -> usize
    requires { All (λ batch. number < length batch.columns) batches.now }
    ensures { result
        ≡ column_width field.now (values_of_column (flat_map rows_of batches.now) number) }
{
    let mut widest = text_width(field.name.as_str());
    for batch in batches {
        let columns = batch.columns();
        widest = widest_of_column(field.data_type, &columns[number], widest);
    }
    widest.min(MOST_WIDTH)
}

/// How wide the columns are.
pub(crate) fn widths_of(fields: &[Field], batches: &[Batch]) -> ArrayVec<usize, 64>
    requires few { length fields.now ≤ most_columns }
    requires as_many { All (λ batch. length batch.columns ≡ length fields.now) batches.now }
    ensures { result.items ≡ widths_from fields.now 0 (flat_map rows_of batches.now) }
{
    let mut widths = ArrayVec::new();
    for (number, field) in fields.iter().enumerate() {
        widths.push(column_width(field, number, batches));
    }
    widths
}
