//! A column of the fields at one place of records.

ghost use Rattle.std.specs.Prelude.{◌≡◌, ◌≤◌, ◌<◌, ◌^◌, None, false, true, IfErr, IfOk};
ghost use Rattle.std.specs.Prelude.{MatchOption, length, map};
ghost use Rattle.scan_base.specs.Value.{value_of};
ghost use Rattle.arrow_types.specs.DataType.{encoding_of};
ghost use Rattle.arrays.specs.WrittenSlots.{text_bytes, texts_joined};
ghost use Rattle.csv_input.specs.inside.Cells.{AreCells, HasWrongCell, IsColumnIn, WhyNoColumn};

use crate::chunk::Chunk;
use array_select::{MOST_OFFSET, column_of_values};
use arrays::Column;
use arrow_types::Field;
use csv_columns::cell_in;
use scan_base::{Fault, ValueRef};
use std::alloc::{AllocError, Global};

/// A column of the fields at a place, or none where one says no value of the column.
///
/// # Errors
///
/// `Fault::OutOfMemory` where memory is refused, and `Fault::LimitReached` where the texts have 2
/// to the 31 bytes or more.
pub(crate) fn column_in(
    alloc: Global,
    chunk: &Chunk,
    column: &Field,
    number: usize,
) -> Result<Option<Column>, Fault>
    requires there { number < chunk.now.width }
    requires plain { encoding_of (column.now).data_type ≡ None }
    ensures found { IfOk result (λ found. MatchOption found
        (HasWrongCell chunk.now column.now number) (IsColumnIn chunk.now column.now number)) }
    ensures refused { IfErr result (WhyNoColumn chunk.now column.now number) }
{
    match cells_in(alloc, chunk, column, number)? {
        Some(cells) => {
            if !texts_fit(&cells) {
                return Err(Fault::LimitReached);
            }
            Ok(Some(column_of_values(alloc, column.data_type, &cells)?))
        }
        None => Ok(None),
    }
}

// The values that the fields at a place say, or none where one says no value of the column.
fn cells_in<'a>(
    alloc: Global,
    chunk: &'a Chunk,
    column: &Field,
    number: usize,
) -> Result<Option<Vec<ValueRef<'a>>>, AllocError>
    requires { number < chunk.now.width }
    ensures { IfOk result (λ found. MatchOption found (HasWrongCell chunk.now column.now number)
        (λ cells. AreCells chunk.now column.now number cells.items chunk.now.rows)) }
{
    let rows = chunk.rows();
    let mut cells = Vec::with_capacity(alloc, rows)?;
    for row in 0..rows {
        let Some(cell) = cell_in(column, chunk.field(row, number)) else {
            return Ok(None);
        };
        cells.push(cell)?;
    }
    Ok(Some(cells))
}

// Whether offsets can name each byte of the texts.
fn texts_fit(cells: &[ValueRef<'_>]) -> bool
    ensures fits { result ≡ true → length (texts_joined (map value_of cells.now)) < 2 ^ 31 }
    ensures long { result ≡ false → 2 ^ 31 ≤ length (texts_joined (map value_of cells.now)) }
{
    let mut left = MOST_OFFSET;
    for cell in cells {
        let bytes = text_bytes(*cell).len();
        if bytes > left {
            return false;
        }
        left -= bytes;
    }
    true
}

// The bytes of a text, and none where there is no text.
fn text_bytes<'a>(value: ValueRef<'a>) -> &'a [u8]
    ensures { result.now ≡ text_bytes (value_of value.entry) }
{
    match value {
        ValueRef::Text(text) => text.as_bytes(),
        _ => &[],
    }
}
