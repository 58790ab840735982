//! A batch of records.

ghost use Rattle.std.specs.Prelude.{◌≡◌, ◌<◌, None, All, IfErr, IfOk, MatchOption, length};
ghost use Rattle.arrow_types.specs.DataType.{encoding_of};
ghost use Rattle.arrays.specs.TypedLayouts.{AreOfTypes};
ghost use Rattle.csv_input.specs.inside.Cells.{AreColumnsIn, HasWrongColumn, WhyNoColumns};
ghost use Rattle.csv_input.specs.inside.Batches.{IsBatchOf};

use crate::cells::column_in;
use crate::chunk::Chunk;
use arrays::{Batch, Column};
use arrow_types::Field;
use scan_base::Fault;
use std::alloc::Global;

// The columns of the records, or none where a field says no value of its column.
fn columns_in(alloc: Global, chunk: &Chunk, columns: &[Field]) -> Result<Option<Vec<Column>>, Fault>
    requires wide { chunk.now.width ≡ length columns.now }
    requires plain { All (λ column. encoding_of column.data_type ≡ None) columns.now }
    ensures found { IfOk result (λ found. MatchOption found (HasWrongColumn chunk.now columns.now)
        (λ made. AreColumnsIn chunk.now columns.now made.items (length columns.now))) }
    ensures refused { IfErr result (WhyNoColumns chunk.now columns.now) }
{
    let mut made = Vec::with_capacity(alloc, columns.len())?;
    for (number, column) in columns.iter().enumerate() {
        let Some(next) = column_in(alloc, chunk, column, number)? else {
            return Ok(None);
        };
        made.push(next)?;
    }
    Ok(Some(made))
}

/// The batch of the records, or none where a field says no value of its column.
///
/// # Errors
///
/// `Fault::OutOfMemory` where memory is refused, and `Fault::LimitReached` where the texts of a
/// column have 2 to the 31 bytes or more.
pub(crate) fn batch_in(
    alloc: Global,
    chunk: &Chunk,
    columns: &[Field],
) -> Result<Option<Batch>, Fault>
    requires wide { chunk.now.width ≡ length columns.now }
    requires plain { All (λ column. encoding_of column.data_type ≡ None) columns.now }
    ensures found { IfOk result (λ found. MatchOption found (HasWrongColumn chunk.now columns.now)
        (λ batch. IsBatchOf chunk.now columns.now batch)) }
    ensures refused { IfErr result (WhyNoColumns chunk.now columns.now) }
{
    match columns_in(alloc, chunk, columns)? {
        Some(made) => Ok(Some(Batch::new(made, chunk.rows()))),
        None => Ok(None),
    }
}
