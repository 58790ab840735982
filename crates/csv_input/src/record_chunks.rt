//! Taking the records of a batch.

ghost use Rattle.std.specs.Prelude.{◌≡◌, ◌≤◌, ◌<◌, false, IfOk};
ghost use Rattle.csv_input.specs.Rows.{AreRight};
ghost use Rattle.csv_input.specs.inside.Batches.{HasTaken};

use crate::chunk::Chunk;
use array_select::MOST_BATCH_ROWS;
use arrays::cell_width;
use arrow_types::{DataType, Field};
use csv::ByteRecord;
use csv_columns::Records;
use std::alloc::{AllocError, Global};

// As many bytes as a batch may have before it ends.
const MOST_BATCH_BYTES: usize = 8_388_608;

// How many bytes of a value stand next to its text.
fn fixed_bytes(column: &Field) -> usize
    ensures { result ≤ 17 }
{
    match column.data_type {
        DataType::Number(kind) => 1 + cell_width(kind.cell()),
        DataType::Bool => 1,
        DataType::Utf8 | DataType::Dictionary(_) => 5,
    }
}

// Whether a batch has as many records, or as many bytes, as it may have.
fn is_full(chunk: &Chunk, columns: &[Field]) -> bool
    ensures { result ≡ false → chunk.now.rows < MOST_BATCH_ROWS }
{
    let mut width: usize = 0;
    for column in columns {
        width = width.saturating_add(fixed_bytes(column));
    }
    chunk.rows() >= MOST_BATCH_ROWS
        || chunk
            .bytes()
            .saturating_add(width.saturating_mul(chunk.rows()))
            >= MOST_BATCH_BYTES
}

/// Takes the records of the next batch: up to 65,536, or up to the one that brings it to about 8
/// MB, or all that are left.
pub(crate) fn next_chunk(
    alloc: Global,
    columns: &[Field],
    records: &mut Records<'_>,
) -> Result<Chunk, AllocError>
    requires { AreRight columns.now records.old }
    ensures taken { IfOk result (λ chunk. HasTaken columns.now chunk records.old records.new) }
    ensures right { AreRight columns.now records.new }
{
    let mut chunk = Chunk::new(alloc, columns.len());
    let mut fields = ByteRecord::new(alloc);
    while records.next(&mut fields)? {
        chunk.push(&fields)?;
        if is_full(&chunk, columns) {
            return Ok(chunk);
        }
    }
    // A reader does not say what it has left after the last record, so that this one takes its
    // place.
    *records = Records::new(alloc, &[]);
    Ok(chunk)
}
