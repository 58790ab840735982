//! The rows of records that are right, message by message.

ghost use Rattle.std.specs.Prelude.{◌≡◌, None, All, IfErr, IfOk};
ghost use Rattle.arrow_types.specs.Schema.{IsSchema};
ghost use Rattle.arrow_types.specs.DataType.{encoding_of};
ghost use Rattle.csv_input.specs.Long.{WhyNoMessage};
ghost use Rattle.csv_input.specs.Rows.{AreRight, TakesMessage};
ghost use Rattle.csv_input.specs.inside.Batches.{TakesBatch};

use crate::batch::batch_in;
use crate::message::batch_message;
use crate::record_chunks::next_chunk;
use arrays::Batch;
use arrow_types::{Field, Schema};
use csv_columns::Records;
use ipc_stream::IpcMessage;
use scan_base::Fault;
use std::alloc::Global;

// The rows of the next records as a batch, or nothing where no record is left.
fn next_batch(
    alloc: Global,
    columns: &[Field],
    records: &mut Records<'_>,
) -> Result<Option<Batch>, Fault>
    requires plain { All (λ column. encoding_of column.data_type ≡ None) columns.now }
    requires right { AreRight columns.now records.old }
    ensures taken { IfOk result (λ found. TakesBatch columns.now found records.old records.new) }
    ensures refused { IfErr result (WhyNoMessage columns.now records.old records.new) }
    ensures right { AreRight columns.now records.new }
{
    let chunk = next_chunk(alloc, columns, records)?;
    if chunk.rows() == 0 {
        return Ok(None);
    }
    match batch_in(alloc, &chunk, columns)? {
        Some(batch) => Ok(Some(batch)),
        None => unreachable!(),
    }
}

/// Takes the next records, which are all right, and makes the message of their rows: of at most
/// 65,536 rows and about 8 MB. Nothing where no record is left.
///
/// # Errors
///
/// - `Fault::OutOfMemory` (F21) where memory is refused.
/// - `Fault::LimitReached` (F12) where they are too long: the texts of a column, or the body of the
///   message.
pub fn next_message(
    alloc: Global,
    schema: &Schema,
    records: &mut Records<'_>,
) -> Result<Option<IpcMessage>, Fault>
    requires schema { IsSchema schema.now }
    requires plain { All (λ column. encoding_of column.data_type ≡ None) schema.now.fields }
    requires right { AreRight schema.now.fields records.old }
    ensures taken { IfOk result (λ found. TakesMessage schema.now found records.old records.new) }
    ensures refused { IfErr result (WhyNoMessage (schema.now).fields records.old records.new) }
    ensures right { AreRight schema.now.fields records.new }
{
    match next_batch(alloc, schema.fields.as_slice(), records)? {
        Some(batch) => Ok(Some(batch_message(alloc, &batch)?)),
        None => Ok(None),
    }
}
