//! The messages of a schema and of a batch.

ghost use Rattle.std.specs.Prelude.{◌≡◌, ◌⊎◌, ◌≤◌, ◌^◌, ◌∷◌, [], IfErr, IfOk, length};
ghost use Rattle.scan_base.specs.Limits.{most_columns};
ghost use Rattle.scan_base.specs.declared.fault.Fault.TheVariants.{LimitReached, OutOfMemory};
ghost use Rattle.arrow_types.specs.Schema.{IsSchema};
ghost use Rattle.ipc_batch.specs.WrittenMessages.{SaysBatch, body_length};
ghost use Rattle.csv_input.specs.Rows.{SaysRecords, sent_in};

use arrays::Batch;
use arrow_schema::write_schema;
use arrow_types::Schema;
use bytes::Bytes;
use ipc_batch::write_batch;
use ipc_stream::IpcMessage;
use scan_base::Fault;
use std::alloc::{AllocError, Global};

/// The message of a schema, which is the first of a stream.
pub fn schema_message(alloc: Global, schema: &Schema) -> Result<IpcMessage, AllocError>
    requires { IsSchema schema.now }
    ensures { IfOk result (λ message. SaysRecords schema.now [] (message ∷ [])) }
{
    let header = Bytes::from_vec(write_schema(alloc, schema)?)?;
    let body = Bytes::from_vec(Vec::new(alloc))?;
    Ok(IpcMessage { header, body })
}

/// The message of a batch.
///
/// # Errors
///
/// `Fault::OutOfMemory` where memory is refused, and `Fault::LimitReached` where the body would
/// have 2 to the 31 bytes or more.
pub(crate) fn batch_message(alloc: Global, batch: &Batch) -> Result<IpcMessage, Fault>
    requires { length batch.now.columns ≤ most_columns }
    ensures says { IfOk result (λ message. SaysBatch (sent_in message) batch.now) }
    ensures refused { IfErr result (λ fault. (fault ≡ OutOfMemory)
        ⊎ ((fault ≡ LimitReached) × (2 ^ 31 ≤ body_length batch.now))) }
{
    let Some(written) = write_batch(alloc, batch)? else {
        return Err(Fault::LimitReached);
    };
    let header = Bytes::from_vec(written.header)?;
    let body = Bytes::from_vec(written.body)?;
    Ok(IpcMessage { header, body })
}
