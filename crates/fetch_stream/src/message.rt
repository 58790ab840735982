//! The messages of an answer: its schema, and batches after their dictionaries.

ghost use Rattle.std.specs.Prelude.{◌≡◌, ◌≤◌, ◌<◌, ◌+◌, ◌++◌, ◌∷◌, [], All, length, map, None};
ghost use Rattle.std.specs.Prelude.{IfOk, IfSome, MatchOption};
ghost use Rattle.std.specs.List.{AllZip};
ghost use Rattle.scan_base.specs.Limits.{most_columns, most_message_bytes, most_values};
ghost use Rattle.arrow_types.specs.Schema.{IsSchema};
ghost use Rattle.arrays.specs.Batch.{rows_of};
ghost use Rattle.flight_info.specs.Payloads.{FitMessages};
ghost use Rattle.ipc_batch.specs.MessageView.{written_seen};
ghost use Rattle.ipc_batch.specs.WrittenMessages.{body_length, most_header_bytes};
ghost use Rattle.dictionary_answers.specs.Lengths.{bodies_length, dressed_length};
ghost use Rattle.fetch_stream.specs.Morsels.{GivesSchema};
ghost use Rattle.fetch_stream.specs.Streams.{most_body_bytes};
ghost use Rattle.fetch_stream.specs.inside.RowsAhead.{AnsweredAs};
ghost use Rattle.fetch_stream.specs.inside.WrittenPayloads.{Carries, CarryDressed, IsShort};
ghost use Rattle.fetch_stream.specs.inside.WrittenPayloads.{SaysRows};
ghost use Rattle.fetch_stream.specs.inside.WrittenPayloads.{SaysSchema, SaysWritten};

use crate::parcel::Parcel;
use crate::payload::{Payload, body_parts};
use arrays::Batch;
use arrow_schema::write_schema;
use arrow_types::Schema;
use bytes::Bytes;
use dictionary_answers::{DressedBatch, dress};
use flight_proto::{put_flight_data, put_flight_data_head};
use ipc_batch::{SizedBatch, WrittenMessage};
use scan_base::{Fault, HashSeed};
use std::alloc::{AllocError, Global};

// The most bytes of the bodies of a batch and of its dictionaries. Those of one row have fewer: at
// most 64 texts of at most 65,536 bytes.
const MOST_BODY_BYTES: usize = 8_388_608;

/// Whence memory is taken, and what the hashes of texts begin with.
#[derive(Clone, Copy)]
pub(crate) struct WriteContext {
    pub(crate) alloc: Global,
    pub(crate) seed: HashSeed,
}

/// The payload of a schema.
pub(crate) fn schema_payload(alloc: Global, schema: &Schema) -> Result<Payload, AllocError>
    requires { IsSchema schema.now }
    ensures said { IfOk result (λ payload. SaysSchema payload schema.now) }
    ensures fits { IfOk result (λ payload. length payload ≤ most_message_bytes) }
{
    let header = write_schema(alloc, schema)?;
    let mut head = Vec::with_capacity(alloc, header.len().saturating_add(16))?;
    put_flight_data(&mut head, None, &header, &[])?;
    let len = head.len();
    Ok(Payload::new(head, Vec::new(alloc), len))
}

/// The payload of a schema, as the first of a stream.
pub(crate) fn said_schema(alloc: Global, schema: &Schema) -> Result<Payload, Fault>
    requires { IsSchema schema.now }
    ensures { GivesSchema schema.now result }
{
    Ok(schema_payload(alloc, schema)?)
}

// The payload of a batch: its header, and the buffers of its body.
fn batch_payload(alloc: Global, batch: &SizedBatch<'_>) -> Result<Payload, AllocError>
    requires few { length batch.now.columns ≤ most_columns }
    requires short { body_length batch.now ≤ most_body_bytes }
    ensures said { IfOk result (λ payload. SaysWritten payload batch.now) }
    ensures fits { IfOk result (λ payload. length payload ≤ most_message_bytes) }
{
    let header = batch.write_header(alloc)?;
    let mut head = Vec::with_capacity(alloc, header.len().saturating_add(32))?;
    let body_length = batch.body_length();
    put_flight_data_head(&mut head, &header, body_length as u64)?;
    let parts = body_parts(alloc, batch.buffers(alloc)?)?;
    let len = head.len() + body_length;
    Ok(Payload::new(head, parts, len))
}

// The payload of a message that is written. Its body is not copied.
fn message_payload(alloc: Global, message: WrittenMessage) -> Result<Payload, AllocError>
    requires short { IsShort (written_seen message) }
    ensures carries { IfOk result (λ payload. Carries payload (written_seen message)) }
    ensures fits { IfOk result (λ payload. length payload ≤ most_message_bytes) }
{
    let WrittenMessage { header, body } = message;
    let mut head = Vec::with_capacity(alloc, header.len().saturating_add(32))?;
    put_flight_data_head(&mut head, &header, body.len() as u64)?;
    let len = head.len() + body.len();
    let mut parts = Vec::with_capacity(alloc, 1)?;
    parts.push(Bytes::from_vec(body)?)?;
    Ok(Payload::new(head, parts, len))
}

// The payloads of messages that are written.
fn message_payloads(
    alloc: Global,
    messages: Vec<WrittenMessage>,
) -> Result<Vec<Payload>, AllocError>
    requires short { All IsShort (map written_seen messages.items) }
    ensures carry { IfOk result
        (λ payloads. AllZip Carries payloads.items (map written_seen messages.items)) }
    ensures fits { IfOk result (λ payloads. FitMessages payloads.items) }
{
    let mut payloads = Vec::with_capacity(alloc, messages.len().saturating_add(1))?;
    for message in messages {
        payloads.push(message_payload(alloc, message)?)?;
    }
    Ok(payloads)
}

// How many bytes a body may have next to those of these messages: `None` where they have too many.
fn room_beside(messages: &[WrittenMessage]) -> Option<usize>
    ensures { MatchOption result (most_body_bytes < bodies_length (map written_seen messages.now))
        (λ room. bodies_length (map written_seen messages.now) + room ≡ most_body_bytes) }
{
    let mut room = MOST_BODY_BYTES;
    for message in messages {
        let len = message.body.len();
        if len > room {
            return None;
        }
        room -= len;
    }
    Some(room)
}

// The payloads of a batch and of its dictionaries, which come before it, or nothing where their
// bodies would have too many bytes.
fn dressed_parcel(alloc: Global, dressed: DressedBatch) -> Result<Option<Parcel>, AllocError>
    requires few { length dressed.batch.columns ≤ most_columns }
    requires short { All (λ sent. length sent.header ≤ most_header_bytes)
        (map written_seen dressed.dictionaries.items) }
    ensures carry { IfOk result (λ found. IfSome found (λ parcel. CarryDressed parcel
        (map written_seen dressed.dictionaries.items) dressed.batch)) }
    ensures fits { IfOk result (λ found. IfSome found FitMessages) }
    ensures long { IfOk result (λ found. found ≡ None →
        most_body_bytes
        < bodies_length (map written_seen dressed.dictionaries.items) + body_length dressed.batch) }
{
    let DressedBatch {
        dictionaries,
        batch,
    } = dressed;
    let Some(room) = room_beside(dictionaries.as_slice()) else {
        return Ok(None);
    };
    match SizedBatch::new(alloc, &batch)? {
        Some(sized) if sized.body_length() <= room => {
            let last = batch_payload(alloc, &sized)?;
            let mut payloads = message_payloads(alloc, dictionaries)?;
            payloads.push(last)?;
            Ok(Some(Parcel::new(payloads)))
        }
        _ => Ok(None),
    }
}

/// The payloads of a batch: one for each column that is answered as a dictionary, of the texts that
/// the batch holds, and after them that of its rows. Nothing where their bodies would have too many
/// bytes.
pub(crate) fn batch_parcel(
    writing: WriteContext,
    schema: &Schema,
    batch: &Batch,
) -> Result<Option<Parcel>, AllocError>
    requires few { length batch.now.columns ≤ most_columns }
    requires rows { batch.now.rows ≤ most_values }
    requires answered { AnsweredAs schema.now batch.now.columns }
    ensures said { IfOk result
        (λ found. IfSome found (λ parcel. SaysRows parcel schema.now (rows_of batch.now))) }
    ensures fits { IfOk result (λ found. IfSome found FitMessages) }
    ensures long { IfOk result (λ found. found ≡ None →
        most_body_bytes < dressed_length schema.now.fields batch.now.columns) }
{
    let WriteContext { alloc, seed } = writing;
    match dress(alloc, seed, schema, batch, MOST_BODY_BYTES)? {
        Some(dressed) => dressed_parcel(alloc, dressed),
        None => Ok(None),
    }
}
