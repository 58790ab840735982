//! Messages of a stream, ready to be sent.

ghost use Rattle.std.specs.Prelude.{◌≡◌, ◌↔◌, ◌≤◌, ◌<◌, ◌^◌, ◌+◌, length, map, IfNone, IfOk};
ghost use Rattle.std.specs.Prelude.{IfSome, IsSome, MatchOption};
ghost use Rattle.arrow_types.specs.Schema.{IsSchema};
ghost use Rattle.scan_base.specs.Limits.{most_columns, most_values};
ghost use Rattle.arrays.specs.TypedLayouts.{AreOfTypes};
ghost use Rattle.ipc_batch.specs.MessageView.{written_seen};
ghost use Rattle.ipc_batch.specs.WrittenMessages.{body_length, SaysBatch};
ghost use Rattle.dictionary_answers.specs.Lengths.{bodies_length, dressed_length};
ghost use Rattle.ipc_stream.specs.Stream.{IsMessage};
ghost use Rattle.row_stream.specs.Stream.{sent_in};
ghost use Rattle.row_stream.specs.inside.Cuts.{AreBehind, HasBodyWithin, SayBatch};
ghost use Rattle.row_stream.specs.inside.Frames.{as_message, SaysSchema};

use crate::dresser::Dresser;
use arrays::Batch;
use arrow_schema::write_schema;
use arrow_types::Schema;
use bytes::Bytes;
use dictionary_answers::{DressedBatch, dress};
use ipc_batch::{SizedBatch, WrittenMessage};
use std::alloc::{AllocError, Global};
use std::marker::Model;

/// A message of a stream: its header, and the buffers of its body, of which no copy is made. A
/// contract sees the message.
#[derive(Drop)]
pub(crate) struct StreamMessage {
    pub header: Vec<u8>,
    pub buffers: Vec<Bytes>,
}

impl Model for StreamMessage {
    ghost use Rattle.ipc_batch.specs.WrittenMessages.{body_of};
    ghost use Rattle.ipc_stream.specs.declared.message.IpcMessage.{IpcMessage};

    ghost Value = { IpcMessage };

    ghost view = { λ ready.
        record { header = ready.header.items; body = body_of ready.buffers.items } };
}

/// The messages of a batch: its dictionaries, and after them its rows. A contract sees the
/// messages.
#[derive(Drop)]
pub(crate) struct Parcel {
    pub dictionaries: Vec<WrittenMessage>,
    pub rows: StreamMessage,
}

impl Model for Parcel {
    ghost use Rattle.std.specs.Prelude.{List, [], ◌∷◌, ◌++◌, map};
    ghost use Rattle.ipc_stream.specs.declared.message.IpcMessage.{IpcMessage};
    ghost use Rattle.row_stream.specs.inside.Frames.{as_message};

    ghost Value = { List IpcMessage };

    ghost view = { λ parcel. map as_message parcel.dictionaries.items ++ parcel.rows ∷ [] };
}

/// The message of a schema.
pub(crate) fn schema_message(alloc: Global, schema: &Schema) -> Result<StreamMessage, AllocError>
    requires { IsSchema schema.now }
    ensures fits { IfOk result IsMessage }
    ensures says { IfOk result (λ message. SaysSchema schema.now (sent_in message)) }
{
    Ok(StreamMessage {
        header: write_schema(alloc, schema)?,
        buffers: Vec::new(alloc),
    })
}

// The message of a batch, or nothing where its body would have more bytes than there is room for.
fn rows_message(
    alloc: Global,
    batch: &Batch,
    room: usize,
) -> Result<Option<StreamMessage>, AllocError>
    requires few { length batch.now.columns ≤ most_columns }
    requires room { room < 2 ^ 31 }
    ensures found { IfOk result (λ found. IsSome found ↔ (body_length batch.now ≤ room)) }
    ensures fits { IfOk result (λ found. IfSome found IsMessage) }
    ensures says { IfOk result
        (λ found. IfSome found (λ message. SaysBatch (sent_in message) batch.now)) }
    ensures short { IfOk result (λ found. IfSome found (λ message. length message.body ≤ room)) }
{
    match SizedBatch::new(alloc, batch)? {
        Some(sized) if sized.body_length() <= room => Ok(Some(StreamMessage {
            header: sized.write_header(alloc)?,
            buffers: sized.buffers(alloc)?,
        })),
        _ => Ok(None),
    }
}

// How many bytes a body may have next to those of these messages, where all together have room for
// so many: `None` where they have more.
fn room_beside(messages: &[WrittenMessage], room: usize) -> Option<usize>
    ensures { MatchOption result (room < bodies_length (map written_seen messages.now))
        (λ left. bodies_length (map written_seen messages.now) + left ≡ room) }
{
    let mut left = room;
    for message in messages {
        let len = message.body.len();
        if len > left {
            return None;
        }
        left -= len;
    }
    Some(left)
}

// The messages of a batch and of its dictionaries, or nothing where their bodies would have more
// bytes than there is room for.
fn dressed_parcel(
    alloc: Global,
    dressed: DressedBatch,
    room: usize,
) -> Result<Option<Parcel>, AllocError>
    requires few { length dressed.batch.columns ≤ most_columns }
    requires room { room < 2 ^ 31 }
    ensures behind { IfOk result (λ found. IfSome found
        (AreBehind (map as_message dressed.dictionaries.items) dressed.batch room)) }
    ensures full { IfOk result (λ found. IfNone found
        (room < bodies_length (map written_seen dressed.dictionaries.items)
        + body_length dressed.batch)) }
{
    let DressedBatch {
        dictionaries,
        batch,
    } = dressed;
    let Some(left) = room_beside(dictionaries.as_slice(), room) else {
        return Ok(None);
    };
    match rows_message(alloc, &batch, left)? {
        Some(rows) => Ok(Some(Parcel { dictionaries, rows })),
        None => Ok(None),
    }
}

/// The messages of a batch: one for each column that is a dictionary, of the texts that the batch
/// holds, and after them that of its rows. Nothing where their bodies together would have more
/// bytes than there is room for.
pub(crate) fn batch_parcel(
    dresser: &Dresser,
    batch: &Batch,
    room: usize,
) -> Result<Option<Parcel>, AllocError>
    requires rows { batch.now.rows ≤ most_values }
    requires room { room < 2 ^ 31 }
    requires typed { AreOfTypes dresser.now.fields batch.now.columns }
    ensures says { IfOk result
        (λ found. IfSome found (SayBatch (HasBodyWithin room) dresser.now batch.now)) }
    ensures full { IfOk result
        (λ found. IfNone found (room < dressed_length dresser.now.fields batch.now.columns)) }
{
    match dress(dresser.alloc, dresser.seed, &dresser.schema, batch, room)? {
        Some(dressed) => dressed_parcel(dresser.alloc, dressed, room),
        None => Ok(None),
    }
}
