//! Sending the messages of a stream through an outbox.

ghost use Rattle.std.specs.Prelude.{◌≡◌, ◌≤◌, ◌<◌, ◌^◌, [], ◌∷◌, ◌++◌, All, length, MatchResult};
ghost use Rattle.std.specs.List.{flat_map};
ghost use Rattle.flatbuf.specs.Block.{padded};
ghost use Rattle.arrays.specs.TypedLayouts.{AreOfTypes};
ghost use Rattle.ipc_batch.specs.WrittenMessages.{body_of};
ghost use Rattle.ipc_stream.specs.Stream.{announced, frame, IsMessage};
ghost use Rattle.grpc_frame.specs.Ends.{CanFail, CountsFailure, FailsByTransport, Writes};
ghost use Rattle.grpc_frame.specs.Sending.{Sends};
ghost use Rattle.row_stream.specs.Stream.{CountsWrites, IsCause, WritesCounted, unfinished};
ghost use Rattle.row_stream.specs.Writing.{SendsBatch};
ghost use Rattle.row_stream.specs.inside.Frames.{written_frame};

use crate::batch_cuts::some_cut;
use crate::dresser::Dresser;
use crate::message::{Parcel, StreamMessage};
use array_select::MOST_BATCH_ROWS;
use arrays::Batch;
use bytes::Bytes;
use grpc_frame::{Outbox, Output};
use ipc_batch::WrittenMessage;
use scan_base::Fault;

// A header of eight bytes is announced, and four of them come.
const UNFINISHED: [u8; 12] = [0xff, 0xff, 0xff, 0xff, 8, 0, 0, 0, 0, 0, 0, 0];

// Sends what stands in front of a header of so many bytes.
fn send_announcement<W: Output>(writer: &mut W, outbox: &mut Outbox, len: u32) -> Result<(), Fault>
    requires { CanFail (W.failures writer.old) }
    ensures bytes { Sends result (W.contents writer.old) (W.contents writer.new)
        outbox.old outbox.new (announced len []) }
    ensures counted { CountsFailure result (W.failures writer.old) (W.failures writer.new) }
    ensures fault { FailsByTransport result }
{
    outbox.send_parts(writer, &[0xff; 4], &len.to_le_bytes())
}

// Sends a buffer, and zeros after it up to a multiple of 8.
fn send_buffer<W: Output>(writer: &mut W, outbox: &mut Outbox, buffer: &Bytes) -> Result<(), Fault>
    requires { CanFail (W.failures writer.old) }
    ensures bytes { Sends result (W.contents writer.old) (W.contents writer.new)
        outbox.old outbox.new (padded buffer.now) }
    ensures counted { CountsFailure result (W.failures writer.old) (W.failures writer.new) }
    ensures fault { FailsByTransport result }
{
    let zeros = (8 - buffer.len() % 8) % 8;
    outbox.send_parts(writer, buffer.as_slice(), &[0; 8][..zeros])
}

// Sends the body that these buffers make.
fn send_body<W: Output>(writer: &mut W, outbox: &mut Outbox, buffers: &[Bytes]) -> Result<(), Fault>
    requires { CanFail (W.failures writer.old) }
    ensures bytes { Sends result (W.contents writer.old) (W.contents writer.new)
        outbox.old outbox.new (body_of buffers.now) }
    ensures counted { CountsFailure result (W.failures writer.old) (W.failures writer.new) }
    ensures fault { FailsByTransport result }
{
    for buffer in buffers {
        send_buffer(writer, outbox, buffer)?;
    }
    Ok(())
}

// Sends a message in its frame.
fn send_frame<W: Output>(
    writer: &mut W,
    outbox: &mut Outbox,
    message: &StreamMessage,
) -> Result<(), Fault>
    requires failures { CanFail (W.failures writer.old) }
    requires fits { length message.now.header < 2 ^ 31 }
    ensures bytes { Sends result (W.contents writer.old) (W.contents writer.new)
        outbox.old outbox.new (frame message.now) }
    ensures counted { CountsFailure result (W.failures writer.old) (W.failures writer.new) }
    ensures fault { FailsByTransport result }
{
    send_announcement(writer, outbox, message.header.len() as u32)?;
    outbox.send_part(writer, &message.header)?;
    send_body(writer, outbox, &message.buffers)
}

// Sends the message of a dictionary in its frame.
fn send_written<W: Output>(
    writer: &mut W,
    outbox: &mut Outbox,
    message: &WrittenMessage,
) -> Result<(), Fault>
    requires failures { CanFail (W.failures writer.old) }
    requires fits { length message.now.header.items < 2 ^ 31 }
    ensures bytes { Sends result (W.contents writer.old) (W.contents writer.new)
        outbox.old outbox.new (written_frame message.now) }
    ensures counted { CountsFailure result (W.failures writer.old) (W.failures writer.new) }
    ensures fault { FailsByTransport result }
{
    send_announcement(writer, outbox, message.header.len() as u32)?;
    outbox.send_part(writer, &message.header)?;
    outbox.send_part(writer, &message.body)
}

// Sends the messages of dictionaries.
fn send_dictionaries<W: Output>(
    writer: &mut W,
    outbox: &mut Outbox,
    dictionaries: &[WrittenMessage],
) -> Result<(), Fault>
    requires failures { CanFail (W.failures writer.old) }
    requires fit { All (λ message. length message.header.items < 2 ^ 31) dictionaries.now }
    ensures bytes { Sends result (W.contents writer.old) (W.contents writer.new)
        outbox.old outbox.new (flat_map written_frame dictionaries.now) }
    ensures counted { CountsFailure result (W.failures writer.old) (W.failures writer.new) }
    ensures fault { FailsByTransport result }
{
    for dictionary in dictionaries {
        send_written(writer, outbox, dictionary)?;
    }
    Ok(())
}

// Sends the messages of a batch: its dictionaries, and then its rows.
fn send_parcel<W: Output>(writer: &mut W, outbox: &mut Outbox, parcel: &Parcel) -> Result<(), Fault>
    requires failures { CanFail (W.failures writer.old) }
    requires fit { All IsMessage parcel.now }
    ensures bytes { Sends result (W.contents writer.old) (W.contents writer.new)
        outbox.old outbox.new (flat_map frame parcel.now) }
    ensures counted { CountsFailure result (W.failures writer.old) (W.failures writer.new) }
    ensures fault { FailsByTransport result }
{
    send_dictionaries(writer, outbox, &parcel.dictionaries)?;
    send_frame(writer, outbox, &parcel.rows)
}

/// Writes what waits, and these bytes after it.
///
/// # Errors
///
/// `Fault::Transport` where a write failed. It is counted.
pub(crate) fn write_last<W: Output>(
    writer: &mut W,
    outbox: &mut Outbox,
    part: &[u8],
) -> Result<(), Fault>
    requires { CanFail (W.failures writer.old) }
    ensures bytes { Writes result (W.contents writer.old) (W.contents writer.new)
        (outbox.old ++ part.now) }
    ensures counted { CountsFailure result (W.failures writer.old) (W.failures writer.new) }
    ensures fault { FailsByTransport result }
{
    outbox.send_part(writer, part)?;
    outbox.flush(writer)
}

/// Breaks a stream off: writes what waits, and the start of a message that never ends. A write that
/// failed is counted.
pub(crate) fn break_off<W: Output>(writer: &mut W, outbox: &mut Outbox)
    requires { CanFail (W.failures writer.old) }
    ensures { WritesCounted (W.contents writer.old) (W.contents writer.new)
        (outbox.old ++ unfinished) (W.failures writer.old) (W.failures writer.new) }
{
    let _written = write_last(writer, outbox, &UNFINISHED);
}

/// Writes a message in its frame, after what waits.
///
/// # Errors
///
/// `Fault::Transport` where a write failed. It is counted.
pub(crate) fn write_frame<W: Output>(
    writer: &mut W,
    outbox: &mut Outbox,
    message: &StreamMessage,
) -> Result<(), Fault>
    requires failures { CanFail (W.failures writer.old) }
    requires fits { length message.now.header < 2 ^ 31 }
    ensures bytes { Writes result (W.contents writer.old) (W.contents writer.new)
        (outbox.old ++ frame message.now) }
    ensures empty { outbox.new ≡ [] }
    ensures counted { CountsFailure result (W.failures writer.old) (W.failures writer.new) }
    ensures fault { FailsByTransport result }
{
    send_frame(writer, outbox, message)?;
    outbox.flush(writer)
}

/// Sends the messages of a batch, cut by cut: each cut has as many of the next rows as it may,
/// after the dictionaries of their texts. Bodies that together have more than 8,388,608 bytes are
/// those of one row.
///
/// # Errors
///
/// `Fault::Transport` where a write failed. It is counted. At these the stream breaks off:
/// `Fault::OutOfMemory` where memory is refused, and `Fault::LimitReached` where the bodies of one
/// row would have 2 to the 31 bytes or more.
pub(crate) fn send_batch<W: Output>(
    dresser: &Dresser,
    writer: &mut W,
    outbox: &mut Outbox,
    batch: &Batch,
) -> Result<(), Fault>
    requires failures { CanFail (W.failures writer.old) }
    requires typed { AreOfTypes dresser.now.fields batch.now.columns }
    ensures bytes { SendsBatch result dresser.now batch.now (W.contents writer.old)
        (W.contents writer.new)
        outbox.old outbox.new (W.failures writer.old) (W.failures writer.new) }
    ensures counted { CountsWrites result (W.failures writer.old) (W.failures writer.new) }
    ensures cause { MatchResult result (λ _. Unit {0}) (IsCause dresser.now (batch.now ∷ [])) }
{
    let rows = batch.rows();
    let mut at = 0;
    let mut most = MOST_BATCH_ROWS;
    while at < rows {
        let cut = match some_cut(dresser, batch, at, most) {
            Ok(cut) => cut,
            Err(fault) => {
                break_off(writer, outbox);
                return Err(fault);
            }
        };
        send_parcel(writer, outbox, &cut.parcel)?;
        most = ((cut.end - at) * 2).min(MOST_BATCH_ROWS);
        at = cut.end;
    }
    Ok(())
}
