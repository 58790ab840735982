//! A whole stream.

ghost use Rattle.std.specs.Prelude.{◌≡◌, ◌+◌, ◌<◌, ◌^◌, MatchResult, IfOk, All, List, ℕ};
ghost use Rattle.scan_base.specs.declared.fault.Fault.TheVariants.{BadFlatbuffer};
ghost use Rattle.ipc_stream.specs.Stream.{Framed, IsCut, IsStream, Refuses};
ghost use Rattle.ipc_stream.specs.inside.Front.{IsIn, message_at};

use crate::frame::{Frame, HEADER_START, read_frame};
use crate::message::IpcMessage;
use bytes::Bytes;
use scan_base::Fault;
use std::alloc::{AllocError, Global};

// How many messages a stream has. It takes no memory.
fn count_messages(stream: &[u8]) -> Result<usize, Fault>
    ensures { MatchResult result (λ _. IsStream stream.now)
        (λ fault. (fault ≡ BadFlatbuffer) × (¬ IsStream stream.now)) }
{
    let mut left = stream;
    let mut count = 0;
    while let Some(frame) = read_frame(left)? {
        left = &left[frame.end..];
        count += 1;
    }
    Ok(count)
}

// The message that lies in the stream from a place on.
fn message_at(stream: &Bytes, at: usize, frame: Frame) -> Result<IpcMessage, AllocError>
    requires within { IsIn stream.now at frame }
    requires fits { at + frame.end < 2 ^ 64 }
    ensures { IfOk result (λ message. message ≡ message_at stream.now at frame) }
{
    let header_end = at + frame.header_end;
    Ok(IpcMessage {
        header: stream.slice(at + HEADER_START..header_end)?,
        body: stream.slice(header_end..at + frame.end)?,
    })
}

/// The messages of an Arrow IPC stream, in order, up to its end marker or its end. What follows the
/// end marker is not read. Headers and bodies are cuts of the stream: no byte is copied.
///
/// A message has the word `FF FF FF FF`, the length of its header in 32 bits, its header, and as
/// many bytes of body as the header claims, 0 where it does not say. Nothing else of a header is
/// looked at.
///
/// # Errors
///
/// - F6 (`Fault::BadFlatbuffer`) for another word in a message's place, a negative length, a header
///   that does not read, and an input that ends inside a message.
/// - F21 (`Fault::OutOfMemory`) where memory is refused, and none of the others is due: the stream
///   is read first.
pub fn ipc_messages(alloc: Global, stream: &Bytes) -> Result<Vec<IpcMessage>, Fault>
    ensures exact { MatchResult result
        (λ messages. (rest : List ℕ) × Framed stream.now messages.items rest)
        (Refuses stream.now) }
    ensures cuts { IfOk result (λ messages. All (IsCut stream.now) messages.items) }
{
    let count = count_messages(stream.as_slice())?;
    let mut messages = Vec::with_capacity(alloc, count)?;
    let mut at = 0;
    while let Some(frame) = read_frame(&stream.as_slice()[at..])? {
        messages.push(message_at(stream, at, frame)?)?;
        at += frame.end;
    }
    Ok(messages)
}
