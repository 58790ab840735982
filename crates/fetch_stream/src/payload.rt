//! Payloads: the bytes of an answer's messages.

ghost use Rattle.std.specs.Prelude.{◌≡◌, ◌++◌, ◌≤◌, [], length, IfOk, OnOk};
ghost use Rattle.std.specs.List.{flat_map};
ghost use Rattle.flatbuf.specs.Block.{padded};
ghost use Rattle.scan_base.specs.Limits.{most_message_bytes};
ghost use Rattle.ipc_batch.specs.WrittenMessages.{body_of};

use bytes::Bytes;
use flight_info::payload_of;
use std::alloc::{AllocError, Global};
use std::marker::Model;

// The bytes after a buffer in a body.
static ZEROS: [u8; 8] = [0; 8];

/// The bytes of a message of an answer: a head, and the parts after it, in order. A part may be a
/// cut of a table's buffer, of which no copy is made. A contract sees all of the bytes: at most
/// 16,777,216.
pub struct Payload {
    head: Vec<u8>,
    parts: Vec<Bytes>,
    len: usize,
}

// Written out, so that dropping it is one call (docs/DECISIONS.md).
impl Drop for Payload {
    fn drop(self) {
        let Payload {
            head: _,
            parts: _,
            len: _,
        } = self;
    }
}

impl Model for Payload {
    ghost use Rattle.std.specs.Prelude.{◌≡◌, ◌≤◌, ℕ, List, ◌++◌, length};
    ghost use Rattle.std.specs.List.{flat_map};
    ghost use Rattle.scan_base.specs.Limits.{most_message_bytes};

    ghost Value = { List ℕ };

    ghost view = { λ p. p.head.items ++ flat_map (λ part. part) p.parts.items };

    ghost invariant = { λ p.
        (p.len ≡ length (p.head.items ++ flat_map (λ part. part) p.parts.items))
        × (p.len ≤ most_message_bytes) };
}

impl Payload {
    // A head with these parts after it, of so many bytes in all.
    pub(crate) fn new(head: Vec<u8>, parts: Vec<Bytes>, len: usize) -> Payload
        requires whole { len ≡ length (head.items ++ flat_map (λ part. part) parts.items) }
        requires short { len ≤ most_message_bytes }
        ensures { result ≡ head.items ++ flat_map (λ part. part) parts.items }
    {
        Payload { head, parts, len }
    }

    /// How many bytes there are.
    pub fn len(&self) -> usize
        ensures len { result ≡ length self.now }
        ensures short { result ≤ most_message_bytes }
    {
        self.len
    }

    /// The head, and the parts after it in order.
    pub fn pieces(&self) -> (&[u8], &[Bytes])
        ensures { self.now ≡ result.0.now ++ flat_map (λ part. part) result.1.now }
    {
        (self.head.as_slice(), self.parts.as_slice())
    }

    /// All bytes in one piece.
    ///
    /// # Errors
    ///
    /// `AllocError` where memory is refused.
    pub fn into_bytes(self) -> Result<Bytes, AllocError>
        ensures same { IfOk result (λ payload. payload ≡ self) }
        ensures fits { IfOk result (λ payload. length payload ≤ most_message_bytes) }
    {
        let Payload {
            head: mut bytes,
            parts,
            len,
        } = self;
        bytes.reserve(len - bytes.len())?;
        append_parts(&mut bytes, parts.as_slice())?;
        payload_of(bytes)
    }
}

// Puts these parts after the bytes.
fn append_parts(bytes: &mut Vec<u8>, parts: &[Bytes]) -> Result<(), AllocError>
    ensures { OnOk result (bytes.new.items ≡ bytes.old.items ++ flat_map (λ part. part) parts.now) }
{
    for part in parts {
        bytes.extend_from_slice(part.as_slice())?;
    }
    Ok(())
}

// Puts a buffer after the parts, and zeros up to a multiple of 8.
fn push_padded(parts: &mut Vec<Bytes>, buffer: Bytes) -> Result<(), AllocError>
    ensures { OnOk result (flat_map (λ part. part) parts.new.items
        ≡ flat_map (λ part. part) parts.old.items ++ padded buffer) }
{
    let zeros = (8 - buffer.len() % 8) % 8;
    parts.push(buffer)?;
    if zeros > 0 {
        parts.push(Bytes::from_static(&ZEROS[..zeros]))?;
    }
    Ok(())
}

// The parts of a body of these buffers.
pub(crate) fn body_parts(alloc: Global, buffers: Vec<Bytes>) -> Result<Vec<Bytes>, AllocError>
    ensures { IfOk result (λ parts. flat_map (λ part. part) parts.items ≡ body_of buffers.items) }
{
    let mut parts = Vec::with_capacity(alloc, buffers.len().saturating_mul(2))?;
    for buffer in buffers {
        push_padded(&mut parts, buffer)?;
    }
    Ok(parts)
}
