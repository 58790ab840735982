//! Writing fields at the end of a message.

ghost use Rattle.std.specs.Prelude.{◌≡◌, ◌+◌, ◌*◌, ◌<◌, ◌≤◌, ◌++◌, take, drop, length, map, All};
ghost use Rattle.std.specs.Prelude.{OnOk, OnErr};
ghost use Rattle.proto_wire.specs.Standard.{IsFieldNumber};
ghost use Rattle.proto_wire.specs.Writing.{field_spelling, varint, chunk_head, IsWritable};
ghost use Rattle.proto_wire.specs.Calls.{entry_of, varint_entry, chunk_entry, message_of};
ghost use Rattle.proto_wire.specs.Calls.{message_entry, HaveFieldNumbers};

use crate::field::{Field, Payload};
use crate::varint::append_varint;
use std::alloc::AllocError;

// Writes a tag of this wire type at the end.
#[inline]
fn append_tag(out: &mut Vec<u8>, number: u32, wire_type: u64) -> Result<(), AllocError>
    requires { wire_type < 8 }
    ensures ok { OnOk result (out.new.items ≡ out.old.items ++ varint (8 * number + wire_type)) }
    ensures err { OnErr result (out.new.items ≡ out.old.items) }
{
    append_varint(out, 8 * u64::from(number) + wire_type)
}

// Writes bytes after their length at the end, and may leave a piece where memory runs out.
fn append_chunk(out: &mut Vec<u8>, chunk: &[u8]) -> Result<(), AllocError>
    ensures ok { OnOk result (out.new.items
        ≡ out.old.items ++ (varint (length chunk.now) ++ chunk.now)) }
    ensures err { take (length out.old.items) out.new.items ≡ out.old.items }
{
    append_varint(out, chunk.len() as u64)?;
    out.extend_from_slice(chunk)
}

// Writes a field at the end, and may leave a piece where memory runs out.
#[tactic(auto, unfolding(crate::specs::Writing::field_spelling))]
fn append_field(out: &mut Vec<u8>, field: &Field<'_>) -> Result<(), AllocError>
    requires { IsFieldNumber field.now.number }
    ensures ok { OnOk result (out.new.items
        ≡ out.old.items ++ field_spelling (entry_of field.now)) }
    ensures err { take (length out.old.items) out.new.items ≡ out.old.items }
    ensures entry { OnOk result (IsWritable (entry_of field.now)) }
{
    match field.payload {
        Payload::Varint(value) => {
            append_tag(out, field.number, 0)?;
            append_varint(out, value)
        }
        Payload::Fixed64(value) => {
            append_tag(out, field.number, 1)?;
            out.extend_from_slice(&value.to_le_bytes())
        }
        Payload::Bytes(chunk) => {
            append_tag(out, field.number, 2)?;
            append_chunk(out, chunk)
        }
        Payload::Fixed32(value) => {
            append_tag(out, field.number, 5)?;
            out.extend_from_slice(&value.to_le_bytes())
        }
    }
}

/// Writes a field at the end.
///
/// # Errors
///
/// `AllocError` where memory is refused. Nothing has changed then.
pub fn put_field(out: &mut Vec<u8>, field: &Field<'_>) -> Result<(), AllocError>
    requires { IsFieldNumber field.now.number }
    ensures ok { OnOk result (out.new.items
        ≡ out.old.items ++ field_spelling (entry_of field.now)) }
    ensures entry { OnOk result (IsWritable (entry_of field.now)) }
    ensures err { OnErr result (out.new.items ≡ out.old.items) }
{
    let start = out.len();
    let written = append_field(out, field);
    if written.is_err() {
        out.truncate(start);
    }
    written
}

/// Writes a field of wire type 0 at the end: a number in its shortest varint. A negative number of
/// a signed type is cast to `u64` first, and takes ten bytes.
///
/// # Errors
///
/// `AllocError` where memory is refused. Nothing has changed then.
pub fn put_varint(out: &mut Vec<u8>, number: u32, value: u64) -> Result<(), AllocError>
    requires { IsFieldNumber number }
    ensures ok { OnOk result (out.new.items
        ≡ out.old.items ++ field_spelling (varint_entry number value)) }
    ensures entry { OnOk result (IsWritable (varint_entry number value)) }
    ensures err { OnErr result (out.new.items ≡ out.old.items) }
{
    put_field(out, &Field::varint(number, value))
}

/// Writes a field of wire type 2 at the end: the length of the bytes, and the bytes.
///
/// # Errors
///
/// `AllocError` where memory is refused. Nothing has changed then.
pub fn put_bytes(out: &mut Vec<u8>, number: u32, content: &[u8]) -> Result<(), AllocError>
    requires { IsFieldNumber number }
    ensures ok { OnOk result (out.new.items
        ≡ out.old.items ++ field_spelling (chunk_entry number content.now)) }
    ensures entry { OnOk result (IsWritable (chunk_entry number content.now)) }
    ensures err { OnErr result (out.new.items ≡ out.old.items) }
{
    put_field(out, &Field::bytes(number, content))
}

// Writes fields at the end, and may leave a piece where memory runs out.
fn append_fields(out: &mut Vec<u8>, fields: &[Field<'_>]) -> Result<(), AllocError>
    requires { HaveFieldNumbers fields.now }
    ensures ok { OnOk result (out.new.items ≡ out.old.items ++ message_of fields.now) }
    ensures err { take (length out.old.items) out.new.items ≡ out.old.items }
    ensures entries { OnOk result (All IsWritable (map entry_of fields.now)) }
{
    for field in fields {
        append_field(out, field)?;
    }
    Ok(())
}

// Turns the bytes from `start` on, so that what follows the first `len` of them comes first.
fn turn(bytes: &mut [u8], start: usize, len: usize)
    requires { start + len ≤ length bytes.old }
    ensures { bytes.new ≡ take start bytes.old
        ++ (drop (start + len) bytes.old ++ take len (drop start bytes.old)) }
{
    bytes[start..].rotate_left(len);
}

// Writes an embedded message at the end, and may leave a piece where memory runs out. The fields
// come first, since their length is known then, and the tag and the length turn to their front.
fn append_message(out: &mut Vec<u8>, number: u32, fields: &[Field<'_>]) -> Result<(), AllocError>
    requires number { IsFieldNumber number }
    requires fields { HaveFieldNumbers fields.now }
    ensures ok { OnOk result (out.new.items
        ≡ out.old.items ++ field_spelling (message_entry number fields.now)) }
    ensures err { take (length out.old.items) out.new.items ≡ out.old.items }
    ensures entry { OnOk result (IsWritable (message_entry number fields.now)) }
    ensures entries { OnOk result (All IsWritable (map entry_of fields.now)) }
{
    let start = out.len();
    append_fields(out, fields)?;
    let len = out.len() - start;
    append_tag(out, number, 2)?;
    append_varint(out, len as u64)?;
    turn(out, start, len);
    Ok(())
}

/// Writes a field of wire type 2 at the end: an embedded message, given as the list of its fields.
///
/// # Errors
///
/// `AllocError` where memory is refused. Nothing has changed then.
pub fn put_message(out: &mut Vec<u8>, number: u32, fields: &[Field<'_>]) -> Result<(), AllocError>
    requires number { IsFieldNumber number }
    requires fields { HaveFieldNumbers fields.now }
    ensures ok { OnOk result (out.new.items
        ≡ out.old.items ++ field_spelling (message_entry number fields.now)) }
    ensures entry { OnOk result (IsWritable (message_entry number fields.now)) }
    ensures entries { OnOk result (All IsWritable (map entry_of fields.now)) }
    ensures err { OnErr result (out.new.items ≡ out.old.items) }
{
    let start = out.len();
    let written = append_message(out, number, fields);
    if written.is_err() {
        out.truncate(start);
    }
    written
}

// Writes the head of a field of bytes, and may leave a piece where memory runs out.
#[tactic(auto, unfolding(crate::specs::Writing::chunk_head))]
fn append_bytes_head(out: &mut Vec<u8>, number: u32, len: u64) -> Result<(), AllocError>
    requires { IsFieldNumber number }
    ensures ok { OnOk result (out.new.items ≡ out.old.items ++ chunk_head number len) }
    ensures err { take (length out.old.items) out.new.items ≡ out.old.items }
{
    append_tag(out, number, 2)?;
    append_varint(out, len)
}

/// Writes at the end what comes before the bytes of a field of so many bytes: its tag and its
/// length. The caller writes the bytes after it, and so copies them once.
///
/// # Errors
///
/// `AllocError` where memory is refused. Nothing has changed then.
pub fn put_bytes_head(out: &mut Vec<u8>, number: u32, len: u64) -> Result<(), AllocError>
    requires { IsFieldNumber number }
    ensures ok { OnOk result (out.new.items ≡ out.old.items ++ chunk_head number len) }
    ensures err { OnErr result (out.new.items ≡ out.old.items) }
{
    let start = out.len();
    let written = append_bytes_head(out, number, len);
    if written.is_err() {
        out.truncate(start);
    }
    written
}
