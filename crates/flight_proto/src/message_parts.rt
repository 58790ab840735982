//! Writing a message.

ghost use Rattle.std.specs.Prelude.{◌≡◌, [], ◌∷◌, ◌++◌, length, take, OnOk, OnErr};
ghost use Rattle.proto_wire.specs.Calls.{content_of};
ghost use Rattle.flight_proto.specs.Message.{is_set, spelled};
ghost use Rattle.flight_proto.specs.Parts.{IsNumbered, AreNumbered, entries_of};

use proto_wire::{Field, Payload, put_bytes, put_field};
use std::alloc::AllocError;

/// A field as a message says it.
#[derive(Clone, Copy)]
pub(crate) enum Part<'a> {
    // a scalar, which is left out at its default
    Scalar(Field<'a>),
    // an embedded message of this number, which is left out only where it is absent
    Embedded(u32, Option<&'a [u8]>),
}

// The field is not at its default.
fn is_set(field: &Field<'_>) -> bool
    ensures { result ≡ is_set (content_of field.now.payload) }
{
    match field.payload {
        Payload::Varint(value) => value != 0,
        Payload::Fixed64(value) => value != 0,
        Payload::Bytes(bytes) => !bytes.is_empty(),
        Payload::Fixed32(value) => value != 0,
    }
}

// Writes a part at the end. An `Err` changes nothing.
fn put_part(out: &mut Vec<u8>, part: &Part<'_>) -> Result<(), AllocError>
    requires { IsNumbered part.now }
    ensures ok { OnOk result
        (out.new.items ≡ out.old.items ++ spelled (entries_of (part.now ∷ []))) }
    ensures err { OnErr result (out.new.items ≡ out.old.items) }
{
    match *part {
        Part::Scalar(field) if is_set(&field) => put_field(out, &field),
        Part::Embedded(number, Some(bytes)) => put_bytes(out, number, bytes),
        _ => Ok(()),
    }
}

// Writes parts at the end, and may leave some where memory runs out.
fn append_parts(out: &mut Vec<u8>, parts: &[Part<'_>]) -> Result<(), AllocError>
    requires { AreNumbered parts.now }
    ensures ok { OnOk result (out.new.items ≡ out.old.items ++ spelled (entries_of parts.now)) }
    ensures err { take (length out.old.items) out.new.items ≡ out.old.items }
{
    for part in parts {
        put_part(out, part)?;
    }
    Ok(())
}

// Writes the parts of a message at the end, in their order. An `Err` changes nothing.
pub(crate) fn put_parts(out: &mut Vec<u8>, parts: &[Part<'_>]) -> Result<(), AllocError>
    requires { AreNumbered parts.now }
    ensures ok { OnOk result (out.new.items ≡ out.old.items ++ spelled (entries_of parts.now)) }
    ensures err { OnErr result (out.new.items ≡ out.old.items) }
{
    let start = out.len();
    let written = append_parts(out, parts);
    if written.is_err() {
        out.truncate(start);
    }
    written
}
