//! A field, and the reading of one.

ghost use Rattle.std.specs.Prelude.{◌≡◌};
ghost use Rattle.scan_base.specs.Reading.{Gives};
ghost use Rattle.proto_wire.specs.Reading.{payload_at, field_at};
ghost use Rattle.proto_wire.specs.Calls.{content_of, entry_of};

use crate::varint::read_varint;
use scan_base::Fault;

/// What a field holds. Which one it is, its wire type tells.
#[derive(Clone, Copy, Debug, PartialEq, Eq)]
pub enum Payload<'a> {
    /// Wire type 0: a number as a varint, of 64 bits.
    Varint(u64),
    /// Wire type 1: eight bytes, least significant first.
    Fixed64(u64),
    /// Wire type 2: bytes after their length. Texts and embedded messages are such bytes.
    Bytes(&'a [u8]),
    /// Wire type 5: four bytes, least significant first.
    Fixed32(u32),
}

/// A field of a message.
#[derive(Clone, Copy, Debug, PartialEq, Eq)]
pub struct Field<'a> {
    /// The field's number, 1 to `MAX_FIELD_NUMBER`.
    pub number: u32,
    /// What the field holds.
    pub payload: Payload<'a>,
}

impl<'a> Field<'a> {
    /// A field of wire type 0.
    #[inline]
    pub fn varint(number: u32, value: u64) -> Field<'a>
        ensures { result ≡ record { number = number; payload = Payload.Varint value } }
    {
        let payload = Payload::Varint(value);
        Field { number, payload }
    }

    /// A field of bytes: of wire type 2.
    #[inline]
    pub fn bytes(number: u32, content: &'a [u8]) -> Field<'a>
        ensures { result ≡ record { number = number; payload = Payload.Bytes content.entry } }
    {
        let payload = Payload::Bytes(content);
        Field { number, payload }
    }
}

/// The greatest number of a field: it has 29 bits.
pub const MAX_FIELD_NUMBER: u32 = 536_870_911;

// What a field of this wire type holds, at the front, and what follows it.
#[tactic(auto, unfolding(crate::specs::Reading::payload_at))]
fn read_payload(wire_type: u64, bytes: &[u8]) -> Result<(Payload<'_>, &[u8]), Fault>
    ensures { Gives (λ x. (content_of x.0, x.1.now)) result (payload_at wire_type bytes.now) }
{
    match wire_type {
        0 => {
            let (value, rest) = read_varint(bytes)?;
            Ok((Payload::Varint(value), rest))
        }
        1 => {
            let (fixed, rest) = bytes.split_first_chunk().ok_or(Fault::BadProto)?;
            Ok((Payload::Fixed64(u64::from_le_bytes(*fixed)), rest))
        }
        2 => {
            let (len, rest) = read_varint(bytes)?;
            let (content, rest) = rest.split_at_checked(len as usize).ok_or(Fault::BadProto)?;
            Ok((Payload::Bytes(content), rest))
        }
        5 => {
            let (fixed, rest) = bytes.split_first_chunk().ok_or(Fault::BadProto)?;
            Ok((Payload::Fixed32(u32::from_le_bytes(*fixed)), rest))
        }
        _ => Err(Fault::BadProto),
    }
}

// The field at the front, and what follows it.
#[tactic(auto, unfolding(crate::specs::Reading::field_at))]
pub(crate) fn read_field(bytes: &[u8]) -> Result<(Field<'_>, &[u8]), Fault>
    ensures { Gives (λ x. (entry_of x.0, x.1.now)) result (field_at bytes.now) }
{
    let (tag, rest) = read_varint(bytes)?;
    let number = tag / 8;
    if number == 0 || number > u64::from(MAX_FIELD_NUMBER) {
        return Err(Fault::BadProto);
    }
    let (payload, rest) = read_payload(tag % 8, rest)?;
    let number = number as u32;
    Ok((Field { number, payload }, rest))
}
