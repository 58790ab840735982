//! A message, of which each field is looked up by its number. Nothing here takes memory but what is
//! told an allocator.

ghost use Rattle.std.specs.Prelude.{◌≡◌, ◌+◌, ◌<◌, length, option_map, is_some, IfErr, IfOk};
ghost use Rattle.scan_base.specs.Reading.{Gives};
ghost use Rattle.scan_base.specs.declared.fault.Fault.TheVariants.{BadProto};
ghost use Rattle.proto_wire.specs.Reading.{fields_of};
ghost use Rattle.proto_wire.specs.Calls.{entry_of};
ghost use Rattle.flight_proto.specs.Lookup.{held, chunk_of, varint_of, last_chunk, last_bytes};
ghost use Rattle.flight_proto.specs.Lookup.{last_varint};
ghost use Rattle.flight_proto.specs.Lookup.{is_present, last_text, joined, parts_within};
ghost use Rattle.flight_proto.specs.Message.{enum_of};
ghost use Rattle.flight_proto.specs.Cursor.{left_of, LeftOn, Reads, IfMore};

use proto_wire::{Field, Fields, Payload};
use scan_base::{Fault, read_text};
use std::alloc::{AllocError, Global};
use std::marker::Model;

// The bytes that a field holds, where it is of this number.
pub(crate) fn chunk_of<'a>(field: &Field<'a>, number: u32) -> Option<&'a [u8]>
    ensures { option_map (λ chunk. chunk.now) result ≡ held chunk_of number (entry_of field.now) }
{
    match field.payload {
        Payload::Bytes(chunk) if field.number == number => Some(chunk),
        _ => None,
    }
}

// The varint that a field holds, where it is of this number.
fn varint_of(field: &Field<'_>, number: u32) -> Option<u64>
    ensures { result ≡ held varint_of number (entry_of field.now) }
{
    match field.payload {
        Payload::Varint(value) if field.number == number => Some(value),
        _ => None,
    }
}

// The fields that are left of a message: those of a part, and then those of each chunk of this
// number among the later fields.
#[derive(Drop)]
pub(crate) struct Cursor<'a> {
    part: Fields<'a>,
    later: Fields<'a>,
    number: u32,
}

impl<'a> Cursor<'a> {
    // The next field, or nothing at the end.
    pub(crate) fn next(&mut self) -> Result<Option<Field<'a>>, Fault>
        ensures left { LeftOn result (left_of self.old) (left_of self.new) }
        ensures fewer { IfMore result
            (length self.new.part + length self.new.later
            < length self.old.part + length self.old.later) }
    {
        while self.part.bytes_left() == 0 {
            let Some(field) = self.later.next()? else {
                return Ok(None);
            };
            if let Some(part) = chunk_of(&field, self.number) {
                self.part = Fields::new(part);
            }
        }
        self.part.next()
    }

    // Whether all fields read.
    fn check(self) -> Result<(), Fault>
        ensures { Reads result (left_of self.entry) }
    {
        let mut cursor = self;
        while cursor.next()?.is_some() {}
        Ok(())
    }
}

/// A message whose fields read: those of its bytes, or, of an embedded one, those of all its parts.
#[derive(Drop)]
pub(crate) struct Message<'a> {
    part: &'a [u8],
    later: &'a [u8],
    number: u32,
}

// A contract sees the list of the fields.
impl<'a> Model for Message<'a> {
    ghost use Rattle.std.specs.Prelude.{List, IsOk};
    ghost use Rattle.proto_wire.specs.Standard.{Entry};

    ghost Value = { List Entry };

    ghost use Rattle.flight_proto.specs.Cursor.{fields_left, read_or_none};

    ghost view = { λ m. read_or_none (fields_left m.part.now m.later.now m.number) };

    ghost invariant = { λ m. IsOk (fields_left m.part.now m.later.now m.number) };
}

impl<'a> Message<'a> {
    // The message that these bytes are.
    pub(crate) fn read(bytes: &'a [u8]) -> Result<Message<'a>, Fault>
        ensures value { Gives (λ message. message) result (fields_of bytes.now) }
        ensures fault { IfErr result (λ fault. fault ≡ BadProto) }
    {
        let cursor = Cursor {
            part: Fields::new(bytes),
            later: Fields::new(&[]),
            number: 0,
        };
        cursor.check()?;
        Ok(Message {
            part: bytes,
            later: &[],
            number: 0,
        })
    }

    // The message that is embedded in these bytes, in fields of this number: it is there, or has no
    // fields.
    pub(crate) fn read_parts(bytes: &'a [u8], number: u32) -> Result<Message<'a>, Fault>
        ensures value { Gives (λ message. message) result (parts_within number bytes.now) }
        ensures fault { IfErr result (λ fault. fault ≡ BadProto) }
    {
        let cursor = Cursor {
            part: Fields::new(&[]),
            later: Fields::new(bytes),
            number,
        };
        cursor.check()?;
        Ok(Message {
            part: &[],
            later: bytes,
            number,
        })
    }

    // All its fields.
    pub(crate) fn cursor(&self) -> Cursor<'a>
        ensures { left_of result ≡ Ok self.now }
    {
        Cursor {
            part: Fields::new(self.part),
            later: Fields::new(self.later),
            number: self.number,
        }
    }

    // The last bytes of this number.
    pub(crate) fn last_chunk(&self, number: u32) -> Option<&'a [u8]>
        ensures { option_map (λ chunk. chunk.now) result ≡ last_chunk number self.now }
    {
        let mut last = None;
        let mut fields = self.cursor();
        while let Ok(Some(field)) = fields.next() {
            last = chunk_of(&field, number).or(last);
        }
        last
    }

    // A field of bytes.
    pub(crate) fn bytes(&self, number: u32) -> &'a [u8]
        ensures { result.now ≡ last_bytes number self.now }
    {
        self.last_chunk(number).unwrap_or(&[])
    }

    // A field of bytes is there.
    pub(crate) fn has(&self, number: u32) -> bool
        ensures { result ≡ is_present number self.now }
    {
        self.last_chunk(number).is_some()
    }

    // A number.
    pub(crate) fn varint(&self, number: u32) -> u64
        ensures { result ≡ last_varint number self.now }
    {
        let mut last = None;
        let mut fields = self.cursor();
        while let Ok(Some(field)) = fields.next() {
            last = varint_of(&field, number).or(last);
        }
        last.unwrap_or(0)
    }

    // An enum: the low 32 bits of its varint.
    pub(crate) fn enumerator(&self, number: u32) -> u32
        ensures { result ≡ enum_of (last_varint number self.now) }
    {
        (self.varint(number) % (1 << 32)) as u32
    }

    // A string. All strings of this number are UTF-8.
    pub(crate) fn text(&self, number: u32) -> Result<&'a str, Fault>
        ensures value { Gives (λ text. text.now) result (last_text number self.now) }
        ensures fault { IfErr result (λ fault. fault ≡ BadProto) }
    {
        let mut last = None;
        let mut fields = self.cursor();
        while let Ok(Some(field)) = fields.next() {
            if let Some(chunk) = chunk_of(&field, number) {
                last = Some(read_text(chunk, Fault::BadProto)?);
            }
        }
        Ok(last.unwrap_or(""))
    }

    // The bytes of an embedded message.
    pub(crate) fn joined(&self, alloc: Global, number: u32) -> Result<Vec<u8>, AllocError>
        ensures { IfOk result (λ bytes. bytes.items ≡ joined number self.now) }
    {
        let mut bytes = Vec::new(alloc);
        let mut fields = self.cursor();
        while let Ok(Some(field)) = fields.next() {
            if let Some(chunk) = chunk_of(&field, number) {
                bytes.extend_from_slice(chunk)?;
            }
        }
        Ok(bytes)
    }
}
