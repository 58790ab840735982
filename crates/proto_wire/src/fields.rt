//! The fields of a message, one after the other.

ghost use Rattle.std.specs.Prelude.{◌≡◌, length};
ghost use Rattle.proto_wire.specs.Calls.{ReadsFront, KeepsStandard, ReadsOn};

use crate::field::{Field, read_field};
use scan_base::Fault;
use std::marker::Model;

/// The fields that are left of a message. A contract sees the bytes that are left.
#[derive(Debug, Drop)]
pub struct Fields<'a> {
    rest: &'a [u8],
}

impl<'a> Model for Fields<'a> {
    ghost use Rattle.std.specs.Prelude.{ℕ, List};

    ghost Value = { List ℕ };

    ghost view = { λ f. f.rest.now };
}

impl<'a> Fields<'a> {
    /// The fields of these bytes. They are read as they are asked for, and no memory is taken.
    #[inline]
    pub fn new(bytes: &'a [u8]) -> Fields<'a>
        ensures { result ≡ bytes.now }
    {
        Fields { rest: bytes }
    }

    /// How many bytes are left. So a field that was read ends this far before the message's end.
    #[inline]
    pub fn bytes_left(&self) -> usize
        ensures { result ≡ length self.now }
    {
        self.rest.len()
    }

    #[inline]
    #[tactic(auto, using(crate::proofs::Faults::field_fault))]
    fn take_front(&mut self) -> Result<Option<Field<'a>>, Fault>
        ensures { ReadsFront result self.old self.new }
    {
        if self.rest.is_empty() {
            return Ok(None);
        }
        let (field, rest) = read_field(self.rest)?;
        self.rest = rest;
        Ok(Some(field))
    }

    /// The next field, or nothing at the end. A field of any number is given: a reader of a message
    /// passes over those that it does not know.
    ///
    /// # Errors
    ///
    /// `Fault::BadProto` where something is left and no field stands in front of it: a varint of
    /// more than ten bytes, a number outside 1 to `MAX_FIELD_NUMBER`, a wire type that is not 0, 1,
    /// 2 or 5, or bytes that end inside a field. Nothing has changed then.
    pub fn next(&mut self) -> Result<Option<Field<'a>>, Fault>
        ensures front { ReadsFront result self.old self.new }
        ensures standard { KeepsStandard result self.old self.new }
        ensures whole { ReadsOn result self.old self.new }
    {
        self.take_front()
    }
}
