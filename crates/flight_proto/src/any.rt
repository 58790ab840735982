//! `google.protobuf.Any`.

ghost use Rattle.std.specs.Prelude.{◌≡◌, ◌++◌, option_map, OnOk, OnErr};
ghost use Rattle.scan_base.specs.Reading.{Gives};
ghost use Rattle.flight_proto.specs.Any.{any_of, any_said, any_bytes, message_name};

use crate::message::Message;
use crate::message_parts::{Part, put_parts};
use proto_wire::Field;
use scan_base::Fault;
use std::alloc::AllocError;

/// A message of any type, next to the name of its type.
#[derive(Clone, Copy, Debug, PartialEq, Eq)]
pub struct Any<'a> {
    /// Field 1: a URL, whose part after the last `/` is the full name of the message's type.
    pub type_url: &'a str,
    /// Field 2: the message's bytes.
    pub value: &'a [u8],
}

impl<'a> Any<'a> {
    /// The Any that these bytes are.
    ///
    /// # Errors
    ///
    /// `Fault::BadProto` where they do not read.
    pub fn read(bytes: &'a [u8]) -> Result<Any<'a>, Fault>
        ensures { Gives any_said result (any_of bytes.now) }
    {
        let message = Message::read(bytes)?;
        Ok(Any {
            type_url: message.text(1)?,
            value: message.bytes(2),
        })
    }

    /// The full name of the message's type: what follows the last `/` of the URL, where it has one.
    pub fn message_name(&self) -> Option<&'a str>
        ensures { option_map (λ name. name.now) result ≡ message_name self.now.type_url.now }
    {
        let (_, name) = self.type_url.rsplit_once('/')?;
        Some(name)
    }

    /// Writes the Any at the end.
    ///
    /// # Errors
    ///
    /// `AllocError` where memory is refused. Nothing has changed then.
    pub fn put(&self, out: &mut Vec<u8>) -> Result<(), AllocError>
        ensures ok { OnOk result (out.new.items ≡ out.old.items ++ any_bytes (any_said self.now)) }
        ensures err { OnErr result (out.new.items ≡ out.old.items) }
    {
        let type_url = Field::bytes(1, self.type_url.as_bytes());
        let value = Field::bytes(2, self.value);
        put_parts(out, &[Part::Scalar(type_url), Part::Scalar(value)])
    }
}
