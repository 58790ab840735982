//! `arrow.flight.protocol.FlightDescriptor`.

ghost use Rattle.std.specs.Prelude.{◌≡◌, ◌++◌, OnOk, OnErr};
ghost use Rattle.scan_base.specs.Reading.{Gives};
ghost use Rattle.flight_proto.specs.FlightDescriptor.{descriptor_said, descriptor_in};
ghost use Rattle.flight_proto.specs.FlightDescriptor.{descriptor_of};
ghost use Rattle.flight_proto.specs.FlightDescriptor.{descriptor_bytes};

use crate::message::Message;
use crate::message_parts::{Part, put_parts};
use proto_wire::Field;
use scan_base::Fault;
use std::alloc::AllocError;

/// The type of a descriptor that holds a command.
pub const DESCRIPTOR_CMD: u32 = 2;

/// What a call or a stream is about. The texts of its `path` (field 3) are not kept.
#[derive(Clone, Copy, Debug, PartialEq, Eq)]
pub struct FlightDescriptor<'a> {
    /// Field 1, `type`: UNKNOWN is 0, PATH is 1, CMD is 2. Other numbers are kept as they are.
    pub descriptor_type: u32,
    /// Field 2: the command's bytes.
    pub cmd: &'a [u8],
}

impl<'a> FlightDescriptor<'a> {
    // The descriptor of these fields.
    pub(crate) fn look_up(message: &Message<'a>) -> Result<FlightDescriptor<'a>, Fault>
        ensures { Gives descriptor_said result (descriptor_in message.now) }
    {
        let _path = message.text(3)?;
        Ok(FlightDescriptor {
            descriptor_type: message.enumerator(1),
            cmd: message.bytes(2),
        })
    }

    /// The descriptor that these bytes are.
    ///
    /// # Errors
    ///
    /// `Fault::BadProto` where they do not read.
    pub fn read(bytes: &'a [u8]) -> Result<FlightDescriptor<'a>, Fault>
        ensures { Gives descriptor_said result (descriptor_of bytes.now) }
    {
        let message = Message::read(bytes)?;
        FlightDescriptor::look_up(&message)
    }

    /// Writes the descriptor at the end.
    ///
    /// # Errors
    ///
    /// `AllocError` where memory is refused. Nothing has changed then.
    pub fn put(&self, out: &mut Vec<u8>) -> Result<(), AllocError>
        ensures ok { OnOk result (out.new.items
            ≡ out.old.items ++ descriptor_bytes (descriptor_said self.now)) }
        ensures err { OnErr result (out.new.items ≡ out.old.items) }
    {
        let descriptor_type = Field::varint(1, u64::from(self.descriptor_type));
        let cmd = Field::bytes(2, self.cmd);
        put_parts(out, &[Part::Scalar(descriptor_type), Part::Scalar(cmd)])
    }
}
