//! `arrow.flight.protocol.Action`.

ghost use Rattle.std.specs.Prelude.{◌≡◌, ◌++◌, OnOk, OnErr};
ghost use Rattle.scan_base.specs.Reading.{Gives};
ghost use Rattle.flight_proto.specs.Action.{action_said, action_of, action_bytes};

use crate::message::Message;
use crate::message_parts::{Part, put_parts};
use proto_wire::Field;
use scan_base::Fault;
use std::alloc::AllocError;

/// Something that is asked of a server by name. It is answered by a `Result`, a message of one
/// field of bytes.
#[derive(Clone, Copy, Debug, PartialEq, Eq)]
pub struct Action<'a> {
    /// Field 1, `type`: the action's name.
    pub action_type: &'a str,
    /// Field 2: what it is to be done with.
    pub body: &'a [u8],
}

impl<'a> Action<'a> {
    /// The action that these bytes are.
    ///
    /// # Errors
    ///
    /// `Fault::BadProto` where they do not read.
    pub fn read(bytes: &'a [u8]) -> Result<Action<'a>, Fault>
        ensures { Gives action_said result (action_of bytes.now) }
    {
        let message = Message::read(bytes)?;
        Ok(Action {
            action_type: message.text(1)?,
            body: message.bytes(2),
        })
    }

    /// Writes the action at the end.
    ///
    /// # Errors
    ///
    /// `AllocError` where memory is refused. Nothing has changed then.
    pub fn put(&self, out: &mut Vec<u8>) -> Result<(), AllocError>
        ensures ok { OnOk result
            (out.new.items ≡ out.old.items ++ action_bytes (action_said self.now)) }
        ensures err { OnErr result (out.new.items ≡ out.old.items) }
    {
        let action_type = Field::bytes(1, self.action_type.as_bytes());
        let body = Field::bytes(2, self.body);
        put_parts(out, &[Part::Scalar(action_type), Part::Scalar(body)])
    }
}
