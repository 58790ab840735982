//! The command that a descriptor holds.

ghost use Rattle.std.specs.Prelude.{◌≡◌, option_map};
ghost use Rattle.scan_base.specs.Reading.{Gives};
ghost use Rattle.flight_proto.specs.FlightDescriptor.{descriptor_said};
ghost use Rattle.flight_proto.specs.Command.{command_said, command_of};

use crate::any::Any;
use crate::flight_descriptor::{DESCRIPTOR_CMD, FlightDescriptor};
use scan_base::Fault;

/// The most bytes of a descriptor's `cmd`.
pub const MAX_CMD_LEN: usize = 65_536;

/// The message in the Any that a descriptor holds.
#[derive(Clone, Copy, Debug, PartialEq, Eq)]
pub struct Command<'a> {
    /// The full name of the message's type.
    pub name: &'a str,
    /// The message's bytes.
    pub value: &'a [u8],
}

impl<'a> Command<'a> {
    /// The command of a descriptor.
    ///
    /// # Errors
    ///
    /// The first of: `Fault::UnknownCommand` where there is no descriptor or its type is not CMD,
    /// `Fault::LimitReached` where its `cmd` has more than `MAX_CMD_LEN` bytes, `Fault::BadProto`
    /// where that is no Any, and `Fault::UnknownCommand` where the Any's URL has no `/`.
    #[tactic(auto, unfolding(crate::specs::Command::command_of))]
    pub fn read(descriptor: Option<FlightDescriptor<'a>>) -> Result<Command<'a>, Fault>
        ensures { Gives command_said result
            (command_of (option_map descriptor_said descriptor.entry)) }
    {
        let descriptor = descriptor.ok_or(Fault::UnknownCommand)?;
        if descriptor.descriptor_type != DESCRIPTOR_CMD {
            return Err(Fault::UnknownCommand);
        }
        if descriptor.cmd.len() > MAX_CMD_LEN {
            return Err(Fault::LimitReached);
        }
        let any = Any::read(descriptor.cmd)?;
        let name = any.message_name().ok_or(Fault::UnknownCommand)?;
        Ok(Command {
            name,
            value: any.value,
        })
    }
}
