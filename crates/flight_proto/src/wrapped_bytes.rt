//! Messages of one field of bytes: `Ticket`, `TicketStatementQuery`, `PutResult`, `SchemaResult`
//! and `Result`.

ghost use Rattle.std.specs.Prelude.{◌≡◌, ◌++◌, OnOk, OnErr};
ghost use Rattle.scan_base.specs.Reading.{Gives};
ghost use Rattle.flight_proto.specs.WrappedBytes.{wrapped_of, wrapped_bytes};

use crate::message::Message;
use crate::message_parts::{Part, put_parts};
use proto_wire::Field;
use scan_base::Fault;
use std::alloc::AllocError;

/// What a message of one field of bytes says.
///
/// # Errors
///
/// `Fault::BadProto` where the message does not read.
pub fn read_wrapped(message: &[u8]) -> Result<&[u8], Fault>
    ensures { Gives (λ bytes. bytes.now) result (wrapped_of message.now) }
{
    let message = Message::read(message)?;
    Ok(message.bytes(1))
}

/// Writes at the end the message of one field that says these bytes. It is empty where they are.
///
/// # Errors
///
/// `AllocError` where memory is refused. Nothing has changed then.
pub fn put_wrapped(out: &mut Vec<u8>, bytes: &[u8]) -> Result<(), AllocError>
    ensures ok { OnOk result (out.new.items ≡ out.old.items ++ wrapped_bytes bytes.now) }
    ensures err { OnErr result (out.new.items ≡ out.old.items) }
{
    put_parts(out, &[Part::Scalar(Field::bytes(1, bytes))])
}
