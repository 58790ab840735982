//! An expiry of old versions: the `Action` that asks for it, and the `Result` that answers it. The
//! form is this project's own.

ghost use Rattle.std.specs.Prelude.{◌≡◌, ◌++◌, OnOk, OnErr};
ghost use Rattle.scan_base.specs.Reading.{Gives};
ghost use Rattle.flight_proto.specs.Expiry.{body_number, expiry_of, expiry_bytes, floor_said};
ghost use Rattle.flight_proto.specs.Expiry.{floor_bytes};

use crate::action::Action;
use crate::wrapped_bytes::{put_wrapped, read_wrapped};
use byteorder::{BigEndian, ByteOrder};
use scan_base::Fault;
use std::alloc::AllocError;

const EXPIRE: &str = "scan.expire";

// The number that a body is.
fn read_number(body: &[u8]) -> Result<u64, Fault>
    ensures { Gives (λ number. number) result (body_number body.now) }
{
    if body.len() != 8 {
        return Err(Fault::BadProto);
    }
    Ok(BigEndian::read_u64(body))
}

/// The number below which an action expires the versions. It takes no memory.
///
/// # Errors
///
/// `Fault::BadProto` where the action does not read, `Fault::UnknownCommand` where its name is
/// another than `scan.expire`, and `Fault::BadProto` where its body has not eight bytes.
pub fn read_expiry(message: &[u8]) -> Result<u64, Fault>
    ensures { Gives (λ version. version) result (expiry_of message.now) }
{
    let action = Action::read(message)?;
    if action.action_type != EXPIRE {
        return Err(Fault::UnknownCommand);
    }
    read_number(action.body)
}

/// Writes at the end the action that expires the versions below a number.
///
/// # Errors
///
/// `AllocError` where memory is refused. Nothing has changed then.
pub fn put_expiry(out: &mut Vec<u8>, version: u64) -> Result<(), AllocError>
    ensures ok { OnOk result (out.new.items ≡ out.old.items ++ expiry_bytes version) }
    ensures err { OnErr result (out.new.items ≡ out.old.items) }
{
    let body = version.to_be_bytes();
    let action = Action {
        action_type: EXPIRE,
        body: &body,
    };
    action.put(out)
}

/// The floor that the answer to an expiry says.
///
/// # Errors
///
/// `Fault::BadProto` where the message does not read, or its body has not eight bytes.
pub fn read_floor(message: &[u8]) -> Result<u64, Fault>
    ensures { Gives (λ floor. floor) result (floor_said message.now) }
{
    read_number(read_wrapped(message)?)
}

/// The answer to an expiry, which says the floor. It takes no memory.
pub fn floor_message(floor: u64) -> [u8; 10]
    ensures { result ≡ floor_bytes floor }
{
    let [a, b, c, d, e, f, g, h] = floor.to_be_bytes();
    [10, 8, a, b, c, d, e, f, g, h]
}

/// Writes at the end the answer to an expiry, which says the floor.
///
/// # Errors
///
/// `AllocError` where memory is refused. Nothing has changed then.
pub fn put_floor(out: &mut Vec<u8>, floor: u64) -> Result<(), AllocError>
    ensures ok { OnOk result (out.new.items ≡ out.old.items ++ floor_bytes floor) }
    ensures err { OnErr result (out.new.items ≡ out.old.items) }
{
    put_wrapped(out, &floor.to_be_bytes())
}
