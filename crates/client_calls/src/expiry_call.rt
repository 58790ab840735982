//! Asking that old versions are expired.

ghost use Rattle.std.specs.Prelude.{◌≡◌, ◌∷◌, [], IfOk};
ghost use Rattle.grpc_frame.specs.Ends.{CanFail};
ghost use Rattle.flight_proto.specs.Expiry.{expiry_bytes};
ghost use Rattle.client_calls.specs.declared.call.Method.TheVariants.{DoAction};
ghost use Rattle.client_calls.specs.Answers.{AnswersOne};
ghost use Rattle.client_calls.specs.Commands.{ReadsFloor};
ghost use Rattle.client_calls.specs.Outcome.{Calls};

use crate::call::{Method, Payload};
use crate::connection::Connection;
use crate::failure::Failure;
use bytes::Bytes;
use flight_proto::{put_expiry, read_floor};
use grpc_frame::{Input, Output};
use std::alloc::{AllocError, Global};

// The one message that asks for an expiry of the versions below a number.
fn expiry_payload(alloc: Global, version: u64) -> Result<[Payload; 1], AllocError>
    ensures { IfOk result (λ payloads. payloads ≡ expiry_bytes version ∷ []) }
{
    let mut head = Vec::new(alloc);
    put_expiry(&mut head, version)?;
    Ok([Payload {
        head,
        body: Bytes::new(),
    }])
}

/// Asks that the versions below a number are expired, and gives the floor: no version below it is
/// fetched from then on.
///
/// # Errors
///
/// `Failure::Answered` with the server's fault. `Failure::Found`:
/// - F1 (`Fault::BadFrame`) and F2 (`Fault::MessageTooLarge`) where a record of the answer is
///   faulty.
/// - F4 (`Fault::BadProto`) where the answer is not one Result of eight bytes.
/// - F21 (`Fault::OutOfMemory`) where memory is refused, and the record at hand is not faulty: a
///   floor takes none.
/// - F22 (`Fault::Transport`) where a read or a write failed, which is counted, or the input ended
///   inside the answer.
///
/// After a fault of this end the connection may have stopped.
pub fn expire<R: Input, W: Output>(
    alloc: Global,
    connection: &mut Connection<R, W>,
    version: u64,
) -> Result<u64, Failure>
    requires reads { CanFail (connection.old.incoming.failed) }
    requires writes { CanFail (connection.old.outgoing.failed) }
    ensures { Calls DoAction (expiry_bytes version ∷ [])
        (AnswersOne ReadsFloor) result connection.old connection.new }
{
    connection.check()?;
    let payloads = expiry_payload(alloc, version)?;
    let message = connection.call(alloc, Method::DoAction, &payloads)?;
    Ok(read_floor(message.as_slice())?)
}
