//! Asking where rows are fetched.

ghost use Rattle.std.specs.Prelude.{◌≡◌, ◌∷◌, [], map, IfOk};
ghost use Rattle.grpc_frame.specs.Ends.{CanFail};
ghost use Rattle.flight_proto.specs.FlightInfo.{endpoint_said};
ghost use Rattle.flight_proto.specs.InfoCommand.{wanted_bytes, wanted_said};
ghost use Rattle.client_calls.specs.declared.call.Method.TheVariants.{GetFlightInfo};
ghost use Rattle.client_calls.specs.Answers.{AnswersOne};
ghost use Rattle.client_calls.specs.Commands.{ReadsEndpoints};
ghost use Rattle.client_calls.specs.Outcome.{Calls};

use crate::call::{Method, Payload};
use crate::connection::Connection;
use crate::failure::Failure;
use bytes::Bytes;
use flight_client::read_info;
use flight_proto::{FlightEndpoint, InfoCommand, put_wanted};
use grpc_frame::{Input, Output};
use scan_base::Fault;
use std::alloc::{AllocError, Global};

// The one message that asks for this.
fn wanted_payload(alloc: Global, wanted: InfoCommand<'_>) -> Result<[Payload; 1], AllocError>
    ensures { IfOk result (λ payloads. payloads ≡ wanted_bytes (wanted_said wanted.entry) ∷ []) }
{
    let mut head = Vec::new(alloc);
    put_wanted(&mut head, wanted)?;
    Ok([Payload {
        head,
        body: Bytes::new(),
    }])
}

// The endpoints of an info, in order.
fn read_endpoints(alloc: Global, message: &[u8]) -> Result<Vec<FlightEndpoint>, Fault>
    ensures { ReadsEndpoints (λ endpoints. map endpoint_said endpoints.items) result message.now }
{
    let info = read_info(alloc, message)?;
    Ok(info.endpoints)
}

/// Asks where what is wanted is fetched: the endpoints, of which there is one or more, in the order
/// in which their streams are joined.
///
/// # Errors
///
/// `Failure::Answered` with the server's fault. `Failure::Found`:
/// - F1 (`Fault::BadFrame`) and F2 (`Fault::MessageTooLarge`) where a record of the answer is
///   faulty.
/// - F2 where the message of the call would have more than 16,777,216 bytes. Nothing is written
///   then.
/// - F4 (`Fault::BadProto`) where the answer is not one FlightInfo with an endpoint.
/// - F21 (`Fault::OutOfMemory`) where memory is refused, the record at hand is not faulty, and what
///   is read is a FlightInfo.
/// - F22 (`Fault::Transport`) where a read or a write failed, which is counted, or the input ended
///   inside the answer.
///
/// After a fault of this end the connection may have stopped.
pub fn info<R: Input, W: Output>(
    alloc: Global,
    connection: &mut Connection<R, W>,
    wanted: InfoCommand<'_>,
) -> Result<Vec<FlightEndpoint>, Failure>
    requires reads { CanFail (connection.old.incoming.failed) }
    requires writes { CanFail (connection.old.outgoing.failed) }
    ensures { Calls GetFlightInfo (wanted_bytes (wanted_said wanted.entry) ∷ [])
        (AnswersOne (ReadsEndpoints (λ endpoints. map endpoint_said endpoints.items))) result
        connection.old connection.new }
{
    connection.check()?;
    let payloads = wanted_payload(alloc, wanted)?;
    let message = connection.call(alloc, Method::GetFlightInfo, &payloads)?;
    Ok(read_endpoints(alloc, message.as_slice())?)
}
