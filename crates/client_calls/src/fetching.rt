//! Fetching rows.

ghost use Rattle.std.specs.Prelude.{◌≡◌, ◌∷◌, [], IfOk};
ghost use Rattle.grpc_frame.specs.Ends.{CanFail};
ghost use Rattle.client_calls.specs.declared.call.Method.TheVariants.{DoGet};
ghost use Rattle.client_calls.specs.StreamAnswers.{AnswersStream};
ghost use Rattle.client_calls.specs.Outcome.{Calls};

use crate::call::Payload;
use crate::connection::Connection;
use crate::failure::Failure;
use bytes::Bytes;
use flight_client::Stream;
use grpc_frame::{Input, Output};
use std::alloc::{AllocError, Global};

/// The one message of a fetch, which is the ticket.
pub(crate) fn ticket_payload(alloc: Global, ticket: &[u8]) -> Result<[Payload; 1], AllocError>
    ensures { IfOk result (λ payloads. payloads ≡ ticket.now ∷ []) }
{
    let mut head = Vec::new(alloc);
    head.extend_from_slice(ticket)?;
    Ok([Payload {
        head,
        body: Bytes::new(),
    }])
}

/// Fetches what a ticket stands for: the bytes of the Ticket, as an endpoint has them. The stream
/// has ended with status 0. Each payload is read as it comes, and is held once.
///
/// # Errors
///
/// `Failure::Answered` with the server's fault. `Failure::Found`:
/// - F1 (`Fault::BadFrame`) and F2 (`Fault::MessageTooLarge`) where a record of the answer is
///   faulty.
/// - F2 where the ticket has more than 16,777,216 bytes. Nothing is written then.
/// - The fault of a payload, as `Stream::message` gives it (F4, F6, F7, F8 or F12).
/// - F21 (`Fault::OutOfMemory`) where memory is refused, the record at hand is not faulty, and each
///   payload is a FlightData.
/// - F22 (`Fault::Transport`) where a read or a write failed, which is counted, or the input ended
///   inside the answer.
///
/// After a fault of this end the connection may have stopped.
pub fn fetch<R: Input, W: Output>(
    alloc: Global,
    connection: &mut Connection<R, W>,
    ticket: &[u8],
) -> Result<Stream, Failure>
    requires reads { CanFail (connection.old.incoming.failed) }
    requires writes { CanFail (connection.old.outgoing.failed) }
    ensures { Calls DoGet (ticket.now ∷ []) AnswersStream result connection.old connection.new }
{
    connection.check()?;
    let payloads = ticket_payload(alloc, ticket)?;
    connection.call_for_stream(alloc, &payloads)
}
