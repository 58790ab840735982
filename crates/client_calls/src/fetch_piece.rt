//! Taking the answer of a fetch, payload by payload.

ghost use Rattle.std.specs.Prelude.{◌≡◌, ◌<◌, ℕ, List, None, Ok, IfOk, IfSome};
ghost use Rattle.grpc_frame.specs.Arrivals.{work_left};
ghost use Rattle.grpc_frame.specs.Ends.{Advances, CanFail, Tape};
ghost use Rattle.grpc_frame.specs.Records.{Received, with_more};
ghost use Rattle.grpc_frame.specs.declared.place.Place.TheVariants.{InAnswer};
ghost use Rattle.ipc_batch.specs.SaidRows.{HasColumns};
ghost use Rattle.flight_client.specs.Stream.{StreamAt};
ghost use Rattle.client_calls.specs.inside.Parts.{incoming_of};
ghost use Rattle.client_calls.specs.Taking.{KeepsSchema};
ghost use Rattle.client_calls.specs.inside.Payloads.{BatchOrEnd, HasTaken, TakesAs, batch_in};

use crate::answer::{Arrival, next_arrival, refusal_of};
use crate::failure::Failure;
use arrays::Batch;
use flight_client::StreamReader;
use grpc_frame::{Inbox, Input};
use scan_base::Fault;
use std::alloc::Global;

/// What was taken of the answer of a fetch.
#[derive(Drop)]
pub(crate) enum FetchPiece {
    /// A payload: its batch, or nothing where it says a schema or a dictionary.
    Payload(Option<Batch>),
    /// Status 0.
    End,
}

/// Takes what comes next of the answer of a fetch.
///
/// # Errors
///
/// Why the answer did not come to its Status, as `read_stream` gives it.
pub(crate) fn take_payload<R: Input>(
    alloc: Global,
    inbox: &mut Inbox,
    reader: &mut R,
    stream: &mut StreamReader,
) -> Result<Result<FetchPiece, Failure>, Fault>
    requires failures { CanFail (R.failures reader.old) }
    requires place { inbox.old.place ≡ InAnswer }
    ensures takes { (came : List ℕ)
        × Advances (R.tape reader.old) (R.tape reader.new) came
        × TakesAs result stream.old stream.new
        (incoming_of (R.tape reader.old) (R.failures reader.old) (Ok inbox.old))
        (incoming_of (R.tape reader.new) (R.failures reader.new) (Ok inbox.new))
        (with_more inbox.old came) inbox.new }
    ensures place { inbox.new.place ≡ InAnswer }
    ensures columns { IfOk result
        (λ took. IfOk took (λ one. HasColumns (batch_in one) stream.new)) }
    ensures kept { KeepsSchema stream.old stream.new }
    ensures quiet { IfOk result (λ _. R.failures reader.new ≡ R.failures reader.old) }
    ensures fewer { IfOk result (λ _.
        work_left (R.turns reader.new) inbox.new < work_left (R.turns reader.old) inbox.old) }
{
    match next_arrival(inbox, reader)? {
        Arrival::Message(payload) => match stream.message(alloc, &payload) {
            Ok(batch) => Ok(Ok(FetchPiece::Payload(batch))),
            Err(fault) => Err(refusal_of(inbox, fault)),
        },
        Arrival::End(Ok(())) => Ok(Ok(FetchPiece::End)),
        Arrival::End(Err(fault)) => Ok(Err(Failure::Answered(fault))),
    }
}

/// Takes the next batch of a stream, or nothing where status 0 came.
///
/// # Errors
///
/// As `take_payload` gives them.
pub(crate) fn take_batch<R: Input>(
    alloc: Global,
    inbox: &mut Inbox,
    reader: &mut R,
    stream: &mut StreamReader,
) -> Result<Result<Option<Batch>, Failure>, Fault>
    requires failures { CanFail (R.failures reader.old) }
    requires place { inbox.old.place ≡ InAnswer }
    ensures takes { (whole : StreamAt) (a : Tape) (old : Received) → whole.state ≡ stream.old →
        HasTaken whole a (R.tape reader.old) old inbox.old →
        BatchOrEnd result whole stream.new a (R.tape reader.new) (R.failures reader.old)
        (R.failures reader.new) old inbox.new }
    ensures place { inbox.new.place ≡ InAnswer }
    ensures columns { IfOk result (λ took. IfOk took (λ batch. HasColumns batch stream.new)) }
    ensures kept { KeepsSchema stream.old stream.new }
    ensures quiet { IfOk result (λ _. R.failures reader.new ≡ R.failures reader.old) }
    ensures fewer { IfOk result (λ took. IfOk took (λ found. IfSome found (λ _.
        work_left (R.turns reader.new) inbox.new < work_left (R.turns reader.old) inbox.old))) }
{
    loop {
        match take_payload(alloc, inbox, reader, stream)? {
            Ok(FetchPiece::Payload(Some(batch))) => return Ok(Ok(Some(batch))),
            Ok(FetchPiece::Payload(None)) => {}
            Ok(FetchPiece::End) => return Ok(Ok(None)),
            Err(failure) => return Ok(Err(failure)),
        }
    }
}
