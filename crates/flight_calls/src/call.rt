//! Reading the calls of a connection.

ghost use Rattle.std.specs.Prelude.{◌≡◌, ◌≢◌, ◌<◌, ℕ, List, Ok, None, IfOk, OnSome, MatchOption};
ghost use Rattle.std.specs.Io.KnownBytes.{IsAtEnd};
ghost use Rattle.grpc_frame.specs.Ends.{Advances, CanFail};
ghost use Rattle.grpc_frame.specs.declared.place.Place.TheVariants.{BetweenCalls, InsideCall};
ghost use Rattle.grpc_frame.specs.declared.record.Record.TheVariants.{Open, Message};
ghost use Rattle.grpc_frame.specs.Arrivals.{CountsTransport, work_left};
ghost use Rattle.flight_calls.specs.declared.call.Arrival.TheVariants as arrival;
ghost use Rattle.flight_calls.specs.Reading.{RequestArrives, CallArrives, FallsForCall};

use crate::request::Request;
use bytes::Bytes;
use grpc_frame::{Inbox, Input, Record};
use scan_base::Fault;
use std::alloc::Global;

/// What comes of an input after whole calls.
#[derive(Drop)]
pub enum Arrival {
    /// One more call, and what it asks.
    Whole(Request),
    /// The input ended.
    Nothing,
    /// The input ended inside a call.
    CutShort,
}

/// Reads the next call.
///
/// # Errors
///
/// `Fault::BadFrame` and `Fault::MessageTooLarge` where a record of the call is faulty,
/// `Fault::Transport` where a read failed, and `Fault::OutOfMemory` where memory is refused.
/// Nothing more can be read then.
pub fn read_call<R: Input>(
    alloc: Global,
    inbox: &mut Inbox,
    input: &mut R,
) -> Result<Arrival, Fault>
    requires failures { CanFail (R.failures input.old) }
    requires between { inbox.old.place ≡ BetweenCalls }
    ensures arrives { (came : List ℕ)
        × Advances (R.tape input.old) (R.tape input.new) came
        × CallArrives result inbox.old inbox.new came }
    ensures ended { result ≡ Ok arrival.Nothing → IsAtEnd (R.tape input.new).left }
    ensures cut { result ≡ Ok arrival.CutShort → IsAtEnd (R.tape input.new).left }
    ensures counted { CountsTransport result (R.failures input.old) (R.failures input.new) }
    ensures fewer { IfOk result (λ found. FallsForCall found
        (work_left (R.turns input.new) inbox.new < work_left (R.turns input.old) inbox.old)) }
{
    let Some(found) = inbox.next_from(input)? else {
        if inbox.is_between_calls() {
            return Ok(Arrival::Nothing);
        }
        return Ok(Arrival::CutShort);
    };
    let Some(path) = path_of(found) else {
        return Err(Fault::BadFrame);
    };
    match read_request(alloc, path.as_slice(), inbox, input)? {
        Some(request) => Ok(Arrival::Whole(request)),
        None => Ok(Arrival::CutShort),
    }
}

// Reads the messages of a call to this path, up to its End. Nothing where the input ends before.
fn read_request<R: Input>(
    alloc: Global,
    path: &[u8],
    inbox: &mut Inbox,
    input: &mut R,
) -> Result<Option<Request>, Fault>
    requires failures { CanFail (R.failures input.old) }
    requires inside { inbox.old.place ≡ InsideCall }
    ensures arrives { (came : List ℕ)
        × Advances (R.tape input.old) (R.tape input.new) came
        × RequestArrives result path.now inbox.old inbox.new came }
    ensures ended { result ≡ Ok None → IsAtEnd (R.tape input.new).left }
    ensures counted { CountsTransport result (R.failures input.old) (R.failures input.new) }
    ensures fewer { IfOk result (λ found. OnSome found
        (work_left (R.turns input.new) inbox.new < work_left (R.turns input.old) inbox.old)) }
{
    let mut request = Request::at(path);
    loop {
        let Some(found) = inbox.next_from(input)? else {
            return Ok(None);
        };
        let Some(message) = message_of(found) else {
            return Ok(Some(request));
        };
        request.push(alloc, message);
    }
}

// The path of an Open.
fn path_of(found: Record) -> Option<Bytes>
    ensures { MatchOption result ((path : List ℕ) → found ≢ Open path) (λ path. found ≡ Open path) }
{
    match found {
        Record::Open(path) => Some(path),
        _ => None,
    }
}

// The message of a Message.
fn message_of(found: Record) -> Option<Bytes>
    ensures { MatchOption result ((message : List ℕ) → found ≢ Message message)
        (λ message. found ≡ Message message) }
{
    match found {
        Record::Message(message) => Some(message),
        _ => None,
    }
}
