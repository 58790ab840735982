//! Reading an answer.

ghost use Rattle.std.specs.Prelude.{◌≡◌, ◌<◌, ℕ, List, Ok, IfOk};
ghost use Rattle.grpc_frame.specs.Ends.{Advances, CanFail};
ghost use Rattle.grpc_frame.specs.declared.place.Place.TheVariants.{InAnswer};
ghost use Rattle.grpc_frame.specs.Records.{with_more};
ghost use Rattle.grpc_frame.specs.Arrivals.{work_left};
ghost use Rattle.flight_client.specs.Status.{StatusSays};
ghost use Rattle.client_calls.specs.Answers.{AnswersOne};
ghost use Rattle.client_calls.specs.StreamAnswers.{AnswersStream, Stands};
ghost use Rattle.client_calls.specs.inside.Arriving.{ArrivesAs};
ghost use Rattle.client_calls.specs.inside.Parts.{incoming_of, left_behind, given};

use crate::failure::Failure;
use bytes::Bytes;
use flight_client::{Stream, fault_of_status};
use grpc_frame::{Inbox, Input, Record};
use scan_base::Fault;
use std::alloc::Global;

/// What comes of an answer.
#[derive(Drop)]
pub(crate) enum Arrival {
    /// One message more.
    Message(Bytes),
    /// Its status, and what that stands for.
    End(Result<(), Fault>),
}

// What a status stands for.
fn status_end(code: u8, text: &str) -> Result<(), Fault>
    ensures { StatusSays code text.now result }
{
    if code == 0 {
        return Ok(());
    }
    Err(fault_of_status(code, text).unwrap_or(Fault::BadFrame))
}

/// Takes what comes next of an answer.
pub(crate) fn next_arrival<R: Input>(inbox: &mut Inbox, reader: &mut R) -> Result<Arrival, Fault>
    requires failures { CanFail (R.failures reader.old) }
    requires place { inbox.old.place ≡ InAnswer }
    ensures arrives { (came : List ℕ)
        × Advances (R.tape reader.old) (R.tape reader.new) came
        × ArrivesAs result
        (incoming_of (R.tape reader.old) (R.failures reader.old) (Ok inbox.old))
        (incoming_of (R.tape reader.new) (R.failures reader.new) (Ok inbox.new))
        (with_more inbox.old came) inbox.new }
    ensures place { inbox.new.place ≡ InAnswer }
    ensures fewer { IfOk result (λ _.
        work_left (R.turns reader.new) inbox.new < work_left (R.turns reader.old) inbox.old) }
{
    match inbox.next_from(reader)? {
        Some(Record::Message(message)) => Ok(Arrival::Message(message)),
        Some(Record::Status { code, text }) => Ok(Arrival::End(status_end(code, text.as_str()))),
        Some(Record::Open(_)) => Err(Fault::BadFrame),
        Some(Record::End) => Err(Fault::BadFrame),
        None => Err(Fault::Transport),
    }
}

/// Reads an answer of one message, and gives the message, or why it has none.
///
/// # Errors
///
/// Why the answer did not come to its Status:
/// - F1 (`Fault::BadFrame`) and F2 (`Fault::MessageTooLarge`) where a record is faulty.
/// - F4 (`Fault::BadProto`) where a second message came.
/// - F21 (`Fault::OutOfMemory`) where memory is refused, and the record at hand is not faulty.
/// - F22 (`Fault::Transport`) where a read failed, which is counted, or the input ended inside the
///   answer.
pub(crate) fn read_one<R: Input>(
    inbox: &mut Inbox,
    reader: &mut R,
) -> Result<Result<Bytes, Failure>, Fault>
    requires failures { CanFail (R.failures reader.old) }
    requires place { inbox.old.place ≡ InAnswer }
    ensures answer { (came : List ℕ)
        × Advances (R.tape reader.old) (R.tape reader.new) came
        × AnswersOne (λ given message. given ≡ Ok message) (given result)
        (incoming_of (R.tape reader.old) (R.failures reader.old) (Ok inbox.old))
        (incoming_of (R.tape reader.new) (R.failures reader.new) (left_behind result inbox.new))
        (with_more inbox.old came) }
    ensures place { inbox.new.place ≡ InAnswer }
{
    let message = match next_arrival(inbox, reader)? {
        Arrival::Message(message) => message,
        Arrival::End(Ok(())) => return Ok(Err(Failure::Found(Fault::BadProto))),
        Arrival::End(Err(fault)) => return Ok(Err(Failure::Answered(fault))),
    };
    match next_arrival(inbox, reader)? {
        Arrival::Message(_) => Err(Fault::BadProto),
        Arrival::End(Ok(())) => Ok(Ok(message)),
        Arrival::End(Err(fault)) => Ok(Err(Failure::Answered(fault))),
    }
}

/// Why an answer is not read on where a payload is refused by this fault: want of memory gives way
/// to a faulty record.
pub(crate) fn refusal_of(inbox: &Inbox, fault: Fault) -> Fault
    ensures { Stands inbox.now fault result }
{
    match fault {
        Fault::OutOfMemory => inbox.flaw().unwrap_or(fault),
        _ => fault,
    }
}

/// Reads the answer of a fetch: each payload into the stream as it comes, up to the status.
///
/// # Errors
///
/// Why the answer did not come to its Status:
/// - F1, F2, F21 and F22 as `read_one` gives them.
/// - The fault of a payload, as `Stream::message` gives it (F4, F6, F7, F8, F12 or F21). For F21
///   stands the fault of the record after it, where that is faulty.
pub(crate) fn read_stream<R: Input>(
    alloc: Global,
    inbox: &mut Inbox,
    reader: &mut R,
) -> Result<Result<Stream, Failure>, Fault>
    requires failures { CanFail (R.failures reader.old) }
    requires place { inbox.old.place ≡ InAnswer }
    ensures answer { (came : List ℕ)
        × Advances (R.tape reader.old) (R.tape reader.new) came
        × AnswersStream (given result)
        (incoming_of (R.tape reader.old) (R.failures reader.old) (Ok inbox.old))
        (incoming_of (R.tape reader.new) (R.failures reader.new) (left_behind result inbox.new))
        (with_more inbox.old came) }
    ensures place { inbox.new.place ≡ InAnswer }
{
    let mut stream = Stream::new(alloc);
    loop {
        match next_arrival(inbox, reader)? {
            Arrival::Message(message) => {
                if let Err(fault) = stream.message(alloc, &message) {
                    return Err(refusal_of(inbox, fault));
                }
            }
            Arrival::End(Ok(())) => {
                stream.end(0, "");
                return Ok(Ok(stream));
            }
            Arrival::End(Err(fault)) => return Ok(Err(Failure::Answered(fault))),
        }
    }
}
