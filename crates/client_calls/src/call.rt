//! Writing a call.

ghost use Rattle.std.specs.Prelude.{◌≡◌, ◌<◌, ◌≤◌, ◌++◌, [], ℕ, List, Option, length, true, false};
ghost use Rattle.std.specs.Prelude.{Result};
ghost use Rattle.scan_base.specs.Limits.{most_path_bytes};
ghost use Rattle.grpc_frame.specs.declared.record.Record.TheVariants.{Open, Message, End};
ghost use Rattle.grpc_frame.specs.Records.{spelling};
ghost use Rattle.grpc_frame.specs.Ends.{CanFail, CountsFailure, FailsByTransport, Writes};
ghost use Rattle.grpc_frame.specs.Sending.{Sends, Sent};
ghost use Rattle.client_calls.specs.Calls.{path_of, call_bytes, Fit};
ghost use Rattle.client_calls.specs.inside.Parts.{WritesCall, outgoing_of};

use bytes::Bytes;
use grpc_frame::{MAX_MESSAGE_LEN, Outbox, Output};
use scan_base::Fault;
use std::alloc::Global;
use std::marker::Model;

/// The methods that are called.
#[derive(Clone, Copy, Debug, PartialEq, Eq)]
pub enum Method {
    /// Puts the rows of a stream into a table.
    DoPut,
    /// Asks where the rows of a query are fetched.
    GetFlightInfo,
    /// Fetches rows.
    DoGet,
    /// Expires old versions.
    DoAction,
}

const PUT_PATH: &[u8] = b"/arrow.flight.protocol.FlightService/DoPut";

const INFO_PATH: &[u8] = b"/arrow.flight.protocol.FlightService/GetFlightInfo";

const GET_PATH: &[u8] = b"/arrow.flight.protocol.FlightService/DoGet";

const ACTION_PATH: &[u8] = b"/arrow.flight.protocol.FlightService/DoAction";

// The kind bytes of the records that begin and end a call.
const OPEN: u8 = 1;

const END: u8 = 3;

impl Method {
    // The path of the method.
    fn path(self) -> &'static [u8]
        ensures path { result.now ≡ path_of self }
        ensures short { length result.now ≤ most_path_bytes }
    {
        match self {
            Method::DoPut => PUT_PATH,
            Method::GetFlightInfo => INFO_PATH,
            Method::DoGet => GET_PATH,
            Method::DoAction => ACTION_PATH,
        }
    }
}

/// A message of a call: a head that is made for it, and a body, which is not copied. A contract
/// sees its bytes.
#[derive(Drop)]
pub(crate) struct Payload {
    pub head: Vec<u8>,
    pub body: Bytes,
}

impl Model for Payload {
    ghost use Rattle.std.specs.Prelude.{◌++◌, ℕ, List};

    ghost Value = { List ℕ };

    ghost view = { λ payload. payload.head.items ++ payload.body };
}

impl Payload {
    // It fits a record.
    pub(crate) fn is_short(&self) -> bool
        ensures yes { result ≡ true → length self.now ≤ 16777216 }
        ensures no { result ≡ false → 16777216 < length self.now }
    {
        self.head.len().saturating_add(self.body.len()) <= MAX_MESSAGE_LEN
    }

    // How many bytes it has.
    fn len(&self) -> usize
        requires { length self.now ≤ 16777216 }
        ensures { result ≡ length self.now }
    {
        self.head.len() + self.body.len()
    }
}

// Each message fits a record.
#[tactic(auto, using(crate::proofs::Sending::one_fits, crate::proofs::Sending::not_fits))]
fn all_fit(messages: &[Payload]) -> bool
    ensures yes { result ≡ true → Fit messages.now }
    ensures no { result ≡ false → ¬ Fit messages.now }
{
    for message in messages {
        if !message.is_short() {
            return false;
        }
    }
    true
}

// Sends an Open.
fn send_open<W: Output>(outbox: &mut Outbox, writer: &mut W, method: Method) -> Result<(), Fault>
    requires { CanFail (W.failures writer.old) }
    ensures bytes { Sends result (W.contents writer.old) (W.contents writer.new)
        outbox.old outbox.new (spelling (Open (path_of method))) }
    ensures counted { CountsFailure result (W.failures writer.old) (W.failures writer.new) }
    ensures kind { FailsByTransport result }
{
    let path = method.path();
    let [high, low] = (path.len() as u16).to_be_bytes();
    outbox.send_parts(writer, &[OPEN, high, low], path)
}

/// Sends a Message.
pub(crate) fn send_payload<W: Output>(
    outbox: &mut Outbox,
    writer: &mut W,
    message: &Payload,
) -> Result<(), Fault>
    requires failures { CanFail (W.failures writer.old) }
    requires short { length message.now ≤ 16777216 }
    ensures bytes { Sends result (W.contents writer.old) (W.contents writer.new)
        outbox.old outbox.new (spelling (Message message.now)) }
    ensures counted { CountsFailure result (W.failures writer.old) (W.failures writer.new) }
    ensures kind { FailsByTransport result }
{
    outbox.send_message_head(writer, message.len())?;
    outbox.send_parts(writer, &message.head, message.body.as_slice())
}

// Sends a call.
fn send_call<W: Output>(
    outbox: &mut Outbox,
    writer: &mut W,
    method: Method,
    messages: &[Payload],
) -> Result<(), Fault>
    requires failures { CanFail (W.failures writer.old) }
    requires fit { Fit messages.now }
    ensures bytes { Sends result (W.contents writer.old) (W.contents writer.new)
        outbox.old outbox.new (call_bytes method messages.now) }
    ensures counted { CountsFailure result (W.failures writer.old) (W.failures writer.new) }
    ensures kind { FailsByTransport result }
{
    send_open(outbox, writer, method)?;
    for message in messages {
        send_payload(outbox, writer, message)?;
    }
    outbox.send_part(writer, &[END])
}

/// Sends the Open of a call and its first message.
pub(crate) fn begin_call<W: Output>(
    outbox: &mut Outbox,
    writer: &mut W,
    method: Method,
    message: &Payload,
) -> Result<(), Fault>
    requires failures { CanFail (W.failures writer.old) }
    requires short { length message.now ≤ 16777216 }
    ensures bytes { Sends result (W.contents writer.old) (W.contents writer.new)
        outbox.old outbox.new (spelling (Open (path_of method)) ++ spelling (Message message.now)) }
    ensures counted { CountsFailure result (W.failures writer.old) (W.failures writer.new) }
    ensures kind { FailsByTransport result }
{
    send_open(outbox, writer, method)?;
    send_payload(outbox, writer, message)
}

/// Sends the End of a call, and writes what waits.
pub(crate) fn end_call<W: Output>(outbox: &mut Outbox, writer: &mut W) -> Result<(), Fault>
    requires { CanFail (W.failures writer.old) }
    ensures bytes { (start : Option (List ℕ)) (bytes : List ℕ) →
        Sent start (W.contents writer.old) [] outbox.old bytes →
        Writes result start (W.contents writer.new) (bytes ++ spelling End) }
    ensures counted { CountsFailure result (W.failures writer.old) (W.failures writer.new) }
    ensures kind { FailsByTransport result }
{
    outbox.send_part(writer, &[END])?;
    outbox.flush(writer)
}

/// Writes a call of a method with these messages. Where it is small it is one write.
///
/// # Errors
///
/// - F2 (`Fault::MessageTooLarge`) where a message has more than `MAX_MESSAGE_LEN` bytes. Nothing
///   is written then.
/// - F22 (`Fault::Transport`) where a write failed. It is counted, and a beginning of the call is
///   written.
pub(crate) fn write_call<W: Output>(
    alloc: Global,
    writer: &mut W,
    method: Method,
    messages: &[Payload],
) -> Result<(), Fault>
    requires { CanFail (W.failures writer.old) }
    ensures { WritesCall result method messages.now
        (outgoing_of (W.contents writer.old) (W.failures writer.old))
        (outgoing_of (W.contents writer.new) (W.failures writer.new)) }
{
    if !all_fit(messages) {
        return Err(Fault::MessageTooLarge);
    }
    let mut outbox = Outbox::new(alloc);
    send_call(&mut outbox, writer, method, messages)?;
    outbox.flush(writer)
}
