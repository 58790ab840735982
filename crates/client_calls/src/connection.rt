//! A client's connection.

ghost use Rattle.std.specs.Prelude.{◌≡◌, ◌≢◌, ◌≤◌, ◌++◌, [], List, Some, None, Ok, OnOk};
ghost use Rattle.std.specs.Prelude.{MatchResult, length};
ghost use Rattle.grpc_frame.specs.Ends.{CanFail};
ghost use Rattle.scan_base.specs.declared.fault.Fault.TheVariants.{Transport};
ghost use Rattle.grpc_frame.specs.declared.place.Place.TheVariants.{InAnswer};
ghost use Rattle.grpc_frame.specs.declared.record.Record.TheVariants.{Open, Message};
ghost use Rattle.grpc_frame.specs.Records.{spelling};
ghost use Rattle.flight_info.specs.Payloads.{Payload as PayloadBytes};
ghost use Rattle.client_calls.specs.declared.call.Method.TheVariants.{DoGet, DoPut};
ghost use Rattle.client_calls.specs.Answers.{AnswersOne};
ghost use Rattle.client_calls.specs.StreamAnswers.{AnswersStream};
ghost use Rattle.client_calls.specs.Calls.{path_of};
ghost use Rattle.client_calls.specs.Outcome.{Calls, Line};
ghost use Rattle.client_calls.specs.Sending.{IsPutWriter, put_at};
ghost use Rattle.client_calls.specs.inside.Parts.{IsOpen, HasStopped, SendsCall, SendsPart};
ghost use Rattle.client_calls.specs.inside.Parts.{StopsAt, Receives, line_of, outgoing_of};

use crate::answer::{read_one, read_stream};
use crate::call::{Method, Payload, begin_call, end_call, send_payload, write_call};
use crate::failure::Failure;
use bytes::Bytes;
use flight_client::Stream;
use grpc_frame::{Inbox, Input, Outbox, Output};
use scan_base::Fault;
use std::alloc::Global;
use std::marker::Model;

/// A client's connection: what it reads from, what it writes to, and what came and is not taken
/// yet. A contract sees a `Line`.
///
/// Where a write of a call failed, or its answer did not come to its Status, the connection has
/// stopped: each further call gives the same fault, and does nothing.
pub struct Connection<R: Input, W: Output> {
    pub(crate) inbox: Inbox,
    pub(crate) reader: R,
    pub(crate) writer: W,
    pub(crate) stopped: Option<Fault>,
}

// Written out, so that dropping it is one call (docs/DECISIONS.md).
impl<R: Input + Drop, W: Output + Drop> Drop for Connection<R, W> {
    fn drop(self) {
        let Connection {
            inbox: _,
            reader: _,
            writer: _,
            stopped: _,
        } = self;
    }
}

impl<R: Input, W: Output> Model for Connection<R, W> {
    ghost use Rattle.std.specs.Prelude.{◌≡◌};
    ghost use Rattle.grpc_frame.specs.declared.place.Place.TheVariants.{InAnswer};
    ghost use Rattle.client_calls.specs.Outcome.{Line, left_of};

    ghost Value = { Line };

    ghost view = { λ c. record {
      incoming = record {
        input = R.tape c.reader;
        failed = R.failures c.reader;
        left = left_of c.stopped c.inbox;
      };
      outgoing = record { output = W.contents c.writer; failed = W.failures c.writer };
    } };

    ghost invariant = { λ c. c.inbox.place ≡ InAnswer };
}

// The fault by which a call that was not written stops a connection: a write of it failed.
fn stop_of(fault: Fault) -> Option<Fault>
    ensures yes { fault ≡ Transport → result ≡ Some Transport }
    ensures no { fault ≢ Transport → result ≡ None }
{
    match fault {
        Fault::Transport => Some(fault),
        _ => None,
    }
}

impl<R: Input, W: Output> Connection<R, W> {
    /// A connection over these ends, of which nothing came. It takes no memory.
    pub fn new(alloc: Global, reader: R, writer: W) -> Connection<R, W>
        ensures { result ≡ record {
          incoming = record {
            input = R.tape reader;
            failed = R.failures reader;
            left = Ok (record { bytes = []; place = InAnswer });
          };
          outgoing = record { output = W.contents writer; failed = W.failures writer };
        } }
    {
        Connection {
            inbox: Inbox::of_client(alloc),
            reader,
            writer,
            stopped: None,
        }
    }

    /// What is read from.
    pub fn reader(&self) -> &R
        ensures input { R.tape result.now ≡ self.now.incoming.input }
        ensures failed { R.failures result.now ≡ self.now.incoming.failed }
    {
        &self.reader
    }

    /// What is written to.
    pub fn writer(&self) -> &W
        ensures output { W.contents result.now ≡ self.now.outgoing.output }
        ensures failed { W.failures result.now ≡ self.now.outgoing.failed }
    {
        &self.writer
    }

    // The fault by which a call stopped.
    pub(crate) fn check(&self) -> Result<(), Fault>
        ensures { MatchResult result (λ _. IsOpen self.now) (λ fault. HasStopped fault self.now) }
    {
        match self.stopped {
            None => Ok(()),
            Some(fault) => Err(fault),
        }
    }

    // A connection that is open, by its parts.
    pub(crate) fn into_parts(self) -> (Inbox, R, W)
        requires { IsOpen self }
        ensures place { result.0.place ≡ InAnswer }
        ensures line { line_of (R.tape result.1) (R.failures result.1) None result.0
            (outgoing_of (W.contents result.2) (W.failures result.2)) ≡ self }
    {
        let Connection {
            inbox,
            reader,
            writer,
            stopped: _,
        } = self;
        (inbox, reader, writer)
    }

    // Writes a call.
    pub(crate) fn send(
        &mut self,
        alloc: Global,
        method: Method,
        messages: &[Payload],
    ) -> Result<(), Fault>
        requires writes { CanFail (self.old.outgoing.failed) }
        requires is_open { IsOpen self.old }
        ensures { SendsCall result method messages.now self.old self.new }
    {
        match write_call(alloc, &mut self.writer, method, messages) {
            Ok(()) => Ok(()),
            Err(fault) => {
                self.stopped = stop_of(fault);
                Err(fault)
            }
        }
    }

    // Stops by a fault.
    pub(crate) fn stop(&mut self, fault: Fault)
        requires { IsOpen self.old }
        ensures { StopsAt fault self.old self.new }
    {
        self.stopped = Some(fault);
    }

    // Sends the Open of a call and its first message.
    pub(crate) fn begin_call(
        &mut self,
        outbox: &mut Outbox,
        method: Method,
        message: &Payload,
    ) -> Result<(), Fault>
        requires writes { CanFail (self.old.outgoing.failed) }
        requires is_open { IsOpen self.old }
        requires short { length message.now ≤ 16777216 }
        ensures { SendsPart result
            (spelling (Open (path_of method)) ++ spelling (Message message.now))
            self.old self.new outbox.old outbox.new }
    {
        match begin_call(outbox, &mut self.writer, method, message) {
            Ok(()) => Ok(()),
            Err(fault) => {
                self.stopped = Some(fault);
                Err(fault)
            }
        }
    }

    // Sends one message more of a call.
    pub(crate) fn send_message(
        &mut self,
        outbox: &mut Outbox,
        message: &Payload,
    ) -> Result<(), Fault>
        requires writes { CanFail (self.old.outgoing.failed) }
        requires is_open { IsOpen self.old }
        requires short { length message.now ≤ 16777216 }
        ensures { SendsPart result
            (spelling (Message message.now)) self.old self.new outbox.old outbox.new }
    {
        match send_payload(outbox, &mut self.writer, message) {
            Ok(()) => Ok(()),
            Err(fault) => {
                self.stopped = Some(fault);
                Err(fault)
            }
        }
    }

    // Ends a put: sends its End, and writes what waits.
    pub(crate) fn end_call(&mut self, outbox: &mut Outbox) -> Result<(), Fault>
        requires writes { CanFail (self.old.outgoing.failed) }
        requires is_open { IsOpen self.old }
        ensures ended { (messages : List PayloadBytes) (begun : Line) →
            IsPutWriter messages begun (put_at self.old outbox.old) →
            SendsCall result DoPut messages begun self.new }
        ensures unread { OnOk result (self.new.incoming ≡ self.old.incoming) }
    {
        match end_call(outbox, &mut self.writer) {
            Ok(()) => Ok(()),
            Err(fault) => {
                self.stopped = Some(fault);
                Err(fault)
            }
        }
    }

    // Reads an answer of one message.
    pub(crate) fn receive_one(&mut self) -> Result<Bytes, Failure>
        requires reads { CanFail (self.old.incoming.failed) }
        requires is_open { IsOpen self.old }
        ensures { Receives (AnswersOne (λ given message. given ≡ Ok message) result)
            self.old self.new }
    {
        match read_one(&mut self.inbox, &mut self.reader) {
            Ok(answer) => answer,
            Err(fault) => {
                self.stopped = Some(fault);
                Err(Failure::Found(fault))
            }
        }
    }

    // Reads an answer of payloads.
    fn receive_stream(&mut self, alloc: Global) -> Result<Stream, Failure>
        requires reads { CanFail (self.old.incoming.failed) }
        requires is_open { IsOpen self.old }
        ensures { Receives (AnswersStream result) self.old self.new }
    {
        match read_stream(alloc, &mut self.inbox, &mut self.reader) {
            Ok(answer) => answer,
            Err(fault) => {
                self.stopped = Some(fault);
                Err(Failure::Found(fault))
            }
        }
    }

    // Makes a call whose answer is one message.
    pub(crate) fn call(
        &mut self,
        alloc: Global,
        method: Method,
        messages: &[Payload],
    ) -> Result<Bytes, Failure>
        requires reads { CanFail (self.old.incoming.failed) }
        requires writes { CanFail (self.old.outgoing.failed) }
        requires is_open { IsOpen self.old }
        ensures { Calls method messages.now (AnswersOne (λ given message. given ≡ Ok message))
            result self.old self.new }
    {
        self.send(alloc, method, messages)?;
        self.receive_one()
    }

    // Makes a call whose answer is payloads.
    pub(crate) fn call_for_stream(
        &mut self,
        alloc: Global,
        messages: &[Payload],
    ) -> Result<Stream, Failure>
        requires reads { CanFail (self.old.incoming.failed) }
        requires writes { CanFail (self.old.outgoing.failed) }
        requires is_open { IsOpen self.old }
        ensures { Calls DoGet messages.now AnswersStream result self.old self.new }
    {
        self.send(alloc, Method::DoGet, messages)?;
        self.receive_stream(alloc)
    }
}
