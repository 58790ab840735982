//! Putting a stream message by message.

ghost use Rattle.std.specs.Prelude.{◌≡◌, ◌∷◌, [], ◌++◌, List, OnOk, MatchResult};
ghost use Rattle.grpc_frame.specs.Ends.{CanFail};
ghost use Rattle.flight_info.specs.Payloads.{Payload as Bytes};
ghost use Rattle.client_calls.specs.declared.call.Method.TheVariants.{DoPut};
ghost use Rattle.client_calls.specs.Answers.{AnswersOne};
ghost use Rattle.client_calls.specs.Commands.{put_payloads, ReadsCount};
ghost use Rattle.client_calls.specs.Outcome.{Calls, Line};
ghost use Rattle.client_calls.specs.Sending.{BeginsPut, FailsPut, IsPutWriter, SendsPut};
ghost use Rattle.client_calls.specs.Sending.{later_payload, put_at};

use crate::call::Method;
use crate::connection::Connection;
use crate::failure::Failure;
use crate::put_call::{Target, first_message, later_message, read_count};
use grpc_frame::{Input, Outbox, Output};
use ipc_stream::IpcMessage;
use std::alloc::Global;
use std::marker::Model;

/// A put that is sent message by message, so that memory holds one message at a time. A contract
/// sees a `PutAt`.
///
/// It has the connection until its End is sent: so no other call is made before. What comes of it
/// meanwhile is read then. Where it is dropped before, its End is never sent, and the server puts
/// nothing.
pub struct PutWriter<R: Input, W: Output> {
    connection: Connection<R, W>,
    outbox: Outbox,
}

// Written out, so that dropping it is one call (docs/DECISIONS.md).
impl<R: Input + Drop, W: Output + Drop> Drop for PutWriter<R, W> {
    fn drop(self) {
        let PutWriter {
            connection: _,
            outbox: _,
        } = self;
    }
}

impl<R: Input, W: Output> Model for PutWriter<R, W> {
    ghost use Rattle.client_calls.specs.Sending.{PutAt};

    ghost Value = { PutAt };

    ghost view = { λ putting. record { line = putting.connection; waiting = putting.outbox } };
}

impl<R: Input + Drop, W: Output + Drop> PutWriter<R, W> {
    /// Begins a put: sends the command and the first message of the stream, which says its schema.
    ///
    /// # Errors
    ///
    /// `Failure::Found`, and the connection is closed. At most a beginning of the put is written,
    /// without its End:
    /// - F2 (`Fault::MessageTooLarge`) where the message would have more than 16,777,216 bytes.
    /// - F21 (`Fault::OutOfMemory`) where memory is refused.
    /// - F22 (`Fault::Transport`) where a write failed, which is counted.
    /// - The fault by which a call before it stopped.
    pub fn begin(
        alloc: Global,
        mut connection: Connection<R, W>,
        target: Target<'_>,
        message: &IpcMessage,
    ) -> Result<PutWriter<R, W>, Failure>
        requires { CanFail (connection.outgoing.failed) }
        ensures { BeginsPut (λ putting. putting) target.entry message.now result connection }
    {
        let outbox = begin_put(alloc, &mut connection, target, message)?;
        Ok(PutWriter { connection, outbox })
    }

    /// Sends the next message of the stream. Its body is written as it lies.
    ///
    /// # Errors
    ///
    /// Those of `begin`. The put is cut short, and its End is never sent: each further call gives
    /// the same fault.
    pub fn send(&mut self, alloc: Global, message: &IpcMessage) -> Result<(), Failure>
        requires { CanFail (self.old.line.outgoing.failed) }
        ensures sent { (messages : List Bytes) (begun : Line) →
            IsPutWriter messages begun self.old →
            SendsPut result (messages ++ later_payload message.now ∷ []) begun self.new }
        ensures quiet { OnOk result
            (self.new.line.outgoing.failed ≡ self.old.line.outgoing.failed) }
    {
        self.connection.check()?;
        let payload = match later_message(alloc, message) {
            Ok(payload) => payload,
            Err(fault) => {
                self.connection.stop(fault);
                return Err(Failure::Found(fault));
            }
        };
        self.connection.send_message(&mut self.outbox, &payload)?;
        Ok(())
    }

    /// Ends the put: the connection, for the next call, and how many rows were put.
    ///
    /// # Errors
    ///
    /// Those of `put`.
    pub fn end(self) -> (Connection<R, W>, Result<u64, Failure>)
        requires reads { CanFail (self.line.incoming.failed) }
        requires writes { CanFail (self.line.outgoing.failed) }
        ensures { (messages : List Bytes) (begun : Line) → IsPutWriter messages begun self →
            Calls DoPut messages (AnswersOne ReadsCount) result.1 begun result.0 }
    {
        let PutWriter {
            mut connection,
            mut outbox,
        } = self;
        let counted = end_put(&mut connection, &mut outbox);
        (connection, counted)
    }
}

// Sends the beginning of a put.
fn begin_put<R: Input, W: Output>(
    alloc: Global,
    connection: &mut Connection<R, W>,
    target: Target<'_>,
    message: &IpcMessage,
) -> Result<Outbox, Failure>
    requires { CanFail (connection.old.outgoing.failed) }
    ensures { MatchResult result
        (λ outbox. IsPutWriter (put_payloads target.entry (message.now ∷ [])) connection.old
        (put_at connection.new outbox))
        (λ failure. FailsPut failure
        (put_payloads target.entry (message.now ∷ [])) connection.old connection.new) }
{
    connection.check()?;
    match first_message(alloc, target, message) {
        Ok(payload) => {
            let mut outbox = Outbox::new(alloc);
            connection.begin_call(&mut outbox, Method::DoPut, &payload)?;
            Ok(outbox)
        }
        Err(fault) => {
            connection.stop(fault);
            Err(Failure::Found(fault))
        }
    }
}

// Sends the End of a put, and reads the count.
fn end_put<R: Input, W: Output>(
    connection: &mut Connection<R, W>,
    outbox: &mut Outbox,
) -> Result<u64, Failure>
    requires reads { CanFail (connection.old.incoming.failed) }
    requires writes { CanFail (connection.old.outgoing.failed) }
    ensures { (messages : List Bytes) (begun : Line) →
        IsPutWriter messages begun (put_at connection.old outbox.old) →
        Calls DoPut messages (AnswersOne ReadsCount) result begun connection.new }
{
    connection.check()?;
    connection.end_call(outbox)?;
    let message = connection.receive_one()?;
    Ok(read_count(message.as_slice())?)
}
