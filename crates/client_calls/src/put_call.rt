//! Putting a stream into a table.

ghost use Rattle.std.specs.Prelude.{◌≡◌, ◌≤◌, ◌∷◌, [], ◌++◌, length, map, None, IfOk, OnOk};
ghost use Rattle.std.specs.Prelude.{MatchResult};
ghost use Rattle.scan_base.specs.declared.fault.Fault.TheVariants.{MessageTooLarge};
ghost use Rattle.grpc_frame.specs.Ends.{CanFail};
ghost use Rattle.flight_proto.specs.FlightData.{data_bytes};
ghost use Rattle.flight_proto.specs.StatementIngest.{options_said};
ghost use Rattle.client_calls.specs.declared.call.Method.TheVariants.{DoPut};
ghost use Rattle.client_calls.specs.Answers.{AnswersOne};
ghost use Rattle.client_calls.specs.Commands.{options_of_mode, put_payloads, carried_in};
ghost use Rattle.client_calls.specs.Commands.{ReadsCount};
ghost use Rattle.client_calls.specs.Calls.{Fit};
ghost use Rattle.client_calls.specs.Outcome.{Calls};
ghost use Rattle.client_calls.specs.Sending.{later_payload};
ghost use Rattle.client_calls.specs.inside.Parts.{IsUnmade};
ghost use Rattle.client_calls.specs.inside.Heads.{put_command_bytes, first_payload};

use crate::call::{Method, Payload};
use crate::connection::Connection;
use crate::failure::Failure;
use bytes::Bytes;
use flight_proto::flight_descriptor::DESCRIPTOR_CMD;
use flight_proto::{
    Any, CommandStatementIngest, FlightDescriptor, TableDefinitionOptions, put_flight_data,
    put_flight_data_head, read_rows_put,
};
use grpc_frame::{Input, Output};
use ipc_stream::IpcMessage;
use scan_base::{Fault, PutMode};
use std::alloc::{AllocError, Global};

/// Where the rows of a put go.
#[derive(Clone, Copy, Debug, PartialEq, Eq)]
pub struct Target<'a> {
    /// The table's name.
    pub table: &'a str,
    /// What is done with the table.
    pub mode: PutMode,
}

// The URL of the command.
const INGEST_URL: &str = "type.googleapis.com/arrow.flight.protocol.sql.CommandStatementIngest";

// The options of the table's definition: CREATE and FAIL, FAIL and APPEND, or CREATE and REPLACE.
fn options(mode: PutMode) -> TableDefinitionOptions
    ensures { options_said result ≡ options_of_mode mode }
{
    let (if_not_exist, if_exists) = match mode {
        PutMode::Create => (1, 1),
        PutMode::Append => (2, 2),
        PutMode::Replace => (1, 3),
    };
    TableDefinitionOptions {
        if_not_exist,
        if_exists,
    }
}

// The beginning of a put's first message: the descriptor, which holds the command.
fn command_head(alloc: Global, target: Target<'_>) -> Result<Vec<u8>, AllocError>
    ensures { IfOk result (λ head. head.items ≡ put_command_bytes target.entry) }
{
    let mut value = Vec::new(alloc);
    CommandStatementIngest {
        table_definition_options: Some(options(target.mode)),
        table: target.table,
        schema: "",
        catalog: "",
        temporary: false,
        transaction_id: &[],
    }
    .put(&mut value)?;
    let mut cmd = Vec::new(alloc);
    Any {
        type_url: INGEST_URL,
        value: &value,
    }
    .put(&mut cmd)?;
    let mut head = Vec::new(alloc);
    let descriptor = FlightDescriptor {
        descriptor_type: DESCRIPTOR_CMD,
        cmd: &cmd,
    };
    put_flight_data(&mut head, Some(&descriptor), &[], &[])?;
    Ok(head)
}

// A FlightData of a message of the stream, after what is in its head.
#[tactic(auto, using(crate::proofs::Payloads::head_and_body))]
fn payload_of(head: Vec<u8>, message: &IpcMessage) -> Result<Payload, AllocError>
    ensures { IfOk result (λ payload. payload
        ≡ head.items ++ data_bytes None (carried_in message.now)) }
{
    let mut head = head;
    let body = message.body.clone()?;
    put_flight_data_head(&mut head, message.header.as_slice(), body.len() as u64)?;
    Ok(Payload { head, body })
}

// The first message of a put.
fn first_payload(
    alloc: Global,
    target: Target<'_>,
    messages: &[IpcMessage],
) -> Result<Payload, AllocError>
    ensures { IfOk result (λ payload. payload ≡ first_payload target.entry messages.now) }
{
    let head = command_head(alloc, target)?;
    match messages.first() {
        Some(message) => payload_of(head, message),
        None => Ok(Payload {
            head,
            body: Bytes::new(),
        }),
    }
}

// Adds a FlightData for each of these messages.
fn append_payloads(
    alloc: Global,
    payloads: &mut Vec<Payload>,
    messages: &[IpcMessage],
) -> Result<(), AllocError>
    ensures { OnOk result (payloads.new.items
        ≡ payloads.old.items
        ++ map (λ message. data_bytes None (carried_in message)) messages.now) }
{
    for message in messages {
        let payload = payload_of(Vec::new(alloc), message)?;
        payloads.push(payload)?;
    }
    Ok(())
}

// The messages of a put.
#[tactic(auto, using(crate::proofs::Payloads::first_and_others))]
fn put_payloads(
    alloc: Global,
    target: Target<'_>,
    messages: &[IpcMessage],
) -> Result<Vec<Payload>, AllocError>
    ensures { IfOk result (λ payloads. payloads.items ≡ put_payloads target.entry messages.now) }
{
    let mut payloads = Vec::with_capacity(alloc, messages.len().max(1))?;
    payloads.push(first_payload(alloc, target, messages)?)?;
    append_payloads(alloc, &mut payloads, messages.get(1..).unwrap_or(&[]))?;
    Ok(payloads)
}

// A message that fits a record.
fn short_payload(payload: Payload) -> Result<Payload, Fault>
    ensures { MatchResult result (λ made. (made ≡ payload) × (length made ≤ 16777216))
        (λ fault. (fault ≡ MessageTooLarge) × ¬ Fit (payload ∷ [])) }
{
    if payload.is_short() {
        return Ok(payload);
    }
    Err(Fault::MessageTooLarge)
}

/// The first message of a put, which fits a record.
///
/// # Errors
///
/// `Fault::MessageTooLarge` where it does not, and `Fault::OutOfMemory` where memory is refused.
pub(crate) fn first_message(
    alloc: Global,
    target: Target<'_>,
    message: &IpcMessage,
) -> Result<Payload, Fault>
    ensures { MatchResult result
        (λ made. (made ∷ [] ≡ put_payloads target.entry (message.now ∷ []))
        × (length made ≤ 16777216))
        (λ fault. IsUnmade fault (put_payloads target.entry (message.now ∷ []))) }
{
    let head = command_head(alloc, target)?;
    short_payload(payload_of(head, message)?)
}

/// A message of a put after the first, which fits a record.
///
/// # Errors
///
/// `Fault::MessageTooLarge` where it does not, and `Fault::OutOfMemory` where memory is refused.
pub(crate) fn later_message(alloc: Global, message: &IpcMessage) -> Result<Payload, Fault>
    ensures { MatchResult result
        (λ made. (made ≡ later_payload message.now) × (length made ≤ 16777216))
        (λ fault. IsUnmade fault (later_payload message.now ∷ [])) }
{
    short_payload(payload_of(Vec::new(alloc), message)?)
}

/// How many rows a PutResult says.
pub(crate) fn read_count(message: &[u8]) -> Result<u64, Fault>
    ensures { ReadsCount result message.now }
{
    let rows = read_rows_put(message)?;
    if rows < 0 {
        return Err(Fault::BadProto);
    }
    Ok(rows.cast_unsigned())
}

/// Puts the messages of an IPC stream into a table, and answers how many rows were put. The command
/// stands in the first message of the call, which holds it alone where the stream has none. Bodies
/// are written as they lie.
///
/// # Errors
///
/// `Failure::Answered` with the server's fault. `Failure::Found`:
/// - F1 (`Fault::BadFrame`) and F2 (`Fault::MessageTooLarge`) where a record of the answer is
///   faulty.
/// - F2 where a message of the call would have more than 16,777,216 bytes. Nothing is written then.
/// - F4 (`Fault::BadProto`) where the answer is not one PutResult of a count.
/// - F21 (`Fault::OutOfMemory`) where memory is refused, and the record at hand is not faulty: a
///   count takes none.
/// - F22 (`Fault::Transport`) where a read or a write failed, which is counted, or the input ended
///   inside the answer.
///
/// After a fault of this end the connection may have stopped.
pub fn put<R: Input, W: Output>(
    alloc: Global,
    connection: &mut Connection<R, W>,
    target: Target<'_>,
    messages: &[IpcMessage],
) -> Result<u64, Failure>
    requires reads { CanFail (connection.old.incoming.failed) }
    requires writes { CanFail (connection.old.outgoing.failed) }
    ensures { Calls DoPut (put_payloads target.entry messages.now)
        (AnswersOne ReadsCount) result connection.old connection.new }
{
    connection.check()?;
    let payloads = put_payloads(alloc, target, messages)?;
    let message = connection.call(alloc, Method::DoPut, &payloads)?;
    Ok(read_count(message.as_slice())?)
}
