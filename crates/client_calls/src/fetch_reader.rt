//! Fetching a stream batch by batch.

ghost use Rattle.std.specs.Prelude.{◌≡◌, ◌<◌, ◌≤◌, [], ◌∷◌, Ok, Err, Some, IfOk, IfSome};
ghost use Rattle.std.specs.Prelude.{MatchResult, length};
ghost use Rattle.arrow_types.specs.Schema.{IsSchema};
ghost use Rattle.scan_base.specs.Limits.{most_columns};
ghost use Rattle.grpc_frame.specs.Ends.{CanFail};
ghost use Rattle.ipc_batch.specs.State.{Known};
ghost use Rattle.ipc_batch.specs.SaidRows.{HasColumns};
ghost use Rattle.flight_info.specs.Payloads.{Payload as Bytes};
ghost use Rattle.flight_client.specs.Stream.{StreamAt};
ghost use Rattle.client_calls.specs.declared.call.Method.TheVariants.{DoGet};
ghost use Rattle.client_calls.specs.StreamAnswers.{AnswersStream};
ghost use Rattle.client_calls.specs.Outcome.{Calls, Line};
ghost use Rattle.client_calls.specs.Taking.{BeginsFetch, FetchGives, IsFetchReader, KeepsSchema};
ghost use Rattle.client_calls.specs.Taking.{TakesNext};
ghost use Rattle.client_calls.specs.inside.Parts.{IsOpen, SendsCall};

use crate::call::{Method, Payload};
use crate::connection::Connection;
use crate::failure::Failure;
use crate::fetch_piece::{FetchPiece, take_batch, take_payload};
use crate::fetching::ticket_payload;
use arrays::Batch;
use arrow_types::Schema;
use flight_client::StreamReader;
use grpc_frame::{Inbox, Input, Output};
use scan_base::Fault;
use std::alloc::Global;
use std::marker::Model;

/// A fetch whose answer is taken batch by batch, so that memory holds one payload at a time. The
/// payload of its schema came. A contract sees a `FetchAt`.
///
/// It has the connection until its stream has ended: so no other call is made before.
pub struct FetchReader<R: Input, W: Output> {
    inbox: Inbox,
    reader: R,
    writer: W,
    stopped: Option<Fault>,
    stream: StreamReader,
}

// Written out, so that dropping it is one call (docs/DECISIONS.md).
impl<R: Input + Drop, W: Output + Drop> Drop for FetchReader<R, W> {
    fn drop(self) {
        let FetchReader {
            inbox: _,
            reader: _,
            writer: _,
            stopped: _,
            stream: _,
        } = self;
    }
}

impl<R: Input, W: Output> Model for FetchReader<R, W> {
    ghost use Rattle.std.specs.Prelude.{◌≡◌, Some};
    ghost use Rattle.arrow_types.specs.Schema.{IsSchema};
    ghost use Rattle.grpc_frame.specs.declared.place.Place.TheVariants.{InAnswer};
    ghost use Rattle.grpc_frame.specs.Arrivals.{work_left};
    ghost use Rattle.ipc_batch.specs.State.{Known};
    ghost use Rattle.client_calls.specs.Outcome.{left_of};
    ghost use Rattle.client_calls.specs.Taking.{FetchAt};

    ghost Value = { FetchAt };

    ghost view = { λ f. record {
      line = record {
        incoming = record {
          input = R.tape f.reader;
          failed = R.failures f.reader;
          left = left_of f.stopped f.inbox;
        };
        outgoing = record { output = W.contents f.writer; failed = W.failures f.writer };
      };
      state = f.stream;
      work = work_left (R.turns f.reader) f.inbox;
    } };

    ghost invariant = { λ f. (f.inbox.place ≡ InAnswer)
        × ((known : Known) × (f.stream ≡ Some known) × IsSchema known.schema) };
}

impl<R: Input + Drop, W: Output + Drop> FetchReader<R, W> {
    /// Asks for what a ticket stands for, and takes the first payload of the answer, which says the
    /// schema.
    ///
    /// # Errors
    ///
    /// Those of `fetch`, of which the connection is closed; and `Failure::Found` with F8
    /// (`Fault::BadBatch`) where the stream ended without a schema.
    pub fn begin(
        alloc: Global,
        mut connection: Connection<R, W>,
        ticket: &[u8],
    ) -> Result<FetchReader<R, W>, Failure>
        requires reads { CanFail (connection.incoming.failed) }
        requires writes { CanFail (connection.outgoing.failed) }
        ensures { BeginsFetch (λ fetching. fetching) ticket.now result connection }
    {
        ask(alloc, &mut connection, ticket)?;
        take_schema(alloc, connection)
    }

    /// The schema of the stream.
    pub fn schema(&self) -> &Schema
        ensures value { (known : Known) → self.now.state ≡ Some known → result.now ≡ known.schema }
        ensures valid { IsSchema result.now }
    {
        match self.stream.schema() {
            Some(schema) => schema,
            None => unreachable!(),
        }
    }

    /// Takes the next batch, or nothing where the stream has ended with status 0. It has a column
    /// for each field of the schema, of its type.
    ///
    /// # Errors
    ///
    /// Those of `fetch`.
    pub fn next(&mut self, alloc: Global) -> Result<Option<Batch>, Failure>
        requires { CanFail (self.old.line.incoming.failed) }
        ensures next { (ticket : Bytes) (stream : StreamAt) (begun : Line) →
            stream.state ≡ self.old.state → IsFetchReader ticket stream begun self.old.line →
            TakesNext ticket stream begun result self.new.state self.new.line }
        ensures columns { IfOk result (λ batch. HasColumns batch self.new.state) }
        ensures few { IfOk result (λ batch. IfSome batch (λ b. length b.columns ≤ most_columns)) }
        ensures kept { KeepsSchema self.old.state self.new.state }
        ensures quiet { IfOk result
            (λ _. self.new.line.incoming.failed ≡ self.old.line.incoming.failed) }
        ensures sends { self.new.line.outgoing ≡ self.old.line.outgoing }
        ensures fewer { IfOk result (λ batch. IfSome batch (λ _. self.new.work < self.old.work)) }
    {
        if let Some(fault) = self.stopped {
            return Err(Failure::Found(fault));
        }
        match take_batch(alloc, &mut self.inbox, &mut self.reader, &mut self.stream) {
            Ok(taken) => taken,
            Err(fault) => {
                self.stopped = Some(fault);
                Err(Failure::Found(fault))
            }
        }
    }

    /// The connection, for the next call, and the schema.
    pub fn end(self) -> (Connection<R, W>, Schema)
        ensures connection { result.0 ≡ self.line }
        ensures schema { (known : Known) → self.state ≡ Some known → result.1 ≡ known.schema }
        ensures valid { IsSchema result.1 }
    {
        let FetchReader {
            inbox,
            reader,
            writer,
            stopped,
            stream,
        } = self;
        let connection = Connection {
            inbox,
            reader,
            writer,
            stopped,
        };
        match stream.into_schema() {
            Some(schema) => (connection, schema),
            None => unreachable!(),
        }
    }
}

// Writes a fetch.
fn send_fetch<R: Input, W: Output>(
    alloc: Global,
    connection: &mut Connection<R, W>,
    messages: &[Payload],
) -> Result<(), Failure>
    requires writes { CanFail (connection.old.outgoing.failed) }
    requires is_open { IsOpen connection.old }
    ensures { MatchResult result
        (λ _. SendsCall (Ok tt) DoGet messages.now connection.old connection.new)
        (λ failure. Calls DoGet messages.now AnswersStream
        (Err failure) connection.old connection.new) }
{
    connection.send(alloc, Method::DoGet, messages)?;
    Ok(())
}

// Asks for what a ticket stands for.
fn ask<R: Input, W: Output>(
    alloc: Global,
    connection: &mut Connection<R, W>,
    ticket: &[u8],
) -> Result<(), Failure>
    requires { CanFail (connection.old.outgoing.failed) }
    ensures { MatchResult result
        (λ _. IsOpen connection.old
        × SendsCall (Ok tt) DoGet (ticket.now ∷ []) connection.old connection.new)
        (λ failure. FetchGives ticket.now (Err failure) connection.old connection.new) }
{
    connection.check()?;
    let payloads = ticket_payload(alloc, ticket)?;
    send_fetch(alloc, connection, &payloads)
}

// Takes the first payload of an answer, which says the schema.
fn take_schema<R: Input + Drop, W: Output + Drop>(
    alloc: Global,
    connection: Connection<R, W>,
) -> Result<FetchReader<R, W>, Failure>
    requires reads { CanFail (connection.incoming.failed) }
    requires is_open { IsOpen connection }
    ensures { (ticket : Bytes) (begun : Line) →
        SendsCall (Ok tt) DoGet (ticket ∷ []) begun connection →
        BeginsFetch (λ fetching. fetching) ticket result begun }
{
    let (mut inbox, mut reader, writer) = connection.into_parts();
    let mut stream = StreamReader::new();
    match take_payload(alloc, &mut inbox, &mut reader, &mut stream) {
        Ok(Ok(FetchPiece::Payload(_))) => {
            let _schema = stream.schema();
            Ok(FetchReader {
                inbox,
                reader,
                writer,
                stopped: None,
                stream,
            })
        }
        Ok(Ok(FetchPiece::End)) => Err(Failure::Found(Fault::BadBatch)),
        Ok(Err(failure)) => Err(failure),
        Err(fault) => Err(Failure::Found(fault)),
    }
}
