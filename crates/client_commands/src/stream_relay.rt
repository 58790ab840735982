//! Rows that are written as they come, over one connection.

ghost use Rattle.std.specs.Prelude.{◌≡◌, ◌<◌, [], ℕ, List, Option, map, IfOk, IfSome};
ghost use Rattle.arrow_types.specs.declared.schema.Schema.{Schema};
ghost use Rattle.grpc_frame.specs.Ends.{CanFail};
ghost use Rattle.ipc_batch.specs.SaidRows.{HasColumns, Rows};
ghost use Rattle.flight_info.specs.Payloads.{Payload};
ghost use Rattle.flight_proto.specs.FlightInfo.{EndpointSaid, endpoint_said};
ghost use Rattle.flight_client.specs.Stream.{StreamAt};
ghost use Rattle.client_calls.specs.Outcome.{Line};
ghost use Rattle.client_calls.specs.Taking.{IsFetchReader, KeepsSchema, TakesNext};
ghost use Rattle.command_ends.specs.Printing.{Said, said_of};
ghost use Rattle.client_commands.specs.Lines.{CanCount, SameCounts};
ghost use Rattle.client_commands.specs.inside.OneStream.{BreaksAtFailure, FitsSchema, IsUnderWay};
ghost use Rattle.client_commands.specs.inside.OneStream.{WritesBatches};
ghost use Rattle.client_commands.specs.inside.Runs.{AreSent, ChecksColumns, HaveCome, IsOpen};
ghost use Rattle.client_commands.specs.inside.Runs.{Opens, WritesNext, WritesRun};

use crate::row_writer::RowWriter;
use arrays::Batch;
use client_calls::{Connection, Failure, FetchReader};
use flight_proto::FlightEndpoint;
use grpc_frame::{Input, Output};
use scan_base::{Fault, HashSeed};
use std::alloc::Global;
use std::marker::Model;
use table_versions::same_fields;

/// What rows are written by: whence memory is taken, what the hashes of texts begin with, and the
/// server's port.
#[derive(Clone, Copy)]
pub(crate) struct WriteOptions {
    pub(crate) alloc: Global,
    pub(crate) seed: HashSeed,
    pub(crate) port: u16,
}

/// A stream that is begun and has the columns that are written, and who writes its rows. A contract
/// sees a `OpenAt`.
#[derive(Drop)]
pub(crate) struct OpenStream<R: Input, W: Output, F: RowWriter> {
    fetching: FetchReader<R, W>,
    writer: F,
}

impl<R: Input, W: Output, F: RowWriter> Model for OpenStream<R, W, F> {
    ghost use Rattle.client_commands.specs.Lines.{CanCount};
    ghost use Rattle.client_commands.specs.inside.OneStream.{FitsSchema};
    ghost use Rattle.client_commands.specs.inside.Runs.{OpenAt};

    ghost Value = { OpenAt };

    ghost view = { λ p. record { fetch = p.fetching; writer = F.state p.writer } };

    ghost invariant = { λ p. FitsSchema p.fetching.state (F.state p.writer).schema
        × CanCount p.fetching.line };
}

// What goes on from one stream to the next of a run: the connection, and who writes.
struct Handover<R: Input, W: Output, F: RowWriter> {
    connection: Connection<R, W>,
    writer: F,
}

impl<R: Input, W: Output, F: RowWriter> Model for Handover<R, W, F> {
    ghost use Rattle.client_commands.specs.Lines.{CanCount};
    ghost use Rattle.client_commands.specs.inside.Runs.{HandoverAt};

    ghost Value = { HandoverAt };

    ghost view = { λ p. record { line = p.connection; writer = F.state p.writer } };

    ghost invariant = { λ p. CanCount p.connection };
}

/// Begins the stream of the first endpoint, and with its schema what is written.
///
/// # Errors
///
/// - `Failure::Answered` with the server's fault, and `Failure::Found` with one of this end, as
///   `FetchReader::begin` gives them: F8 (`Fault::BadBatch`) where the stream ended without a
///   schema.
/// - F21 and F22 as `RowWriter::begin` gives them.
pub(crate) fn begin_first<R: Input + Drop, W: Output + Drop, O: Output, F: RowWriter>(
    writing: WriteOptions,
    connection: Connection<R, W>,
    output: &mut O,
    endpoint: &FlightEndpoint,
) -> Result<OpenStream<R, W, F>, Failure>
    requires calls { CanCount connection }
    requires writes { CanFail (O.failures output.old) }
    ensures { Opens F.format (λ passing. passing) result [] (endpoint_said endpoint.now) connection
        (said_of O.Output output.old) (said_of O.Output output.new) }
{
    let fetching = FetchReader::begin(writing.alloc, connection, &endpoint.ticket)?;
    let writer = F::begin(writing.alloc, writing.seed, output, fetching.schema())?;
    Ok(OpenStream { fetching, writer })
}

/// Writes the rows of the stream that is begun, and of the streams of these endpoints, in turn over
/// its connection, which is closed after the last one.
///
/// # Errors
///
/// The first failure. What is written breaks off after some of the rows. Where a write failed, a
/// beginning of them was written.
/// - `Failure::Answered` with the server's fault, and `Failure::Found` with one of this end, as
///   `client_calls::fetch` gives them.
/// - F8 (`Fault::BadBatch`) where a stream ended without a schema.
/// - F11 (`Fault::SchemaMismatch`) where one has other columns than those that are written. None of
///   its rows is written.
/// - F12 (`Fault::LimitReached`), F21 and F22 as `RowWriter` gives them.
pub(crate) fn write_run<R: Input + Drop, W: Output + Drop, O: Output, F: RowWriter>(
    alloc: Global,
    passing: OpenStream<R, W, F>,
    output: &mut O,
    others: &[FlightEndpoint],
) -> Result<F, Failure>
    requires { CanFail (O.failures output.old) }
    ensures passes { WritesRun F.format F.state result passing (map endpoint_said others.now)
        (said_of O.Output output.old) (said_of O.Output output.new) }
    ensures counts { IfOk result (λ _. O.failures output.new ≡ O.failures output.old) }
{
    let mut passed = write_begun(alloc, passing, output)?;
    for endpoint in others {
        passed = write_next(alloc, passed, output, endpoint)?;
    }
    let Handover {
        connection: _,
        writer,
    } = passed;
    Ok(writer)
}

// Writes the rows of the stream of one more endpoint.
fn write_next<R: Input + Drop, W: Output + Drop, O: Output, F: RowWriter>(
    alloc: Global,
    passed: Handover<R, W, F>,
    output: &mut O,
    endpoint: &FlightEndpoint,
) -> Result<Handover<R, W, F>, Failure>
    requires { CanFail (O.failures output.old) }
    ensures passes { (before : List StreamAt) (front : List EndpointSaid) (line : Line)
        (begun : Said) →
        HaveCome F.format before front line begun passed (said_of O.Output output.old) →
        WritesNext F.format (λ passed. passed) result before front (endpoint_said endpoint.now)
        line begun (said_of O.Output output.new) }
    ensures counts { IfOk result (λ _. O.failures output.new ≡ O.failures output.old) }
{
    let passing = begin_next(alloc, passed, output, endpoint)?;
    write_begun(alloc, passing, output)
}

// Begins the stream of one more endpoint, where it has the columns that are written.
fn begin_next<R: Input + Drop, W: Output + Drop, O: Output, F: RowWriter>(
    alloc: Global,
    passed: Handover<R, W, F>,
    output: &mut O,
    endpoint: &FlightEndpoint,
) -> Result<OpenStream<R, W, F>, Failure>
    requires { CanFail (O.failures output.old) }
    ensures opens { (streams : List StreamAt) (begun : Said) →
        AreSent F.format streams begun passed.writer (said_of O.Output output.old) →
        Opens F.format (λ passing. passing) result streams (endpoint_said endpoint.now) passed.line
        begun (said_of O.Output output.new) }
    ensures counts { IfOk result (λ _. O.failures output.new ≡ O.failures output.old) }
{
    let Handover {
        connection,
        mut writer,
    } = passed;
    match FetchReader::begin(alloc, connection, &endpoint.ticket) {
        Ok(fetching) => check_columns(fetching, writer, output),
        Err(failure) => {
            writer.break_off(output);
            Err(failure)
        }
    }
}

/// The stream that is begun, where it has the columns that are written.
///
/// # Errors
///
/// F11 (`Fault::SchemaMismatch`) where it has others. What is written breaks off then.
pub(crate) fn check_columns<R: Input + Drop, W: Output + Drop, O: Output, F: RowWriter>(
    fetching: FetchReader<R, W>,
    mut writer: F,
    output: &mut O,
) -> Result<OpenStream<R, W, F>, Failure>
    requires calls { CanCount fetching.line }
    requires writes { CanFail (O.failures output.old) }
    ensures { ChecksColumns F.format (λ passing. passing) result fetching (F.state writer)
        (said_of O.Output output.old) (said_of O.Output output.new) }
{
    let known = writer.schema().fields.as_slice();
    let same = same_fields(known, fetching.schema().fields.as_slice());
    if !same {
        writer.break_off(output);
        return Err(Failure::Found(Fault::SchemaMismatch));
    }
    Ok(OpenStream { fetching, writer })
}

// Writes the rows of a stream that is begun.
fn write_begun<R: Input + Drop, W: Output + Drop, O: Output, F: RowWriter>(
    alloc: Global,
    passing: OpenStream<R, W, F>,
    output: &mut O,
) -> Result<Handover<R, W, F>, Failure>
    requires { CanFail (O.failures output.old) }
    ensures passes { (before : List StreamAt) (endpoint : EndpointSaid) (line : Line)
        (begun : Said) →
        IsOpen F.format before endpoint.ticket line begun passing (said_of O.Output output.old) →
        WritesNext F.format (λ passed. passed) result before [] endpoint line begun
        (said_of O.Output output.new) }
    ensures counts { IfOk result (λ _. O.failures output.new ≡ O.failures output.old) }
{
    let OpenStream {
        mut fetching,
        mut writer,
    } = passing;
    write_batches(alloc, &mut fetching, &mut writer, output)?;
    let (connection, _) = fetching.end();
    Ok(Handover { connection, writer })
}

// Writes the batches of a stream as they come, up to its end.
fn write_batches<R: Input + Drop, W: Output + Drop, O: Output, F: RowWriter>(
    alloc: Global,
    fetching: &mut FetchReader<R, W>,
    writer: &mut F,
    output: &mut O,
) -> Result<(), Failure>
    requires reads { CanFail (fetching.old.line.incoming.failed) }
    requires writes { CanFail (O.failures output.old) }
    requires fits { FitsSchema fetching.old.state (F.state writer.old).schema }
    ensures passes { (ticket : Payload) (schema own : Schema) (rows : Rows)
        (start : Option (List ℕ)) (begun : Line) (stream : StreamAt) → stream.rows ≡ [] →
        IsUnderWay F.format ticket schema own rows start begun stream fetching.old
        (said_of O.Output output.old) (F.state writer.old) →
        WritesBatches F.format result ticket schema own rows start begun fetching.new
        (said_of O.Output output.old) (said_of O.Output output.new) (F.state writer.new) }
    ensures reads { IfOk result (λ _. SameCounts fetching.old.line fetching.new.line) }
    ensures writes { IfOk result (λ _. O.failures output.new ≡ O.failures output.old) }
{
    while let Some(batch) = next_batch(alloc, fetching, writer, output)? {
        writer.write_batch(output, batch)?;
    }
    Ok(())
}

// Takes the next batch of a stream, as `FetchReader::next` gives it. At a failure of that what is
// written breaks off.
fn next_batch<R: Input + Drop, W: Output + Drop, O: Output, F: RowWriter>(
    alloc: Global,
    fetching: &mut FetchReader<R, W>,
    writer: &mut F,
    output: &mut O,
) -> Result<Option<Batch>, Failure>
    requires reads { CanFail (fetching.old.line.incoming.failed) }
    requires writes { CanFail (O.failures output.old) }
    ensures next { (ticket : Payload) (stream : StreamAt) (begun : Line) →
        stream.state ≡ fetching.old.state → IsFetchReader ticket stream begun fetching.old.line →
        TakesNext ticket stream begun result fetching.new.state fetching.new.line }
    ensures columns { IfOk result (λ batch. HasColumns batch fetching.new.state) }
    ensures kept { KeepsSchema fetching.old.state fetching.new.state }
    ensures quiet { IfOk result (λ _. SameCounts fetching.old.line fetching.new.line) }
    ensures fewer { IfOk result
        (λ batch. IfSome batch (λ _. fetching.new.work < fetching.old.work)) }
    ensures written { BreaksAtFailure F.format result (F.state writer.old) (F.state writer.new)
        (said_of O.Output output.old) (said_of O.Output output.new) }
{
    match fetching.next(alloc) {
        Ok(batch) => Ok(batch),
        Err(failure) => {
            writer.break_off(output);
            Err(failure)
        }
    }
}
