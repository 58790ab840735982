//! Rows that are written as they come, over several connections, one after the other.

ghost use Rattle.std.specs.Prelude.{◌≡◌, ◌≤◌, ◌<◌, ℕ, ◌+◌, ◌/◌, List, ◌∷◌, ◌++◌, map, length, IfOk};
ghost use Rattle.grpc_frame.specs.Ends.{CanFail};
ghost use Rattle.flight_client.specs.Stream.{StreamAt};
ghost use Rattle.flight_proto.specs.FlightInfo.{EndpointSaid, endpoint_said};
ghost use Rattle.flight_proto.specs.InfoCommand.{rows_of};
ghost use Rattle.client_calls.specs.Outcome.{Line};
ghost use Rattle.command_ends.specs.Printing.{Said, said_of};
ghost use Rattle.client_commands.specs.Lines.{CanCount};
ghost use Rattle.client_commands.specs.inside.Turns.{Ahead, BeginsNext, WritesAndBegins};
ghost use Rattle.client_commands.specs.inside.WrittenRuns.{StreamsOrNot, WritesRuns};
ghost use Rattle.client_commands.specs.inside.Runs.{AreSent, IsOpen, WritesRun};

use crate::fetch_failure::FetchFailure;
use crate::next_run::{RefusedHandle, begin_apart, begin_at_last};
use crate::parallel_work::{Work, take_back, work_beside};
use crate::query::QueryCommand;
use crate::query_places::{Places, ask_places};
use crate::row_writer::RowWriter;
use crate::stream_relay::{OpenStream, WriteOptions, begin_first, check_columns, write_run};
use client_calls::{Connection, Failure, FetchReader};
use command_ends::Connect;
use flight_proto::FlightEndpoint;
use grpc_frame::{Input, Output};
use std::alloc::Global;
use std::thread::Threads;

/// Writes the rows that a query answers, batch by batch as they come: asks over the first
/// connection where they are, and fetches the streams of the endpoints over it and over further
/// ones, a run of them each, one run after the other.
///
/// While a run is written, the next connection is made, and its first stream is begun, in a
/// thread of its own. What comes of it after its schema waits in the system's buffers: the server
/// stops where they are full. So memory holds one payload at a time, dictionaries, and what a
/// writer holds. A connection is closed after the last stream of its run, before the next one is
/// waited for.
///
/// # Errors
///
/// The first failure, in the order of the endpoints. What is written breaks off after some of the
/// rows. Where a write failed, a beginning of them was written.
/// - `FetchFailure::Failed`, as `ask_places`, `begin_first`, `write_run` and `begin_at_last` give
///   it. It comes once the stream that is begun ahead has said its schema, or has failed; nothing
///   bounds that time.
/// - `FetchFailure::Unconnected` where the streams of all endpoints before those of a further
///   connection were written, and the network was asked twice for that one and gave none.
pub(crate) fn stream_rows<T: Threads, C: Connect + Drop + Send, O: Output, F: RowWriter>(
    rt: &T,
    alloc: Global,
    network: &mut C,
    mut connection: Connection<C::Reader, C::Writer>,
    output: &mut O,
    query: QueryCommand<'_>,
) -> Result<(), FetchFailure>
where
    C::Reader: Send,
    C::Writer: Send,
    requires calls { CanCount connection }
    requires writes { CanFail (O.failures output.old) }
    ensures { (last : Line)
        × StreamsOrNot (λ old ends new. C.connects old query.entry.port ends new) C.shares
        F.format query.entry.streams (rows_of query.entry.sql.now) network.old network.new result
        connection last (said_of O.Output output.old) (said_of O.Output output.new) }
{
    let Places { endpoints, handles } = ask_places(alloc, network, &mut connection, query)?;
    let writing = WriteOptions {
        alloc,
        seed: query.seed,
        port: query.port,
    };
    write_runs::<_, _, _, F>(rt, writing, connection, handles, output, &endpoints)
}

// Writes the runs of the connections, one after the other, and ends what is written.
fn write_runs<T: Threads, C: Connect + Drop + Send, O: Output, F: RowWriter>(
    rt: &T,
    writing: WriteOptions,
    connection: Connection<C::Reader, C::Writer>,
    handles: Vec<C>,
    output: &mut O,
    endpoints: &[FlightEndpoint],
) -> Result<(), FetchFailure>
where
    C::Reader: Send,
    C::Writer: Send,
    requires calls { CanCount connection }
    requires writes { CanFail (O.failures output.old) }
    requires fewer { length handles.items < length endpoints.now }
    ensures { WritesRuns (λ old ends new. C.connects old writing.port ends new) F.format connection
        handles.items (map endpoint_said endpoints.now) result (said_of O.Output output.old)
        (said_of O.Output output.new) }
{
    let mut left = handles.len();
    let (first, mut others, mut behind) = cut_run(endpoints, left.saturating_add(1));
    let mut passing = begin_first::<_, _, _, F>(writing, connection, output, first)?;
    for handle in handles {
        let (next, more, rest) = cut_run(behind, left);
        passing = write_and_begin(rt, writing, passing, output, others, handle, next)?;
        others = more;
        behind = rest;
        left -= 1;
    }
    let writer = write_run(writing.alloc, passing, output, others)?;
    Ok(writer.end(output)?)
}

// Cuts the run of one of so many connections off the front: the quotient of the endpoints, rounded
// down. Its first endpoint, its others, and the endpoints after it.
fn cut_run(
    endpoints: &[FlightEndpoint],
    many: usize,
) -> (&FlightEndpoint, &[FlightEndpoint], &[FlightEndpoint])
    requires some { 0 < many }
    requires enough { many ≤ length endpoints.now }
    ensures all { (result.0.now ∷ result.1.now) ++ result.2.now ≡ endpoints.now }
    ensures part { length (result.0.now ∷ result.1.now) ≡ length endpoints.now / many }
{
    let (run, behind) = endpoints.split_at(endpoints.len() / many);
    match run.split_first() {
        Some((first, others)) => (first, others, behind),
        None => unreachable!(),
    }
}

// A run that is written to an output, and its other endpoints after the first one.
#[derive(Drop)]
struct Run<'a, R: Input, W: Output, F: RowWriter, O> {
    alloc: Global,
    passing: OpenStream<R, W, F>,
    output: &'a mut O,
    others: &'a [FlightEndpoint],
}

impl<'a, R, W, F, O> Work for Run<'a, R, W, F, O>
where
    R: Input + Drop,
    W: Output + Drop,
    F: RowWriter,
    O: Output,
{
    type Out = (&'a mut O, Result<F, Failure>);

    ghost use Rattle.std.specs.Prelude.{◌≡◌, map, IfOk};
    ghost use Rattle.grpc_frame.specs.Ends.{CanFail};
    ghost use Rattle.flight_proto.specs.FlightInfo.{endpoint_said};
    ghost use Rattle.command_ends.specs.Printing.{said_of};
    ghost use Rattle.client_commands.specs.inside.Runs.{WritesRun};

    ghost can_run = { λ run. CanFail (O.failures run.output.now) };

    ghost gives = { λ run r. (r.0.ghost_name ≡ run.output.ghost_name)
        × WritesRun F.format F.state r.1 run.passing (map endpoint_said run.others.now)
        (said_of O.Output run.output.now) (said_of O.Output r.0.now)
        × IfOk r.1 (λ _. O.failures r.0.now ≡ O.failures run.output.now) };

    fn run(self) -> (&'a mut O, Result<F, Failure>) {
        let Run {
            alloc,
            passing,
            output,
            others,
        } = self;
        let passed = write_run(alloc, passing, output, others);
        (output, passed)
    }
}

// Writes a run, and does what is ahead next to it.
fn write_beside<T, A, B, R, W, O, F>(
    rt: &T,
    alloc: Global,
    ahead: A,
    passing: OpenStream<R, W, F>,
    output: &mut O,
    others: &[FlightEndpoint],
) -> (B, Result<F, Failure>)
where
    T: Threads,
    A: FnOnce() -> B + Send,
    B: Send,
    R: Input + Drop,
    W: Output + Drop,
    O: Output,
    F: RowWriter,
    requires ahead { A.pre ahead }
    requires writes { CanFail (O.failures output.old) }
    ensures ahead { A.post ahead result.0 }
    ensures passes { WritesRun F.format F.state result.1 passing (map endpoint_said others.now)
        (said_of O.Output output.old) (said_of O.Output output.new) }
    ensures counts { IfOk result.1 (λ _. O.failures output.new ≡ O.failures output.old) }
{
    let run = Run {
        alloc,
        passing,
        output,
        others,
    };
    let (done, (output, passed)) = work_beside(rt, ahead, run);
    take_back(output);
    (done, passed)
}

// Writes a run. Next to it the connection of the handle is made, and the stream of the next
// run's first endpoint is begun over it.
fn write_and_begin<T: Threads, C: Connect + Drop + Send, O: Output, F: RowWriter>(
    rt: &T,
    writing: WriteOptions,
    passing: OpenStream<C::Reader, C::Writer, F>,
    output: &mut O,
    others: &[FlightEndpoint],
    handle: C,
    next: &FlightEndpoint,
) -> Result<OpenStream<C::Reader, C::Writer, F>, FetchFailure>
where
    C::Reader: Send,
    C::Writer: Send,
    requires { CanFail (O.failures output.old) }
    ensures { (before : List StreamAt) (endpoint : EndpointSaid) (line : Line) (begun : Said) →
        IsOpen F.format before endpoint.ticket line begun passing (said_of O.Output output.old) →
        WritesAndBegins (λ old ends new. C.connects old writing.port ends new) F.format
        (λ passing. passing) (endpoint_said next.now) handle before
        (endpoint ∷ map endpoint_said others.now) line begun result (said_of O.Output output.new) }
{
    let WriteOptions { alloc, port, .. } = writing;
    let ahead = move || -> Result<
        Result<FetchReader<C::Reader, C::Writer>, Failure>,
        RefusedHandle<C>,
    >
        ensures { Ahead (λ old ends new. C.connects old port ends new) (λ fetching. fetching)
            (endpoint_said next.entry.now).ticket handle result }
    { begin_apart(alloc, handle, port, next) };
    let (begun, passed) = write_beside(rt, alloc, ahead, passing, output, others);
    let writer = passed?;
    begin_next_run(writing, begun, writer, output, next)
}

// The next run, whose first stream is begun, at last where it is not yet. Else what is written
// breaks off.
fn begin_next_run<C: Connect + Drop, O: Output, F: RowWriter>(
    writing: WriteOptions,
    begun: Result<Result<FetchReader<C::Reader, C::Writer>, Failure>, RefusedHandle<C>>,
    mut writer: F,
    output: &mut O,
    next: &FlightEndpoint,
) -> Result<OpenStream<C::Reader, C::Writer, F>, FetchFailure>
    requires writes { CanFail (O.failures output.old) }
    requires made { (handle : C) × Ahead (λ old ends new. C.connects old writing.port ends new)
        (λ fetching. fetching) (endpoint_said next.now).ticket handle begun }
    ensures { (handle : C) (streams : List StreamAt) (said : Said) →
        Ahead (λ old ends new. C.connects old writing.port ends new) (λ fetching. fetching)
        (endpoint_said next.now).ticket handle begun →
        AreSent F.format streams said (F.state writer) (said_of O.Output output.old) →
        BeginsNext (λ old ends new. C.connects old writing.port ends new) F.format
        (λ passing. passing) (endpoint_said next.now) handle streams said result
        (said_of O.Output output.new) }
{
    match begin_at_last(writing.alloc, begun, writing.port, next) {
        Ok(fetching) => Ok(check_columns(fetching, writer, output)?),
        Err(lost) => {
            writer.break_off(output);
            Err(lost)
        }
    }
}
