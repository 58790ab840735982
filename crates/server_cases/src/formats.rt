//! The formats of `query`, over loopback from a `serve` in another thread.

use crate::clients::{STREAM, add_heard, ask_rows, created, put_stream, seed};
use client_calls::Failure;
use client_commands::query::{QueryCommand, query};
use command_line::Format;
use grpc_frame::MemoryOutput;
use loopback::Loopback;
use std::alloc::{AllocError, AllocGlobal};
use std::net::{Net, TcpListener, TcpStream};
use std::random::RandomSource;
use std::thread::Threads;

// The Arrow IPC stream of a query. No byte of it is told.
pub(crate) fn stream_of<R>(
    rt: &R,
    querying: QueryCommand<'_>,
    told: &mut String,
) -> Result<MemoryOutput, AllocError>
where
    R: Net<Listener = TcpListener, Stream = TcpStream> + AllocGlobal + Threads + Sync,
{
    let alloc = rt.alloc();
    let mut network = Loopback::new(rt);
    let mut stream = MemoryOutput::new(alloc);
    let mut said = MemoryOutput::new(alloc);
    let status = query(rt, alloc, &mut network, &mut stream, &mut said, querying);
    add_heard(told, status.number(), &MemoryOutput::new(alloc), &said)?;
    Ok(stream)
}

// Copies a table: the Arrow IPC stream of a query is put again.
fn copy_rows<R>(rt: &R, querying: QueryCommand<'_>, told: &mut String) -> Result<(), AllocError>
where
    R: Net<Listener = TcpListener, Stream = TcpStream> + AllocGlobal + Threads + Sync,
{
    let stream = stream_of(rt, querying, told)?;
    put_stream(rt, created(querying.port, "copy"), stream.as_slice(), told)
}

// A put, its rows as CSV, its rows copied by an Arrow IPC stream, and groups of the copy in lines
// and as a table for people. Two connections are made for the rows as CSV and for those of the
// stream, and else one.
pub(crate) fn run_formats<R>(rt: &R, port: u16, told: &mut String) -> Result<(), Failure>
where
    R: Net<Listener = TcpListener, Stream = TcpStream> + RandomSource + AllocGlobal,
    R: Threads + Sync,
{
    let alloc = rt.alloc();
    put_stream(rt, created(port, "t"), STREAM, told)?;
    let all = QueryCommand {
        port,
        streams: 2,
        sql: "SELECT s FROM t",
        format: Format::Csv,
        seed: seed(rt)?,
    };
    ask_rows(rt, all, MemoryOutput::new(alloc), told)?;
    let copied = QueryCommand {
        format: Format::Arrow,
        ..all
    };
    copy_rows(rt, copied, told)?;
    let grouped = QueryCommand {
        sql: "SELECT s, COUNT(*) FROM copy GROUP BY s",
        format: Format::Lines,
        ..all
    };
    ask_rows(rt, grouped, MemoryOutput::new(alloc), told)?;
    let aligned = QueryCommand {
        format: Format::Table,
        ..grouped
    };
    ask_rows(rt, aligned, MemoryOutput::new(alloc), told)?;
    Ok(())
}

// A put, its rows as an Arrow IPC stream over one connection and over three, whether both are the
// same bytes, a put of the latter as another table, and its rows as lines. One connection is made
// for each but the query over three.
pub(crate) fn stream_in_turn<R>(rt: &R, port: u16, told: &mut String) -> Result<(), Failure>
where
    R: Net<Listener = TcpListener, Stream = TcpStream> + RandomSource + AllocGlobal,
    R: Threads + Sync,
{
    put_stream(rt, created(port, "t"), STREAM, told)?;
    let alone = QueryCommand {
        port,
        streams: 1,
        sql: "SELECT s FROM t",
        format: Format::Arrow,
        seed: seed(rt)?,
    };
    let one = stream_of(rt, alone, told)?;
    let spread = QueryCommand {
        streams: 3,
        ..alone
    };
    let three = stream_of(rt, spread, told)?;
    write!(told, " {}", three.as_slice() == one.as_slice())?;
    put_stream(rt, created(port, "copy"), three.as_slice(), told)?;
    let lines = QueryCommand {
        sql: "SELECT s FROM copy",
        format: Format::Lines,
        ..alone
    };
    ask_rows(rt, lines, MemoryOutput::new(rt.alloc()), told)?;
    Ok(())
}
