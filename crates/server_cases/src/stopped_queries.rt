//! Queries that stop, over answers in memory. What is written of an Arrow IPC stream is read as
//! one.

use crate::clients::network_of;
use crate::side_by_side::{INFO, add_stream};
use crate::texts::push_text;
use bytes::Bytes;
use client_commands::query::{QueryCommand, query};
use command_line::Format;
use grpc_frame::MemoryOutput;
use ipc_stream::ipc_messages;
use scan_base::HashSeed;
use std::alloc::{AllocError, Global};
use std::io;
use std::random::RandomSource;
use std::thread::Threads;

// A query of two endpoints: its name and format, how many streams come whole, and what comes after
// them.
pub(crate) struct StoppedQuery {
    pub(crate) name: &'static str,
    format: Format,
    streams: usize,
    rest: &'static [u8],
}

pub(crate) static STOPPING: [StoppedQuery; 7] = [
    StoppedQuery {
        name: "stream, whole",
        format: Format::Arrow,
        streams: 2,
        rest: b"",
    },
    StoppedQuery {
        name: "stream, its second fetch is refused",
        format: Format::Arrow,
        streams: 1,
        rest: b"\x04\x05\x00\x12F19 VersionExpired",
    },
    StoppedQuery {
        name: "stream, its connection ends",
        format: Format::Arrow,
        streams: 1,
        rest: b"",
    },
    StoppedQuery {
        name: "stream, its first fetch is refused",
        format: Format::Arrow,
        streams: 0,
        rest: b"\x04\x05\x00\x12F19 VersionExpired",
    },
    StoppedQuery {
        name: "lines, their second fetch is refused",
        format: Format::Lines,
        streams: 1,
        rest: b"\x04\x05\x00\x12F19 VersionExpired",
    },
    StoppedQuery {
        name: "csv, its connection ends",
        format: Format::Csv,
        streams: 1,
        rest: b"",
    },
    StoppedQuery {
        name: "table, its second fetch is refused",
        format: Format::Table,
        streams: 1,
        rest: b"\x04\x05\x00\x12F19 VersionExpired",
    },
];

// Adds how many messages bytes are a stream of, or the fault of bytes that are none; and of no
// bytes, that they are none.
fn push_stream(alloc: Global, told: &mut String, written: &[u8]) -> Result<(), AllocError> {
    if written.is_empty() {
        return told.push_str(" nothing");
    }
    match ipc_messages(alloc, &Bytes::copy_from_slice(alloc, written)?) {
        Ok(messages) => write!(told, " {} messages", messages.len()),
        Err(fault) => write!(told, " {}", fault.text().as_str()),
    }
}

// Adds what is written in a format.
pub(crate) fn push_written(
    alloc: Global,
    told: &mut String,
    format: Format,
    written: &[u8],
) -> Result<(), AllocError> {
    match format {
        Format::Arrow => push_stream(alloc, told, written),
        _ => push_text(told, written),
    }
}

// What a query comes to: its exit status, what is said of faults, and what is written.
pub(crate) fn told_stream<R>(rt: &R, alloc: Global, case: &StoppedQuery) -> io::Result<String>
where
    R: RandomSource + Threads + Sync,
{
    let mut answer = Vec::new(alloc);
    answer.extend_from_slice(INFO)?;
    for _stream in 0..case.streams {
        add_stream(&mut answer, b"baaab")?;
    }
    answer.extend_from_slice(case.rest)?;
    let mut network = network_of(alloc, &answer);
    let mut written = MemoryOutput::new(alloc);
    let mut said = MemoryOutput::new(alloc);
    let querying = QueryCommand {
        port: 1,
        streams: 1,
        sql: "SELECT s FROM t",
        format: case.format,
        seed: HashSeed::new(rt)?,
    };
    let status = query(rt, alloc, &mut network, &mut written, &mut said, querying).number();
    let mut told = format!(in alloc; "{status}")?;
    push_text(&mut told, said.as_slice())?;
    push_written(alloc, &mut told, case.format, written.as_slice())?;
    Ok(told)
}
