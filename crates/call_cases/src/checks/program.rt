//! The program's commands over ends in memory: the first run, and what becomes of it where it is
//! cut, broken or meets a failing end.

ghost use Rattle.std.specs.Prelude.{◌<◌};
ghost use Rattle.grpc_frame.specs.Ends.{CanFail};

use crate::checks::OPTIONS;
use crate::checks::first_run::{
    AFTER_MODE, BATCH_AT, FETCH, FETCH_END_AT, HANDLE_AT, MODE_AT, PUT, PUT_ANSWER, PUT_END_AT,
    ROWS, is_joined, joined, part, rest,
};
use anyhow::{Result, bail, ensure};
use commands::arguments::refuse_arguments;
use commands::pipe::pipe;
use flight_calls::{OneWorker, Setting};
use grpc_frame::{Input, MemoryInput, MemoryOutput, Output};
use scan_base::HashSeed;
use std::alloc::{AllocError, Global};
use std::io;
use std::io::ErrorKind;
use std::random::RandomSource;

// Bytes that are always the same.
struct FixedSource;

impl RandomSource for FixedSource {
    fn fill_bytes(&self, buf: &mut [u8]) -> io::Result<()> {
        buf.fill(7);
        Ok(())
    }
}

// The exit status of `pipe` with a seed of those bytes; 255 where there is none.
fn pipe_status<R: Input, W: Output, E: Output>(
    alloc: Global,
    reader: &mut R,
    writer: &mut W,
    faults: &mut E,
) -> u8
    requires reads { CanFail (R.failures reader.old) }
    requires writes { CanFail (W.failures writer.old) }
    requires prints { CanFail (E.failures faults.old) }
{
    let setting = Setting {
        alloc,
        executor: &OneWorker,
        options: OPTIONS,
    };
    match HashSeed::new(&FixedSource) {
        Ok(seed) => pipe(&setting, seed, reader, writer, faults).number(),
        Err(_) => u8::MAX,
    }
}

// The exit status, and what is written and printed.
fn piped(alloc: Global, bytes: &[u8], most: usize) -> (u8, MemoryOutput, MemoryOutput)
    requires { 0 < most }
{
    let mut reader = MemoryInput::new(bytes).in_pieces_of(most);
    let mut writer = MemoryOutput::new(alloc);
    let mut faults = MemoryOutput::new(alloc);
    let status = pipe_status(alloc, &mut reader, &mut writer, &mut faults);
    (status, writer, faults)
}

const PUT_PATH: &[u8] = b"\x01\x00\x2a/arrow.flight.protocol.FlightService/DoPut";

const GET_PATH: &[u8] = b"\x01\x00\x2a/arrow.flight.protocol.FlightService/DoGet";

const NO_PATH: &[u8] = b"\x01\x00\x02/x";

// A message that is no list of fields, and one without a command or a header.
const NO_FIELDS: &[u8] = b"\x02\x00\x00\x00\x00\x01\xff";

const EMPTY: &[u8] = b"\x02\x00\x00\x00\x00\x00";

const END: &[u8] = b"\x03";

const BAD_FRAME: &[u8] = b"\x04\x03\x00\x0bF1 BadFrame";

const UNKNOWN_METHOD: &[u8] = b"\x04\x0c\x00\x10F3 UnknownMethod";

const BAD_PROTO: &[u8] = b"\x04\x03\x00\x0bF4 BadProto";

const UNKNOWN_COMMAND: &[u8] = b"\x04\x0c\x00\x11F5 UnknownCommand";

const BAD_BATCH: &[u8] = b"\x04\x03\x00\x0bF8 BadBatch";

const DONE: &[u8] = b"\x04\x00\x00\x00";

const NOTHING: &[u8] = b"";

const BAD_FRAME_LINE: &[u8] = b"fault: F1 BadFrame\n";

const TOO_LARGE_LINE: &[u8] = b"fault: F2 MessageTooLarge\n";

const TRANSPORT_LINE: &[u8] = b"fault: F22 Transport\n";

const MEMORY_LINE: &[u8] = b"fault: F21 OutOfMemory\n";

const NO_TEXT_LINE: &[u8] = b"error: a word of the command line is not UTF-8\n";

// What comes, the exit status, what is written and what is printed.
type PipeCase = (
    &'static [&'static [u8]],
    u8,
    &'static [&'static [u8]],
    &'static [u8],
);

// Faults of a call are its answer, the first one whatever comes after it, and the connection goes
// on. Faulty records end it, and what follows them is not looked at.
static CASES: [PipeCase; 16] = [
    (&[], 0, &[], NOTHING),
    (
        &[PUT, PUT],
        0,
        &[PUT_ANSWER, b"\x04\x06\x00\x0fF10 TableExists"],
        NOTHING,
    ),
    (
        &[NO_PATH, END, PUT],
        0,
        &[UNKNOWN_METHOD, PUT_ANSWER],
        NOTHING,
    ),
    (
        &[NO_PATH, NO_FIELDS, EMPTY, END, PUT],
        0,
        &[UNKNOWN_METHOD, PUT_ANSWER],
        NOTHING,
    ),
    (&[GET_PATH, END, PUT], 0, &[BAD_PROTO, PUT_ANSWER], NOTHING),
    (
        &[GET_PATH, EMPTY, EMPTY, END, PUT],
        0,
        &[BAD_PROTO, PUT_ANSWER],
        NOTHING,
    ),
    (
        &[GET_PATH, NO_FIELDS, EMPTY, EMPTY, END, PUT],
        0,
        &[BAD_PROTO, PUT_ANSWER],
        NOTHING,
    ),
    (
        &[PUT_PATH, NO_FIELDS, EMPTY, EMPTY, END, PUT],
        0,
        &[BAD_PROTO, PUT_ANSWER],
        NOTHING,
    ),
    (
        &[PUT_PATH, EMPTY, NO_FIELDS, NO_FIELDS, END, PUT],
        0,
        &[UNKNOWN_COMMAND, PUT_ANSWER],
        NOTHING,
    ),
    (
        &[PUT, b"\x05", PUT],
        3,
        &[PUT_ANSWER, BAD_FRAME],
        BAD_FRAME_LINE,
    ),
    (
        &[PUT, b"\x03", PUT],
        3,
        &[PUT_ANSWER, BAD_FRAME],
        BAD_FRAME_LINE,
    ),
    (
        &[PUT, PUT_PATH, b"\x02\x01", PUT],
        3,
        &[PUT_ANSWER, BAD_FRAME],
        BAD_FRAME_LINE,
    ),
    (
        &[PUT, PUT_PATH, b"\x01", PUT],
        3,
        &[PUT_ANSWER, BAD_FRAME],
        BAD_FRAME_LINE,
    ),
    (
        &[PUT, PUT_PATH, b"\x02\x00\x01\x00\x00\x01", PUT],
        3,
        &[PUT_ANSWER, b"\x04\x08\x00\x12F2 MessageTooLarge"],
        TOO_LARGE_LINE,
    ),
    (&[PUT, PUT_PATH], 3, &[PUT_ANSWER], TRANSPORT_LINE),
    (&[b"\x01"], 3, &[], TRANSPORT_LINE),
];

fn each_case(alloc: Global) -> Result<()> {
    for (input, status, written, printed) in &CASES {
        let bytes = joined(alloc, input)?;
        let (code, writer, faults) = piped(alloc, &bytes, 65_536);
        ensure!(code == *status);
        ensure!(is_joined(writer.as_slice(), written));
        ensure!(faults.as_slice() == *printed);
    }
    Ok(())
}

// The same bytes come of the first run's input whole and byte by byte: the put's answer, and one
// that has the two rows.
fn the_first_run(alloc: Global) -> Result<()> {
    let bytes = joined(alloc, &[PUT, FETCH])?;
    let (status, whole, faults) = piped(alloc, &bytes, 65_536);
    ensure!(status == 0);
    ensure!(faults.as_slice() == NOTHING);
    ensure!(whole.as_slice().starts_with(PUT_ANSWER));
    ensure!(ends_with_rows(whole.as_slice()));
    let (status, writer, faults) = piped(alloc, &bytes, 1);
    ensure!(status == 0);
    ensure!(faults.as_slice() == NOTHING);
    ensure!(writer.as_slice() == whole.as_slice());
    Ok(())
}

// Whether an answer ends with the two rows and status 0.
fn ends_with_rows(bytes: &[u8]) -> bool {
    let at = bytes.len().saturating_sub(20);
    is_joined(rest(bytes, at), &[ROWS, DONE])
}

// The first k bytes: what is written up to the put's End and after it, and the exit status.
fn cut_input(alloc: Global) -> Result<()> {
    let bytes = joined(alloc, &[PUT, FETCH])?;
    for k in 0..565usize {
        let (status, writer, faults) = piped(alloc, part(&bytes, 0, k), 65_536);
        let want = if k < 407 { NOTHING } else { PUT_ANSWER };
        let is_whole = k == 0 || k == 407;
        ensure!(writer.as_slice() == want);
        ensure!(status == if is_whole { 0 } else { 3 });
        ensure!(faults.as_slice() == if is_whole { NOTHING } else { TRANSPORT_LINE });
    }
    Ok(())
}

// A put, and a fetch with this handle, which has 32 bytes.
fn with_handle(alloc: Global, handle: &[u8]) -> Result<MemoryOutput, AllocError> {
    let bytes = joined(
        alloc,
        &[PUT, part(FETCH, 0, HANDLE_AT), rest(handle, 0), END],
    )?;
    let (_, writer, _) = piped(alloc, &bytes, 65_536);
    Ok(writer)
}

// A handle of another kind, and one of version 9.
fn faults_of_handles(alloc: Global) -> Result<()> {
    let handle = part(FETCH, HANDLE_AT, FETCH_END_AT);
    let strange = joined(alloc, &[b"\x03", part(handle, 1, 32)])?;
    let later = joined(alloc, &[part(handle, 0, 8), b"\x09", part(handle, 9, 32)])?;
    let writer = with_handle(alloc, &strange)?;
    ensure!(is_joined(
        writer.as_slice(),
        &[PUT_ANSWER, b"\x04\x03\x00\x0dF17 BadTicket"]
    ));
    let writer = with_handle(alloc, &later)?;
    ensure!(is_joined(
        writer.as_slice(),
        &[PUT_ANSWER, b"\x04\x05\x00\x12F18 VersionUnknown"]
    ));
    Ok(())
}

// A batch whose body has 8 bytes of 16.
const SHORT_BATCH_HEAD: &[u8] = b"\x02\x00\x00\x00\x00\x8e";

const SHORT_BODY: &[u8] = b"\xc2\x3e\x08\x01\x00\x00\x00\x00\x00\x00\x00";

// Rows 0 to 4 at version 2.
const NEXT_HANDLE: &[u8] =
    b"\x01\x00\x00\x00\x00\x00\x00\x00\x02\x00\x00\x00\x00\x00\x00\x00\x04SELECT * FROM t";

// The put's batch, alone.
fn batch() -> &'static [u8] {
    part(PUT, BATCH_AT, PUT_END_AT)
}

// A put that appends to `t`, up to its first batch.
fn append_head(alloc: Global) -> Result<Vec<u8>, AllocError> {
    joined(
        alloc,
        &[
            part(PUT, 0, MODE_AT),
            b"\x10\x02",
            part(PUT, AFTER_MODE, BATCH_AT),
        ],
    )
}

// An append of three batches, the third broken; and an append of one batch.
fn two_appends(alloc: Global) -> Result<Vec<u8>, AllocError> {
    let head = append_head(alloc)?;
    let short = joined(
        alloc,
        &[SHORT_BATCH_HEAD, part(batch(), 6, 137), SHORT_BODY],
    )?;
    joined(
        alloc,
        &[&head, batch(), batch(), &short, END, &head, batch(), END],
    )
}

// A put whose third batch is broken leaves the table as before, and the next accepted put makes the
// next version.
fn a_broken_third_batch(alloc: Global) -> Result<()> {
    let appends = two_appends(alloc)?;
    let bytes = joined(
        alloc,
        &[PUT, &appends, part(FETCH, 0, HANDLE_AT), NEXT_HANDLE, END],
    )?;
    let (status, writer, faults) = piped(alloc, &bytes, 65_536);
    ensure!(status == 0);
    ensure!(faults.as_slice() == NOTHING);
    let answer = rest(writer.as_slice(), 43);
    ensure!(is_joined(
        part(writer.as_slice(), 0, 43),
        &[PUT_ANSWER, BAD_BATCH, PUT_ANSWER]
    ));
    ensure!(ends_with_rows(answer));
    ensure!(times_rows(answer) == times_rows_of_one_put(alloc)?.saturating_add(1));
    Ok(())
}

// How many times the two rows stand in bytes.
fn times_rows(bytes: &[u8]) -> usize {
    bytes.windows(16).filter(|piece| *piece == ROWS).count()
}

// The same of the answer to the first run's fetch, which has the rows once: its schema has their
// bytes too.
fn times_rows_of_one_put(alloc: Global) -> Result<usize, AllocError> {
    let bytes = joined(alloc, &[PUT, FETCH])?;
    let (_, writer, _) = piped(alloc, &bytes, 65_536);
    Ok(times_rows(writer.as_slice()))
}

// A faulty record is answered at once: the read after it would fail.
fn a_fault_before_a_failed_read(alloc: Global) -> Result<()> {
    let mut reader = MemoryInput::new(b"\x05").failing_after(1);
    let mut writer = MemoryOutput::new(alloc);
    let mut faults = MemoryOutput::new(alloc);
    let status = pipe_status(alloc, &mut reader, &mut writer, &mut faults);
    ensure!(status == 3);
    ensure!(reader.failures() == 0);
    ensure!(writer.as_slice() == BAD_FRAME);
    ensure!(faults.as_slice() == BAD_FRAME_LINE);
    Ok(())
}

// A read fails after so many: of the input's pieces of 250 bytes the second ends the put, and the
// third the fetch. `whole` is what is written where none fails.
fn a_failed_read(alloc: Global, bytes: &[u8], whole: &[u8], calls: u64) -> Result<()> {
    let mut reader = MemoryInput::new(bytes)
        .in_pieces_of(250)
        .failing_after(calls);
    let mut writer = MemoryOutput::new(alloc);
    let mut faults = MemoryOutput::new(alloc);
    let status = pipe_status(alloc, &mut reader, &mut writer, &mut faults);
    let want = match calls {
        0 | 1 => NOTHING,
        2 => PUT_ANSWER,
        _ => whole,
    };
    ensure!(writer.as_slice() == want);
    ensure!(status == if calls < 4 { 3 } else { 0 });
    ensure!(faults.as_slice() == if calls < 4 { TRANSPORT_LINE } else { NOTHING });
    Ok(())
}

// Each read fails in turn.
fn each_read(alloc: Global) -> Result<()> {
    let bytes = joined(alloc, &[PUT, FETCH])?;
    let (_, whole, _) = piped(alloc, &bytes, 250);
    for calls in 0..5u64 {
        a_failed_read(alloc, &bytes, whole.as_slice(), calls)?;
    }
    Ok(())
}

// Each write fails in turn, half written. Each of the two answers is one write.
fn each_write(alloc: Global) -> Result<()> {
    let bytes = joined(alloc, &[PUT, FETCH])?;
    let (_, whole, _) = piped(alloc, &bytes, 65_536);
    for calls in 0..3u64 {
        let mut reader = MemoryInput::new(&bytes);
        let mut writer = MemoryOutput::new(alloc).failing_after(calls);
        let mut faults = MemoryOutput::new(alloc);
        let status = pipe_status(alloc, &mut reader, &mut writer, &mut faults);
        ensure!(whole.as_slice().starts_with(writer.as_slice()));
        ensure!((writer.as_slice() == whole.as_slice()) == (calls == 2));
        ensure!(status == if calls < 2 { 3 } else { 0 });
        ensure!(faults.as_slice() == if calls < 2 { TRANSPORT_LINE } else { NOTHING });
    }
    Ok(())
}

// Where the line of a fault cannot be printed, the exit status stays.
fn a_fault_that_cannot_be_printed(alloc: Global) -> Result<()> {
    for calls in 0..3u64 {
        let mut reader = MemoryInput::new(b"\x05");
        let mut writer = MemoryOutput::new(alloc);
        let mut faults = MemoryOutput::new(alloc).failing_after(calls);
        let status = pipe_status(alloc, &mut reader, &mut writer, &mut faults);
        ensure!(status == 3);
        ensure!(writer.as_slice() == BAD_FRAME);
        ensure!(BAD_FRAME_LINE.starts_with(faults.as_slice()));
    }
    Ok(())
}

// The system's words that cannot be read: there was no memory for them, or one is not UTF-8.
fn words_that_are_not_read(alloc: Global) -> Result<()> {
    let mut faults = MemoryOutput::new(alloc);
    let status = refuse_arguments(ErrorKind::OutOfMemory, &mut faults).number();
    ensure!(status == 3);
    ensure!(faults.as_slice() == MEMORY_LINE);
    let mut faults = MemoryOutput::new(alloc);
    let status = refuse_arguments(ErrorKind::InvalidData, &mut faults).number();
    ensure!(status == 2);
    ensure!(faults.as_slice() == NO_TEXT_LINE);
    Ok(())
}

/// What comes of the check of this name.
pub fn check(alloc: Global, name: &str) -> Result<()> {
    match name {
        "each_case" => each_case(alloc),
        "the_first_run" => the_first_run(alloc),
        "cut_input" => cut_input(alloc),
        "faults_of_handles" => faults_of_handles(alloc),
        "a_broken_third_batch" => a_broken_third_batch(alloc),
        "a_fault_before_a_failed_read" => a_fault_before_a_failed_read(alloc),
        "each_read" => each_read(alloc),
        "each_write" => each_write(alloc),
        "a_fault_that_cannot_be_printed" => a_fault_that_cannot_be_printed(alloc),
        "words_that_are_not_read" => words_that_are_not_read(alloc),
        _ => bail!("no check"),
    }
}
