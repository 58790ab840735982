//! Ends that fail: system calls that are interrupted or refused, writes that fail, and the longest
//! records.

ghost use Rattle.std.specs.Prelude.{◌≡◌, ◌≤◌, IfOk, length};
ghost use Rattle.grpc_frame.specs.Ends.{CanFail};

use crate::row::CaseRow;
use crate::words::{Word, told};
use grpc_frame::{
    CountedEnd, Inbox, Input, MAX_MESSAGE_LEN, MAX_PATH_LEN, MemoryInput, MemoryOutput, Outbox,
    Output, Record,
};
use scan_base::Fault;
use std::alloc::{AllocError, Global};
use std::io;
use std::io::{ErrorKind, Read, Write};

// An end of the system's. Of each call its script has a byte: 0 where it goes well and moves one
// byte, 1 where it is interrupted, and another where it is refused.
#[derive(Drop)]
struct ScriptedEnd<'a> {
    script: &'a [u8],
    moved: usize,
}

impl<'a> ScriptedEnd<'a> {
    fn new(script: &'a [u8]) -> ScriptedEnd<'a> {
        ScriptedEnd { script, moved: 0 }
    }

    // What the next call of the script does.
    fn step(&mut self) -> io::Result<()> {
        let Some((first, rest)) = self.script.split_first() else {
            return Err(io::Error::from(ErrorKind::Other));
        };
        self.script = rest;
        match *first {
            0 => Ok(()),
            1 => Err(io::Error::from(ErrorKind::Interrupted)),
            _ => Err(io::Error::from(ErrorKind::BrokenPipe)),
        }
    }

    // Moves one byte of so many, if the script's next call goes well.
    fn move_byte(&mut self, len: usize) -> io::Result<usize>
        ensures { IfOk result (λ count. count ≤ len) }
    {
        self.step()?;
        self.moved = self.moved.saturating_add(1);
        Ok(len.min(1))
    }
}

impl Read for ScriptedEnd<'_> {
    fn read(&mut self, buf: &mut [u8]) -> io::Result<usize> {
        self.move_byte(buf.len())
    }
}

impl Write for ScriptedEnd<'_> {
    fn write(&mut self, buf: &[u8]) -> io::Result<usize> {
        self.move_byte(buf.len())
    }

    fn flush(&mut self) -> io::Result<()> {
        self.step()
    }
}

// How the calls ended, how many failures are counted, and how many bytes have moved.
fn told_calls(
    alloc: Global,
    done: Result<(), Fault>,
    failures: u64,
    moved: usize,
) -> Result<String, Fault> {
    let text = done.map_err(|fault| fault.text());
    let word = match &text {
        Ok(()) => Word::Text("done"),
        Err(text) => Word::Text(text.as_str()),
    };
    let (failures, moved) = (
        Word::Number(i128::from(failures)),
        Word::Number(moved as i128),
    );
    told(alloc, &[word, failures, moved])
}

// Three reads of one byte each, up to one that fails.
fn read_three<R: Input>(input: &mut R) -> Result<(), Fault>
    requires { CanFail (R.failures input.old) }
{
    for _ in 0..3 {
        input.read(&mut [0u8; 8])?;
    }
    Ok(())
}

// `HEX`: three reads by a script. An interrupted call is made again, and no other.
fn reads(alloc: Global, script: &[u8]) -> Result<String, Fault> {
    let mut input = CountedEnd::new(ScriptedEnd::new(script));
    let done = read_three(&mut input);
    told_calls(alloc, done, Input::failures(&input), input.get_ref().moved)
}

// `HEX`: a piece of three bytes, written by a script. The last call of a piece that is written
// whole is the flush: a piece whose flush fails is not written.
fn writes(alloc: Global, script: &[u8]) -> Result<String, Fault> {
    let mut output = CountedEnd::new(ScriptedEnd::new(script));
    let done = output.write(b"abc");
    told_calls(
        alloc,
        done,
        Output::failures(&output),
        output.get_ref().moved,
    )
}

// A call of one message, of which each record is a write.
fn write_call<W: Output>(alloc: Global, out: &mut W) -> Result<(), Fault>
    requires { CanFail (W.failures out.old) }
{
    let mut outbox = Outbox::new(alloc);
    outbox.send_parts(out, b"\x01\x00\x02", b"/x")?;
    outbox.flush(out)?;
    outbox.send_message(out, b"\x0a\x02\x08\x04")?;
    outbox.flush(out)?;
    outbox.send_part(out, b"\x03")?;
    outbox.flush(out)
}

// `HEX CALLS`: a call whose write of this number fails: whether that shows, how many failures are
// counted, and whether what is written is a beginning of the whole call, and all of it.
fn failed_write(alloc: Global, whole: &[u8], calls: usize) -> Result<String, Fault> {
    let mut out = MemoryOutput::new(alloc).failing_after(calls as u64);
    let fails = write_call(alloc, &mut out).is_err();
    let failures = Word::Number(i128::from(Output::failures(&out)));
    let (begins, is_whole) = (whole.starts_with(out.as_slice()), out.as_slice() == whole);
    told(
        alloc,
        &[
            Word::Flag(fails),
            failures,
            Word::Flag(begins),
            Word::Flag(is_whole),
        ],
    )
}

// `HEX CALLS`: the record in front of an input that comes in pieces of four bytes, whose read of
// this number fails: whether that shows, and how many failures are counted.
fn failed_read(alloc: Global, bytes: &[u8], calls: usize) -> Result<String, Fault> {
    let mut input = MemoryInput::new(bytes)
        .in_pieces_of(4)
        .failing_after(calls as u64);
    let fails = Inbox::of_server(alloc).next_from(&mut input).is_err();
    told(
        alloc,
        &[
            Word::Flag(fails),
            Word::Number(i128::from(Input::failures(&input))),
        ],
    )
}

// So many bytes.
fn many(alloc: Global, len: usize) -> Result<Vec<u8>, AllocError>
    ensures { IfOk result (λ bytes. length bytes.items ≡ len) }
{
    Vec::from_elem(alloc, b'a', len)
}

// The longest path and the longest message, written.
fn write_longest(alloc: Global) -> Result<MemoryOutput, Fault> {
    let path = many(alloc, MAX_PATH_LEN)?;
    let message = many(alloc, MAX_MESSAGE_LEN)?;
    let mut out = MemoryOutput::new(alloc);
    let mut outbox = Outbox::new(alloc);
    outbox.send_parts(&mut out, b"\x01\x01\x00", &path)?;
    outbox.send_message(&mut out, &message)?;
    outbox.flush(&mut out)?;
    Ok(out)
}

// How long the content of a record is.
fn content_len(record: Option<Record>) -> i128 {
    match record {
        Some(Record::Open(path)) => path.len() as i128,
        Some(Record::Message(message)) => message.len() as i128,
        _ => 0,
    }
}

// How long the longest path and the longest message are, once they were written and read.
fn longest(alloc: Global) -> Result<String, Fault> {
    let out = write_longest(alloc)?;
    let mut inbox = Inbox::of_server(alloc);
    inbox.feed(out.as_slice())?;
    let path = content_len(inbox.next()?);
    let message = content_len(inbox.next()?);
    told(alloc, &[Word::Number(path), Word::Number(message)])
}

/// What becomes of calls of ends.
pub fn answer(alloc: Global, case: &str, row: &CaseRow) -> Result<String, Fault> {
    match (case, row.numbers.as_slice()) {
        ("reads", []) => reads(alloc, &row.bytes),
        ("writes", []) => writes(alloc, &row.bytes),
        ("failed_write", [calls]) => failed_write(alloc, &row.bytes, *calls),
        ("failed_read", [calls]) => failed_read(alloc, &row.bytes, *calls),
        ("longest", []) => longest(alloc),
        _ => Err(Fault::UnknownMethod),
    }
}
