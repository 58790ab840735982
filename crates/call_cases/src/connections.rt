//! Connections through `flightscan pipe`, over ends in memory.

use crate::infos::{push_info, push_schema_result};
use crate::payload_text::{Form, push_digits, push_rows, rows_of};
use crate::row_words::{Names, halves, words};
use bytes::Bytes;
use command_line::Request;
use commands::pipe::pipe;
use commands::program_words::read_words;
use flight_calls::{Executor, Options, Setting};
use flight_proto::FlightData;
use grpc_frame::{Inbox, MemoryInput, MemoryOutput, Record};
use scan_base::{Fault, HashSeed};
use std::alloc::Global;

/// The seed of each `pipe`, and who makes the payloads of its fetches.
#[derive(Drop)]
pub struct Connections<'x, X> {
    seed: HashSeed,
    executor: &'x X,
}

// What comes of calls that follow one another.
fn input(alloc: Global, names: &Names, calls: &str) -> Result<Vec<u8>, Fault> {
    let mut input = Vec::new(alloc);
    for call in calls.split(' ') {
        let (_, name) = halves(call, ":");
        input.extend_from_slice(&names.bytes_of(alloc, name)?)?;
    }
    Ok(input)
}

// Adds what a message of an answer says, and a semicolon.
fn push_message(
    alloc: Global,
    told: &mut String,
    kind: &str,
    message: &Bytes,
) -> Result<(), Fault> {
    match kind {
        "info" => push_info(alloc, told, message.as_slice())?,
        "schema" => push_schema_result(alloc, told, message.as_slice())?,
        "bodies" => push_digits(alloc, told, FlightData::read(message)?.data_body.as_slice())?,
        _ => push_digits(alloc, told, message.as_slice())?,
    }
    Ok(told.push(';')?)
}

// Adds what the messages of an answer say.
fn push_messages(
    alloc: Global,
    told: &mut String,
    kind: &str,
    messages: &[Bytes],
) -> Result<(), Fault> {
    if kind == "rows" && !messages.is_empty() {
        return Ok(push_rows(told, &rows_of(alloc, messages)?, Form::Kinds)?);
    }
    for message in messages {
        push_message(alloc, told, kind, message)?;
    }
    Ok(())
}

// Adds the next answer to a call of this kind: its status, and what its messages say.
fn push_answer(
    alloc: Global,
    told: &mut String,
    kind: &str,
    inbox: &mut Inbox,
) -> Result<(), Fault> {
    let mut messages = Vec::new(alloc);
    for _ in 0..u64::MAX {
        match inbox.next()? {
            Some(Record::Message(message)) => messages.push(message)?,
            Some(Record::Status { code, text }) => {
                write!(told, "{code} {} | ", text.as_str())?;
                return push_messages(alloc, told, kind, &messages);
            }
            _ => break,
        }
    }
    Ok(told.push_str("no answer")?)
}

// Adds a line for the answer to each call.
fn push_answers(alloc: Global, told: &mut String, calls: &str, output: &[u8]) -> Result<(), Fault> {
    let mut inbox = Inbox::of_client(alloc);
    inbox.feed(output)?;
    for call in calls.split(' ') {
        let (kind, _) = halves(call, ":");
        push_answer(alloc, told, kind, &mut inbox)?;
        told.push('\n')?;
    }
    Ok(())
}

impl<'x, X: Executor> Connections<'x, X> {
    /// Connections whose fetches this executor makes.
    pub fn new(seed: HashSeed, executor: &'x X) -> Connections<'x, X> {
        Connections { seed, executor }
    }

    // What a `pipe` with these options runs with.
    fn setting(&self, alloc: Global, options: &str) -> Result<Setting<'x, X>, Fault> {
        let words = words(alloc, &format!(in alloc; "pipe {options}")?)?;
        let mut writer = MemoryOutput::new(alloc);
        let mut faults = MemoryOutput::new(alloc);
        let request = read_words(alloc, &words, &mut writer, &mut faults);
        let Ok(Request::Pipe { parts, workers }) = request else {
            return Err(Fault::BadFrame);
        };
        let workers = workers as usize;
        Ok(Setting {
            alloc,
            executor: self.executor,
            options: Options {
                parts,
                workers,
                keep: 0,
            },
        })
    }

    /// The answers to the calls of a connection, and how the program ends.
    pub fn answer(
        &self,
        alloc: Global,
        names: &Names,
        way: &str,
        case: &str,
    ) -> Result<String, Fault> {
        let (options, calls) = halves(case, " | ");
        let setting = self.setting(alloc, options)?;
        let input = input(alloc, names, calls)?;
        let most = if way == "bytewise" { 1 } else { 65_536 };
        let mut reader = MemoryInput::new(&input).in_pieces_of(most);
        let mut writer = MemoryOutput::new(alloc);
        let mut faults = MemoryOutput::new(alloc);
        let status = pipe(&setting, self.seed, &mut reader, &mut writer, &mut faults).number();
        let mut told = String::new(alloc);
        push_answers(alloc, &mut told, calls, writer.as_slice())?;
        write!(told, "ends {status} {}", faults.as_slice().len())?;
        Ok(told)
    }
}
