//! Streams of answers as a client reads them, infos and statuses.

use crate::payload_text::{Form, push_digits, push_rows};
use crate::row_words::{Names, halves};
use flight_client::{Stream, fault_of_status, join, read_info};
use scan_base::Fault;
use std::alloc::Global;

// The code and the text of a status.
fn status(words: &str) -> (u8, &str) {
    let (code, text) = halves(words, " ");
    (code.parse::<u8>().unwrap_or(u8::MAX), text)
}

// The tickets of an info, each with a comma after.
fn tickets(alloc: Global, message: &[u8]) -> Result<String, Fault> {
    let info = read_info(alloc, message)?;
    let mut told = String::new(alloc);
    for endpoint in &info.endpoints {
        push_digits(alloc, &mut told, endpoint.ticket.as_slice())?;
        told.push(',')?;
    }
    Ok(told)
}

// The stream of payloads and a status. The faults of refused payloads are told.
fn stream(alloc: Global, names: &Names, case: &str, faults: &mut String) -> Result<Stream, Fault> {
    let mut stream = Stream::new(alloc);
    let (payloads, end) = halves(case, " = ");
    for payload in &names.payloads(alloc, payloads)? {
        if let Err(fault) = stream.message(alloc, payload) {
            write!(faults, "{fault}, ")?;
        }
    }
    if !end.is_empty() {
        let (code, text) = status(end);
        stream.end(code, text);
    }
    Ok(stream)
}

// What streams say once they are joined.
fn joined(alloc: Global, names: &Names, case: &str) -> Result<String, Fault> {
    let mut told = String::new(alloc);
    let mut streams = Vec::new(alloc);
    for part in case.split(" | ") {
        if !part.is_empty() {
            streams.push(stream(alloc, names, part, &mut told)?)?;
        }
    }
    match join(streams) {
        Ok(rows) => push_rows(&mut told, &rows, Form::After)?,
        Err(fault) => write!(told, "{fault}")?,
    }
    Ok(told)
}

/// What an info, a status or streams are answered.
pub fn answer(alloc: Global, names: &Names, word: &str, case: &str) -> Result<String, Fault> {
    match word {
        "info" => tickets(alloc, &names.bytes_of(alloc, case)?),
        "status" => {
            let (code, text) = status(case);
            Ok(format!(in alloc; "{:?}", fault_of_status(code, text))?)
        }
        _ => joined(alloc, names, case),
    }
}
