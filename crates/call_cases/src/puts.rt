//! Puts and fetches, each answered by a step over a log.

use crate::payload_text::{Form, push_batch, push_digits, push_rows, rows_of};
use crate::row_words::Names;
use bytes::Bytes;
use flight_client::Rows;
use flight_core::{Event, OneWorker, Plain, PlainBackend, Reply, reply_to};
use flight_proto::FlightData;
use scan_base::{Fault, HashSeed};
use std::alloc::{AllocError, Global};

/// The log of the puts so far.
#[derive(Drop)]
pub struct Puts {
    alone: PlainBackend,
    seed: HashSeed,
}

// Adds the bytes of all payloads.
fn push_bytes(alloc: Global, told: &mut String, payloads: &[Bytes]) -> Result<(), AllocError> {
    told.push_str("bytes ")?;
    for payload in payloads {
        push_digits(alloc, told, payload.as_slice())?;
    }
    Ok(())
}

// Adds the first two bytes of the body of the last payload.
fn push_bits(alloc: Global, told: &mut String, payloads: &[Bytes]) -> Result<(), Fault> {
    let last = payloads.last().ok_or(Fault::BadBatch)?;
    let data = FlightData::read(last)?;
    let body = data.data_body.as_slice();
    Ok(push_digits(alloc, told, body.get(..2).unwrap_or(body))?)
}

// Adds how many rows each batch has, with a space after.
fn push_counts(told: &mut String, rows: &Rows) -> Result<(), AllocError> {
    for batch in rows.batches() {
        write!(told, "{} ", batch.rows())?;
    }
    Ok(())
}

// The rows without their columns.
fn all_rows(alloc: Global, rows: &Rows) -> Result<String, AllocError> {
    let mut told = String::new(alloc);
    for batch in rows.batches() {
        push_batch(&mut told, batch, Form::Between)?;
    }
    Ok(told)
}

// Adds rows that end with a semicolon each: of equal ones after each other how many they are, and
// one of them.
fn push_runs(told: &mut String, rows: &str) -> Result<(), AllocError> {
    let mut count: u32 = 0;
    let mut last = "";
    for row in rows.split(';') {
        if row == last {
            count = count.saturating_add(1);
            continue;
        }
        if count > 0 {
            write!(told, "{count}*{last};")?;
        }
        count = 1;
        last = row;
    }
    Ok(())
}

// Adds what the payloads say that answer a row of this word.
fn push_payloads(
    alloc: Global,
    told: &mut String,
    word: &str,
    payloads: &[Bytes],
) -> Result<(), Fault> {
    match word {
        "put" => push_bytes(alloc, told, payloads)?,
        "bits" => push_bits(alloc, told, payloads)?,
        "cut" => push_counts(told, &rows_of(alloc, payloads)?)?,
        "runs" => {
            let rows = all_rows(alloc, &rows_of(alloc, payloads)?)?;
            push_runs(told, &rows)?;
        }
        _ => push_rows(told, &rows_of(alloc, payloads)?, Form::Between)?,
    }
    Ok(())
}

impl Puts {
    /// The empty log.
    pub fn new(alloc: Global, seed: HashSeed) -> Result<Puts, Fault> {
        Ok(Puts {
            alone: PlainBackend::new(Plain::new(alloc, seed)?),
            seed,
        })
    }

    // The reply to a put of these words, or to a fetch of this ticket.
    fn reply(
        &mut self,
        alloc: Global,
        names: &Names,
        word: &str,
        row: &str,
    ) -> Result<Reply, Fault> {
        let event = match word {
            "put" => Event::Put(names.payloads(alloc, row)?),
            _ => Event::Fetch {
                ticket: names.payload(alloc, row)?,
                workers: 1,
            },
        };
        reply_to(alloc, &OneWorker, &mut self.alone, &event)
    }

    /// What an empty log, a put or a fetch is answered. The words of a fetch say what is told of
    /// its rows.
    pub fn answer(
        &mut self,
        alloc: Global,
        names: &Names,
        word: &str,
        row: &str,
    ) -> Result<String, Fault> {
        if word == "log" {
            *self = Puts::new(alloc, self.seed)?;
            return Ok(String::from_str(alloc, word)?);
        }
        let reply = self.reply(alloc, names, word, row)?;
        let mut told = String::new(alloc);
        match reply.fault {
            Some(fault) => write!(told, "{fault} {}", reply.payloads.len())?,
            None => push_payloads(alloc, &mut told, word, &reply.payloads)?,
        }
        Ok(told)
    }
}
