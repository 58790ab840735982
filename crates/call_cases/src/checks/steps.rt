//! A run with ample memory. What is refused, and columns of every type, are rows of the room
//! `puts`.

use anyhow::{Result, bail, ensure};
use bytes::Bytes;
use flight_core::laws::{
    answers_say_one_thing, handles_mean_one, joined, puts_are_said, refusals_leave_nothing,
    runs_meet_headline,
};
use flight_core::{Event, OneWorker, Reply, run};
use scan_base::HashSeed;
use std::alloc::{AllocError, Global};

/// The first FlightData of a put that creates table `t`: its command and the header of a schema of
/// one nullable Int64 column `a`.
pub static FIRST: &[u8] = b"\x0aS\x08\x02\x12O\x0aD\
    type.googleapis.com/arrow.flight.protocol.sql.CommandStatementIngest\
    \x12\x07\x0a\x02\x08\x01\x12\x01t\x12p\
    \x10\x00\x00\x00\x00\x00\x0a\x00\x0c\x00\x08\x00\x0a\x00\x04\x00\x0a\x00\x00\x00\x10\x00\x00\
    \x00\x04\x00\x01\x00\x08\x00\x08\x00\x00\x00\x04\x00\x08\x00\x00\x00\x04\x00\x00\x00\x01\x00\
    \x00\x00\x10\x00\x00\x00\x0c\x00\x10\x00\x04\x00\x0c\x00\x0d\x00\x08\x00\x0c\x00\x00\x00\x0c\
    \x00\x00\x00\x18\x00\x00\x00\x01\x02\x00\x00\x01\x00\x00\x00a\x00\x00\x00\x08\x00\x0c\x00\
    \x04\x00\x08\x00\x08\x00\x00\x00@\x00\x00\x00\x01\x00\x00\x00\x00\x00\x00\x00";

/// Its second FlightData: the header of a batch of 2 rows, and the body, 1 and 2.
pub static SECOND: &[u8] = b"\x12\x80\x01\
    \x10\x00\x00\x00\x0c\x00\x14\x00\x10\x00\x12\x00\x04\x00\x08\x00\x0c\x00\x00\x00\x1c\x00\x00\
    \x00\x10\x00\x00\x00\x00\x00\x00\x00\x04\x00\x03\x00\x00\x00\x0a\x00\x14\x00\x08\x00\x04\x00\
    \x10\x00\x0a\x00\x00\x00\x10\x00\x00\x00\x02\x00\x00\x00\x00\x00\x00\x00\x1c\x00\x00\x00\x01\
    \x00\x00\x00\x02\x00\x00\x00\x00\x00\x00\x00\x00\x00\x00\x00\x00\x00\x00\x00\x00\x00\x00\x00\
    \x02\x00\x00\x00\x00\x00\x00\x00\x00\x00\x00\x00\x00\x00\x00\x00\x00\x00\x00\x00\x00\x00\x00\
    \x00\x00\x00\x00\x00\x10\x00\x00\x00\x00\x00\x00\x00\
    \xc2>\x10\
    \x01\x00\x00\x00\x00\x00\x00\x00\x02\x00\x00\x00\x00\x00\x00\x00";

// The ticket of version 1, rows 0 up to 2, `SELECT * FROM t`.
static TICKET: &[u8] = b"\x0ah\x0aB\
    type.googleapis.com/arrow.flight.protocol.sql.TicketStatementQuery\
    \x12\x22\x0a\x20\x01\x00\x00\x00\x00\x00\x00\x00\x01\x00\x00\x00\x00\x00\x00\x00\x02SELECT * FROM t";

// The put, and a fetch of what it put.
fn events(alloc: Global) -> Result<Vec<Event>, AllocError> {
    let mut payloads = Vec::with_capacity(alloc, 2)?;
    payloads.push(Bytes::from_static(FIRST))?;
    payloads.push(Bytes::from_static(SECOND))?;
    let mut events = Vec::with_capacity(alloc, 2)?;
    events.push(Event::Put(payloads))?;
    events.push(Event::Fetch {
        ticket: Bytes::from_static(TICKET),
        workers: 1,
    })?;
    Ok(events)
}

// Whether a reply has no fault, and so many payloads, of which the last ends with these bytes.
fn ends_with(reply: &Reply, count: usize, end: &[u8]) -> bool {
    match reply.payloads.last() {
        Some(last) => {
            reply.fault.is_none() && reply.payloads.len() == count && last.as_slice().ends_with(end)
        }
        None => false,
    }
}

// Two rows are put and counted, and their values are fetched.
fn first_run(alloc: Global, seed: HashSeed) -> Result<()> {
    let replies = run(alloc, &OneWorker, seed, &events(alloc)?)?;
    let [put, fetch] = replies.as_slice() else {
        bail!("two replies are wanted");
    };
    ensure!(ends_with(put, 1, b"\x0a\x02\x08\x02"));
    ensure!(ends_with(fetch, 2, b"\x01\0\0\0\0\0\0\0\x02\0\0\0\0\0\0\0"));
    Ok(())
}

// The laws are functions, which give what they say.
fn laws() -> Result<()> {
    answers_say_one_thing();
    handles_mean_one();
    joined();
    puts_are_said();
    refusals_leave_nothing();
    runs_meet_headline();
    Ok(())
}

/// What comes of the check of this name.
pub fn check(alloc: Global, seed: HashSeed, name: &str) -> Result<()> {
    match name {
        "first_run" => first_run(alloc, seed),
        "laws" => laws(),
        _ => bail!("no check"),
    }
}
