//! Rows of four rooms: puts, streams of a client, connections, and checks. Each is answered by a line
//! or more.
//!
//! The first word of a row says what it is. Any other row is printed as it is.
//!
//! - `bytes NAME WORD` and `payload NAME WORD` name bytes, and print nothing. A WORD is pieces with
//!   a `+` between (`row_words::Names::bytes_of`).
//! - `log` begins an empty log. `put PAYLOAD PAYLOAD ..` and `fetch TICKET` are answered by a step,
//!   and the answer is printed. `cut TICKET` prints how many rows each message of the answer has,
//!   `bits TICKET` the first two bytes of its last body, and `runs TICKET` its rows, equal ones
//!   once.
//! - `join STREAM | STREAM ..` prints what the joined streams say, where a STREAM is
//!   `NAME NAME .. = CODE TEXT`, payloads and a status, or payloads only; before it, of each
//!   refused payload its fault. `status CODE TEXT` prints the fault that has that status, and
//!   `info WORD` the tickets of an info.
//! - `pipe OPTIONS | KIND:NAME KIND:NAME ..` gives calls to one `pipe` with these options. It
//!   prints a line for each answer, with its status and what its messages say, and one for the end,
//!   with the exit status and how long what was printed is. For the KIND `info` messages are a
//!   FlightInfo, for `schema` a SchemaResult, for `rows` FlightData, for `bodies` the bodies of
//!   FlightData, and else bytes. `bytewise` is `pipe` whose input comes in single bytes. With
//!   `--workers W` up to W workers make the answer to a fetch, however few rows it has.
//! - `check MODULE::NAME` does a check, and prints whether it holds.
//!
//! The scripts of `vectors/puts`, `vectors/client` and `vectors/calls` write the rows of the first
//! three rooms, and what has to be printed. The code of a check has its rows, and what has to come.
#![tactic(auto)]

mod checks;
mod connections;
mod infos;
mod payload_text;
mod puts;
mod row_words;
mod streams;

use crate::connections::Connections;
use crate::puts::Puts;
use crate::row_words::{Names, halves};
use fetch_workers::Workers;
use flight_calls::Executor;
use scan_base::{Fault, HashSeed};
use std::alloc::Global;
use std::io;

// The bytes that were named, the rooms, and the seed of their tables.
#[derive(Drop)]
struct Rooms<'x, X> {
    seed: HashSeed,
    names: Names,
    puts: Puts,
    connections: Connections<'x, X>,
}

impl<'x, X: Executor> Rooms<'x, X> {
    // What a row is answered, if it is.
    fn answer(&mut self, alloc: Global, row: &str) -> Result<Option<String>, Fault> {
        let (word, rest) = halves(row, " ");
        let answer = match word {
            "bytes" | "payload" => {
                self.names.keep(alloc, rest)?;
                return Ok(None);
            }
            "log" | "put" | "fetch" | "cut" | "bits" | "runs" => {
                self.puts.answer(alloc, &self.names, word, rest)?
            }
            "join" | "status" | "info" => streams::answer(alloc, &self.names, word, rest)?,
            "pipe" | "bytewise" => self.connections.answer(alloc, &self.names, word, rest)?,
            "check" => checks::answer(alloc, self.seed, rest)?,
            _ => String::from_str(alloc, row)?,
        };
        Ok(Some(answer))
    }
}

// Prints an answer, or the fault of its row.
fn print(rt: &HostRuntime, answer: Result<Option<String>, Fault>) -> io::Result<()> {
    match answer {
        Ok(Some(text)) => println!(rt; "{text}"),
        Ok(None) => Ok(()),
        Err(fault) => println!(rt; "{fault}"),
    }
}

fn main(rt: HostRuntime) -> io::Result<()> {
    let alloc = rt.alloc();
    let seed = HashSeed::new(&rt)?;
    // A worker reads one row at least, so that the few rows of a case are those of several workers.
    let executor = Workers::reading(&rt, 1);
    let puts = match Puts::new(alloc, seed) {
        Ok(puts) => puts,
        Err(fault) => return print(&rt, Err(fault)),
    };
    let mut rooms = Rooms {
        seed,
        names: Names::new(alloc),
        puts,
        connections: Connections::new(seed, &executor),
    };
    for row in rt.lines(alloc) {
        print(&rt, rooms.answer(alloc, row?.as_str()))?;
    }
    Ok(())
}
