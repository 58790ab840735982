//! Prints what becomes of a server with several seats and of the commands of clients, over loopback
//! and over answers in memory: a line for each case. `README.md` says what stands in a line.
#![tactic(auto)]

mod at_once;
mod clients;
mod endless_serve;
mod expiries;
mod formats;
mod history;
mod open_stream;
mod recording_listener;
mod server_thread;
mod side_by_side;
mod stopped_queries;
mod streams;
mod texts;

use crate::clients::{PUTS, told_port, told_put};
use crate::endless_serve::without_end;
use crate::server_thread::{Client, beside};
use crate::side_by_side::told_ahead;
use crate::stopped_queries::{STOPPING, told_stream};
use command_line::Format;
use std::io;

// Each piece is written whole.
const WHOLE: usize = usize::MAX;

fn main(rt: HostRuntime) -> io::Result<()> {
    let alloc = rt.alloc();
    let whole = beside(&rt, 3, Client::StaysOpen(WHOLE))?;
    println!(rt; "open connection, whole writes: {whole}")?;
    let bytewise = beside(&rt, 3, Client::StaysOpen(1))?;
    println!(rt; "open connection, writes of a byte: {bytewise}")?;
    let cut = beside(&rt, 3, Client::StaysWhole)?;
    println!(rt; "cut connection: {cut}")?;
    let commands = beside(&rt, 6, Client::Commands)?;
    println!(rt; "five commands: {commands}")?;
    let formats = beside(&rt, 8, Client::Formats)?;
    println!(rt; "formats: {formats}")?;
    let streamed = beside(&rt, 7, Client::StreamsInTurn)?;
    println!(rt; "stream over three connections: {streamed}")?;
    let expired = beside(&rt, 4, Client::Expires)?;
    println!(rt; "expired versions: {expired}")?;
    let kept = beside(&rt, 2, Client::PutsBeyondKept)?;
    println!(rt; "kept versions: {kept}")?;
    let endless = without_end(&rt, 4, Client::Expires)?;
    println!(rt; "without an end: {endless}")?;
    let port = told_port(&rt)?;
    println!(rt; "nobody listens: {port}")?;
    for case in PUTS.iter() {
        let put = told_put(alloc, case)?;
        println!(rt; "{}: {put}", case.name)?;
    }
    for case in STOPPING.iter() {
        let stream = told_stream(&rt, alloc, case)?;
        println!(rt; "{}: {stream}", case.name)?;
    }
    let lines = told_ahead(&rt, alloc, Format::Lines)?;
    println!(rt; "lines, second is begun ahead: {lines}")?;
    let stream = told_ahead(&rt, alloc, Format::Arrow)?;
    println!(rt; "stream, second is begun ahead: {stream}")
}
