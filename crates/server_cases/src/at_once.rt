//! Connections that are open at once.

use crate::WHOLE;
use crate::open_stream::{Wire, add_all, add_lines, connected, endpoints_of, put_into};
use crate::streams::{CUT_PUT, ONE_TO_FIVE, OTHER_SCHEMA, SIX_AND_SEVEN};
use client_calls::Failure;
use grpc_frame::{CountedEnd, Input, Output};
use scan_base::{Fault, PutMode};
use std::alloc::AllocGlobal;
use std::net::{Net, TcpListener, TcpStream};
use std::sync::atomic::{AtomicBool, Ordering};
use std::thread;
use std::thread::Threads;
use std::time::{Clock, Duration};

// The later puts: rows are appended, and then the table is replaced by one of another schema.
fn put_later<R>(rt: &R, port: u16, most: usize, answered: &AtomicBool) -> Result<(), Failure>
where
    R: Net<Listener = TcpListener, Stream = TcpStream> + AllocGlobal,
{
    let wire = connected(rt, port, most)?;
    put_into(rt.alloc(), &wire, PutMode::Append, SIX_AND_SEVEN)?;
    put_into(rt.alloc(), &wire, PutMode::Replace, OTHER_SCHEMA)?;
    answered.store(true, Ordering::SeqCst);
    Ok(())
}

// Waits until the puts are answered, for 10,000 turns at most. It tells whether they are.
fn wait_for<T: Clock>(clock: &T, answered: &AtomicBool) -> bool {
    for _ in 0..10_000 {
        if answered.load(Ordering::SeqCst) {
            return true;
        }
        thread::sleep(clock, Duration::from_millis(1));
    }
    false
}

// Has others put, in a thread of their own. It tells whether that was answered in time.
fn others_put<R>(rt: &R, port: u16, most: usize) -> bool
where
    R: Net<Listener = TcpListener, Stream = TcpStream> + AllocGlobal + Threads + Clock + Sync,
{
    let answered = AtomicBool::new(false);
    let (later, in_time) = thread::join(
        rt,
        || put_later(rt, port, most, &answered),
        || wait_for(rt, &answered),
    );
    later.is_ok() && in_time
}

// Puts five rows and asks where they are; stays open while others put; and then fetches them, the
// second endpoint over a further connection: the first one has its seat still, so that is served
// over the seat by which the others put. An open connection keeps no other from being served, and
// what its info names stays, for each connection.
pub(crate) fn stay_open<R>(rt: &R, port: u16, most: usize, told: &mut String) -> Result<(), Failure>
where
    R: Net<Listener = TcpListener, Stream = TcpStream> + AllocGlobal + Threads + Clock + Sync,
{
    let wire = connected(rt, port, most)?;
    put_into(rt.alloc(), &wire, PutMode::Create, ONE_TO_FIVE)?;
    let endpoints = endpoints_of(rt.alloc(), &wire)?;
    if !others_put(rt, port, most) {
        return Err(Failure::Found(Fault::Transport));
    }
    let further = connected(rt, port, most)?;
    add_lines(rt.alloc(), told, [&wire, &further], &endpoints)
}

// Writes the bytes, and ends what is written.
fn write_cut(wire: &Wire, bytes: &[u8]) -> Result<(), Failure> {
    CountedEnd::new(wire).write(bytes)?;
    wire.end()
}

// Whether the server closes its end with nothing answered before. The read waits until it does.
fn is_closed(wire: &Wire) -> bool {
    let mut answer = [0; 1];
    matches!(CountedEnd::new(wire).read(&mut answer), Ok(0))
}

// Writes a put that is cut, and waits until the server has met the cut.
fn cut_a_put<R: Net<Listener = TcpListener, Stream = TcpStream>>(
    rt: &R,
    port: u16,
) -> Result<(), Failure> {
    let wire = connected(rt, port, WHOLE)?;
    write_cut(&wire, CUT_PUT)?;
    if is_closed(&wire) {
        Ok(())
    } else {
        Err(Failure::Found(Fault::BadFrame))
    }
}

// Puts five rows, has another connection cut its put, and fetches all rows; then a further
// connection, which the seat of the cut one serves, puts two more and fetches all. The connection
// that is cut inside the last message of its put ends alone, and has put nothing: of what it would
// have left in the table, not one of the five rows would be. A seat need not be told of puts of
// others before it puts itself, so the two rows tell: they are appended to the five.
pub(crate) fn stay_whole<R>(rt: &R, port: u16, told: &mut String) -> Result<(), Failure>
where
    R: Net<Listener = TcpListener, Stream = TcpStream> + AllocGlobal,
{
    let wire = connected(rt, port, WHOLE)?;
    put_into(rt.alloc(), &wire, PutMode::Create, ONE_TO_FIVE)?;
    cut_a_put(rt, port)?;
    add_all(rt.alloc(), told, &wire)?;
    let further = connected(rt, port, WHOLE)?;
    put_into(rt.alloc(), &further, PutMode::Append, SIX_AND_SEVEN)?;
    add_all(rt.alloc(), told, &further)
}
