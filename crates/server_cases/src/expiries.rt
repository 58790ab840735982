//! Old versions that are expired, over loopback from a `serve` in another thread.

use crate::WHOLE;
use crate::clients::add_heard;
use crate::open_stream::{Wire, add_all, add_lines, connected, endpoints_of, fetched, put_into};
use crate::streams::{ONE_TO_FIVE, SIX_AND_SEVEN};
use client_calls::Failure;
use client_commands::expire::expire;
use flight_proto::FlightEndpoint;
use grpc_frame::MemoryOutput;
use loopback::Loopback;
use scan_base::{Fault, PutMode};
use std::alloc::{AllocError, AllocGlobal, Global};
use std::net::{Net, TcpListener, TcpStream};

// Expires the versions below a number, over a connection of its own.
fn expire_below<R>(rt: &R, port: u16, version: u64, told: &mut String) -> Result<(), AllocError>
where
    R: Net<Listener = TcpListener, Stream = TcpStream> + AllocGlobal,
{
    let alloc = rt.alloc();
    let mut network = Loopback::new(rt);
    let mut lines = MemoryOutput::new(alloc);
    let mut said = MemoryOutput::new(alloc);
    let status = expire(alloc, &mut network, &mut lines, &mut said, port, version);
    add_heard(told, status.number(), &lines, &said)
}

// Adds the fault that the server answers to a fetch of the first of these endpoints.
fn add_fault(
    alloc: Global,
    told: &mut String,
    wire: &Wire,
    endpoints: &[FlightEndpoint],
) -> Result<(), Failure> {
    let Some(endpoint) = endpoints.first() else {
        return Err(Failure::Found(Fault::BadTicket));
    };
    match fetched(alloc, wire, endpoint) {
        Ok(_) => Ok(told.push_str(" no fault")?),
        Err(Failure::Answered(fault)) => Ok(write!(told, " {fault}")?),
        Err(failure) => Err(failure),
    }
}

// Puts five rows and asks where they are, which names version 1. Two more are appended: version 2.
// Three commands then expire what is below 2, below 3, which was never reached, and below 1, which
// is below the floor; each makes a connection. What the info names is not fetched any more, over a
// connection that was open all the time, and all rows of version 2 are.
pub(crate) fn expire_old<R>(rt: &R, port: u16, told: &mut String) -> Result<(), Failure>
where
    R: Net<Listener = TcpListener, Stream = TcpStream> + AllocGlobal,
{
    let alloc = rt.alloc();
    let wire = connected(rt, port, WHOLE)?;
    put_into(alloc, &wire, PutMode::Create, ONE_TO_FIVE)?;
    let endpoints = endpoints_of(alloc, &wire)?;
    put_into(alloc, &wire, PutMode::Append, SIX_AND_SEVEN)?;
    for version in [2, 3, 1] {
        expire_below(rt, port, version, told)?;
    }
    add_fault(alloc, told, &wire, &endpoints)?;
    add_all(alloc, told, &wire)
}

// Two connections put three times, to a server that keeps two versions: five rows by the one, and
// two more after them by the other and then by the one. In between each asks where the rows are, at
// versions 1 and 2. After the third put the one that did not make it fetches of version 1, which is
// expired, and the rows of version 2, which is kept; and the other those of version 3.
pub(crate) fn put_beyond_kept<R>(rt: &R, port: u16, told: &mut String) -> Result<(), Failure>
where
    R: Net<Listener = TcpListener, Stream = TcpStream> + AllocGlobal,
{
    let alloc = rt.alloc();
    let one = connected(rt, port, WHOLE)?;
    let other = connected(rt, port, WHOLE)?;
    put_into(alloc, &one, PutMode::Create, ONE_TO_FIVE)?;
    let first = endpoints_of(alloc, &one)?;
    put_into(alloc, &other, PutMode::Append, SIX_AND_SEVEN)?;
    let second = endpoints_of(alloc, &other)?;
    put_into(alloc, &one, PutMode::Append, SIX_AND_SEVEN)?;
    add_fault(alloc, told, &other, &first)?;
    add_lines(alloc, told, [&other, &other], &second)?;
    add_all(alloc, told, &one)
}
