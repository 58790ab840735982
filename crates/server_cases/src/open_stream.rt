//! Calls over a stream that stays open, each by itself.

use crate::texts::push_text;
use bytes::Bytes;
use client_calls::{Connection, Failure, Target, fetch, info, put};
use flight_client::{Rows, Stream, join};
use flight_proto::{FlightEndpoint, InfoCommand};
use grpc_frame::{CountedEnd, MemoryOutput, Outbox};
use ipc_stream::ipc_messages;
use row_text::{Lines, send_batch, send_names};
use scan_base::{Fault, PutMode};
use std::alloc::Global;
use std::io;
use std::io::{Read, Write};
use std::net::{Ipv4Addr, Net, Shutdown, TcpListener, TcpStream};
use std::time::Duration;

const ALL: &str = "SELECT * FROM t";

// A read that waits longer fails, so that no call waits for ever.
const LONGEST_READ_SECONDS: u64 = 10;

// A stream, and how many bytes it takes at most by one write. What is written goes out at once.
#[derive(Drop)]
pub(crate) struct Wire {
    stream: TcpStream,
    most: usize,
}

impl Wire {
    // Connects to a port of this machine.
    fn connect<R: Net<Listener = TcpListener, Stream = TcpStream>>(
        rt: &R,
        port: u16,
        most: usize,
    ) -> io::Result<Wire> {
        let stream = TcpStream::connect(rt, (Ipv4Addr::LOCALHOST, port))?;
        stream.set_nodelay(true)?;
        stream.set_read_timeout(Some(Duration::from_secs(LONGEST_READ_SECONDS)))?;
        Ok(Wire { stream, most })
    }

    // Ends what is written.
    pub(crate) fn end(&self) -> Result<(), Failure> {
        match self.stream.shutdown(Shutdown::Write) {
            Ok(()) => Ok(()),
            Err(_) => Err(Failure::Found(Fault::Transport)),
        }
    }
}

impl Read for &Wire {
    fn read(&mut self, piece: &mut [u8]) -> io::Result<usize> {
        let mut stream = &self.stream;
        stream.read(piece)
    }
}

impl Write for &Wire {
    fn write(&mut self, piece: &[u8]) -> io::Result<usize> {
        let mut stream = &self.stream;
        let count = self.most.min(piece.len());
        stream.write(&piece[..count])
    }

    fn flush(&mut self) -> io::Result<()> {
        let mut stream = &self.stream;
        stream.flush()
    }
}

// Connects to a port of this machine by a wire that takes so many bytes by one write.
pub(crate) fn connected<R: Net<Listener = TcpListener, Stream = TcpStream>>(
    rt: &R,
    port: u16,
    most: usize,
) -> Result<Wire, Failure> {
    match Wire::connect(rt, port, most) {
        Ok(wire) => Ok(wire),
        Err(_) => Err(Failure::Found(Fault::Transport)),
    }
}

// Puts an Arrow IPC stream into table t.
pub(crate) fn put_into(
    alloc: Global,
    wire: &Wire,
    mode: PutMode,
    rows: &'static [u8],
) -> Result<(), Failure> {
    let messages = ipc_messages(alloc, &Bytes::from_static(rows))?;
    let mut connection = Connection::new(alloc, CountedEnd::new(wire), CountedEnd::new(wire));
    let target = Target { table: "t", mode };
    put(alloc, &mut connection, target, &messages)?;
    Ok(())
}

// The endpoints of all rows of table t.
pub(crate) fn endpoints_of(alloc: Global, wire: &Wire) -> Result<Vec<FlightEndpoint>, Failure> {
    let mut connection = Connection::new(alloc, CountedEnd::new(wire), CountedEnd::new(wire));
    info(alloc, &mut connection, InfoCommand::Rows(ALL))
}

// The stream of an endpoint.
pub(crate) fn fetched(
    alloc: Global,
    wire: &Wire,
    endpoint: &FlightEndpoint,
) -> Result<Stream, Failure> {
    let mut connection = Connection::new(alloc, CountedEnd::new(wire), CountedEnd::new(wire));
    fetch(alloc, &mut connection, &endpoint.ticket)
}

// The rows of two endpoints, each fetched over the wire in its place. The second is fetched first.
fn rows_of(
    alloc: Global,
    wires: [&Wire; 2],
    endpoints: &[FlightEndpoint],
) -> Result<Rows, Failure> {
    let [first, second] = endpoints else {
        return Err(Failure::Found(Fault::BadTicket));
    };
    let behind = fetched(alloc, wires[1], second)?;
    let before = fetched(alloc, wires[0], first)?;
    let Ok(streams) = vec![in alloc; before, behind] else {
        return Err(Failure::Found(Fault::OutOfMemory));
    };
    Ok(join(streams)?)
}

// Adds what is printed of the rows of two endpoints.
pub(crate) fn add_lines(
    alloc: Global,
    told: &mut String,
    wires: [&Wire; 2],
    endpoints: &[FlightEndpoint],
) -> Result<(), Failure> {
    let rows = rows_of(alloc, wires, endpoints)?;
    let fields = rows.schema().fields.as_slice();
    let mut output = MemoryOutput::new(alloc);
    let mut outbox = Outbox::new(alloc);
    send_names(&Lines { fields }, &mut output, &mut outbox, fields)?;
    for batch in rows.batches() {
        send_batch(&Lines { fields }, &mut output, &mut outbox, batch)?;
    }
    outbox.flush(&mut output)?;
    push_text(told, output.as_slice())?;
    Ok(())
}

// Adds what is printed of all rows of table t.
pub(crate) fn add_all(alloc: Global, told: &mut String, wire: &Wire) -> Result<(), Failure> {
    let endpoints = endpoints_of(alloc, wire)?;
    add_lines(alloc, told, [wire, wire], &endpoints)
}
