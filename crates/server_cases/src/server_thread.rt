//! A server in a thread, and a client next to it.

ghost use Rattle.std.specs.Prelude.{◌≡◌};

use crate::at_once::{stay_open, stay_whole};
use crate::clients::run_commands;
use crate::expiries::{expire_old, put_beyond_kept};
use crate::formats::{run_formats, stream_in_turn};
use crate::open_stream::connected;
use crate::texts::push_text;
use client_calls::Failure;
use command_ends::{AcceptFailure, Listen, PortLine};
use command_line::ServeOptions;
use commands::serve::{Host, serve};
use commands::shown_seat::ShownSeat;
use grpc_frame::{CountedEnd, MemoryOutput};
use loopback::{Port, SocketWriter};
use scan_base::{Fault, HashSeed};
use std::alloc::{AllocGlobal, Global};
use std::net::{Net, TcpListener, TcpStream};
use std::random::RandomSource;
use std::sync::Wait;
use std::thread::Threads;
use std::time::Clock;
use std::{io, thread};
use version_cell::UnnamedBook;

// What calls a server.
#[derive(Clone, Copy)]
pub(crate) enum Client {
    // A connection that stays open while others put. So many bytes are written at once.
    StaysOpen(usize),
    // A connection next to one that is cut.
    StaysWhole,
    // Five commands.
    Commands,
    // The formats of `query`.
    Formats,
    // An Arrow IPC stream over several connections.
    StreamsInTurn,
    // Old versions that are expired.
    Expires,
    // Versions of which the server keeps the newest two.
    PutsBeyondKept,
}

impl Client {
    // How many versions its server keeps; 0 stands for all.
    fn keep(self) -> u32 {
        match self {
            Client::PutsBeyondKept => 2,
            _ => 0,
        }
    }

    // In how many parts its server cuts the rows of a query.
    fn parts(self) -> u32 {
        match self {
            Client::StreamsInTurn => 3,
            _ => 2,
        }
    }
}

// Has a client call the server at this port, and adds what comes of it.
pub(crate) fn call<R>(rt: &R, client: Client, port: u16, told: &mut String) -> Result<(), Failure>
where
    R: Net<Listener = TcpListener, Stream = TcpStream> + RandomSource + AllocGlobal,
    R: Threads + Clock + Sync,
{
    match client {
        Client::StaysOpen(most) => stay_open(rt, port, most, told),
        Client::StaysWhole => stay_whole(rt, port, told),
        Client::Commands => run_commands(rt, port, told),
        Client::Formats => run_formats(rt, port, told),
        Client::StreamsInTurn => stream_in_turn(rt, port, told),
        Client::Expires => expire_old(rt, port, told),
        Client::PutsBeyondKept => put_beyond_kept(rt, port, told),
    }
}

// A port that is listened to already.
#[derive(Drop)]
pub(crate) struct BoundPort<'a, R> {
    port: Port<'a, R>,
    pub(crate) number: u16,
    ghost same: { port.number ≡ number },
}

impl<'a, R: Net<Listener = TcpListener, Stream = TcpStream> + Clock> BoundPort<'a, R> {
    // A port that is free.
    pub(crate) fn new(rt: &'a R) -> io::Result<BoundPort<'a, R>> {
        let mut port = Port::new(rt);
        let number = Listen::<ShownSeat>::listen(&mut port, 0, 0)?;
        Ok(BoundPort { port, number })
    }
}

impl<'a, R> Listen<ShownSeat> for BoundPort<'a, R>
where
    R: Net<Listener = TcpListener, Stream = TcpStream> + Clock,
{
    ghost use Rattle.std.specs.Prelude.{IfOk};
    ghost use Rattle.command_ends.specs.Network.{AreNew};

    type Reader = CountedEnd<TcpStream>;

    type Writer = SocketWriter<'a, R>;

    ghost listens = { λ _ _ _ _ _. Unit {0} };

    ghost shares = { λ _ _ _. Unit {0} };

    ghost handed = { λ bound. bound.port.handed };

    // Nothing was read or written yet.
    ghost accepts = { λ _ made _. IfOk made (λ ends. AreNew ends) };

    ghost closes = { λ _ _. Unit {0} };

    ghost port_of = { λ bound. bound.number };

    ghost at_rest = { λ _. Unit {0} };

    ghost holds = { λ _ _. Unit {0} };

    ghost rests = { λ _ _. Unit {0} };

    ghost cell = { λ _ _. Unit {0} };

    ghost due = { λ _ _ _. Unit {0} };

    ghost owed = { λ _ _ _ _. Unit {0} };

    fn listen(&mut self, _port: u16, _idle: u16) -> io::Result<u16> {
        Ok(self.number)
    }

    fn share(&mut self) -> io::Result<Self> {
        Ok(BoundPort {
            port: Listen::<ShownSeat>::share(&mut self.port)?,
            number: self.number,
        })
    }

    fn accept(
        &mut self,
        announced: &PortLine,
        seat: &ShownSeat,
    ) -> Result<(CountedEnd<TcpStream>, SocketWriter<'a, R>), AcceptFailure> {
        self.port.accept(announced, seat)
    }

    fn done(
        &mut self,
        reader: CountedEnd<TcpStream>,
        writer: SocketWriter<'a, R>,
        seat: &ShownSeat,
    ) {
        self.port.done(reader, writer, seat);
    }
}

// Whether a server has printed the line of its port, and nothing else.
pub(crate) fn names_port(alloc: Global, output: &MemoryOutput, port: u16) -> bool {
    match format!(in alloc; "listening 127.0.0.1:{port}\n") {
        Ok(line) => output.as_slice() == line.as_bytes(),
        Err(_) => false,
    }
}

// What came of a server: its exit status, whether it printed the line of its port and nothing else,
// and what it said of faults.
#[derive(Drop)]
struct ServeOutcome {
    status: u8,
    names_port: bool,
    faults: MemoryOutput,
}

// Serves so many connections of this client, two at once.
fn serve_bound<R>(
    host: Host<'_, R>,
    mut bound: BoundPort<'_, R>,
    accept: u16,
    client: Client,
) -> ServeOutcome
where
    R: Net<Listener = TcpListener, Stream = TcpStream> + Threads + Wait + Clock + Sync,
{
    let alloc = host.alloc;
    let mut output = MemoryOutput::new(alloc);
    let mut faults = MemoryOutput::new(alloc);
    let serving = ServeOptions {
        port: 0,
        seats: 2,
        accept,
        idle: 0,
        keep: client.keep(),
        parts: client.parts(),
        workers: 1,
    };
    let opened = UnnamedBook::new();
    let status = serve(host, opened, &mut bound, &mut output, &mut faults, serving).number();
    let names_port = names_port(alloc, &output, bound.number);
    ServeOutcome {
        status,
        names_port,
        faults,
    }
}

// The fault of a failure, wherever it was found.
pub(crate) fn fault_of(failure: Failure) -> Fault {
    match failure {
        Failure::Answered(fault) | Failure::Found(fault) => fault,
    }
}

// What comes of a client that calls the server at this port. Where it fails, its fault stands last,
// and it may not have made all connections: so many are made then, that the server ends.
fn called<R>(rt: &R, client: Client, port: u16, accept: u16) -> String
where
    R: Net<Listener = TcpListener, Stream = TcpStream> + RandomSource + AllocGlobal,
    R: Threads + Clock + Sync,
{
    let mut told = String::new(rt.alloc());
    if let Err(failure) = call(rt, client, port, &mut told) {
        let _ = write!(told, " {}", fault_of(failure));
        for _ in 0..accept {
            let _ = connected(rt, port, 1);
        }
    }
    told
}

// What comes of a server that serves so many connections, and of a client next to it.
pub(crate) fn beside<R>(rt: &R, accept: u16, client: Client) -> io::Result<String>
where
    R: Net<Listener = TcpListener, Stream = TcpStream> + RandomSource + AllocGlobal,
    R: Threads + Wait + Clock + Sync,
{
    let (alloc, seed) = (rt.alloc(), HashSeed::new(rt)?);
    let host = Host { rt, alloc, seed };
    let bound = BoundPort::new(rt)?;
    let number = bound.number;
    let (served, told) = thread::join(
        rt,
        move || serve_bound(host, bound, accept, client),
        || called(rt, client, number, accept),
    );
    let mut line = format!(in alloc; "server {} {}", served.status, served.names_port)?;
    push_text(&mut line, served.faults.as_slice())?;
    write!(line, ", client{told}")?;
    Ok(line)
}
