//! A server without an end, whose listener keeps what it is shown, and breaks after so many
//! connections.

ghost use Rattle.std.specs.Prelude.{◌≡◌};

use crate::history::BookName;
use crate::open_stream::connected;
use crate::recording_listener::{ListenerRecord, RecordingListener};
use crate::server_thread::{BoundPort, Client, call, fault_of, names_port};
use crate::texts::push_text;
use command_line::ServeOptions;
use commands::serve::{Host, serve};
use grpc_frame::MemoryOutput;
use scan_base::HashSeed;
use std::alloc::AllocGlobal;
use std::marker::Brand;
use std::net::{Net, TcpListener, TcpStream};
use std::random::RandomSource;
use std::sync::{Mutex, Wait};
use std::thread::Threads;
use std::time::Clock;
use std::{io, thread};
use version_cell::UnnamedBook;

// As many connections at once.
const SEATS: u32 = 2;

// What came of a server: its exit status, whether it printed the line of its port and nothing else,
// what it said of faults, and how many entries the one log has that its listeners were shown.
#[derive(Drop)]
struct EndlessOutcome {
    status: u8,
    names_port: bool,
    faults: MemoryOutput,
    entries: u64,
}

// Serves connections without an end, from a cell that is opened here.
fn serve_endless<R>(host: Host<'_, R>, bound: BoundPort<'_, R>, connections: u16) -> EndlessOutcome
where
    R: Net<Listener = TcpListener, Stream = TcpStream> + Threads + Wait + Clock + Sync,
{
    serve_opened::<Brand, R>(host, UnnamedBook::new(), bound, connections)
}

// The same, from a cell whose book C names.
fn serve_opened<C: BookName, R>(
    host: Host<'_, R>,
    opened: UnnamedBook,
    bound: BoundPort<'_, R>,
    connections: u16,
) -> EndlessOutcome
where
    C: Send + Sync,
    R: Net<Listener = TcpListener, Stream = TcpStream> + Threads + Wait + Clock + Sync,
    requires { opened ≡ C.book }
{
    let (rt, alloc, number) = (host.rt, host.alloc, bound.number);
    let kept = Mutex::new(ListenerRecord::<C>::new(connections));
    let mut network = RecordingListener::new(rt, &kept, bound);
    let mut output = MemoryOutput::new(alloc);
    let mut faults = MemoryOutput::new(alloc);
    let serving = ServeOptions {
        port: 0,
        seats: SEATS,
        accept: 0,
        idle: 0,
        keep: 0,
        parts: 2,
        workers: 1,
    };
    let status = serve(
        host,
        opened,
        &mut network,
        &mut output,
        &mut faults,
        serving,
    );
    let names_port = names_port(alloc, &output, number);
    let entries = kept.lock(rt).history.entries();
    EndlessOutcome {
        status: status.number(),
        names_port,
        faults,
        entries,
    }
}

// What comes of a client that calls the server at this port. Where it fails, its fault stands last,
// and it may not have made all connections: so many are made then. After them each worker meets one
// connection more, at which its listener breaks.
fn called<R>(rt: &R, client: Client, port: u16, connections: u16) -> String
where
    R: Net<Listener = TcpListener, Stream = TcpStream> + RandomSource + AllocGlobal,
    R: Threads + Clock + Sync,
{
    let mut told = String::new(rt.alloc());
    if let Err(failure) = call(rt, client, port, &mut told) {
        let _ = write!(told, " {}", fault_of(failure));
        for _ in 0..connections {
            let _ = connected(rt, port, 1);
        }
    }
    for _ in 0..SEATS {
        let _ = connected(rt, port, 1);
    }
    told
}

// What comes of a server without an end, which is given so many connections, and of a client next
// to it.
pub(crate) fn without_end<R>(rt: &R, connections: u16, client: Client) -> io::Result<String>
where
    R: Net<Listener = TcpListener, Stream = TcpStream> + RandomSource + AllocGlobal,
    R: Threads + Wait + Clock + Sync,
{
    let (alloc, seed) = (rt.alloc(), HashSeed::new(rt)?);
    let host = Host { rt, alloc, seed };
    let bound = BoundPort::new(rt)?;
    let number = bound.number;
    let (ended, told) = thread::join(
        rt,
        move || serve_endless(host, bound, connections),
        || called(rt, client, number, connections),
    );
    let mut line = format!(in alloc; "server {} {}", ended.status, ended.names_port)?;
    push_text(&mut line, ended.faults.as_slice())?;
    write!(line, ", {} entries, client{told}", ended.entries)?;
    Ok(line)
}
