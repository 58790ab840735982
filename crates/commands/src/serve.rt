//! `flightscan serve`: connections to a port, several at once.

ghost use Rattle.std.specs.Prelude.{◌≡◌, ◌≤◌, ◌<◌, ◌+◌, ℕ, List};
ghost use Rattle.grpc_frame.specs.Ends.{CanFail};
ghost use Rattle.version_cell.specs.Blanks.{IsNamed, most_seats};
ghost use Rattle.version_cell.specs.Rests.{RestAt};
ghost use Rattle.command_ends.specs.Printing.{Prints, cause_lines, said_of};
ghost use Rattle.command_ends.specs.declared.exit_status.ExitStatus.TheVariants.{FaultAtThisEnd};
ghost use Rattle.commands.specs.Port as serves;
ghost use Rattle.commands.specs.Port.{IsDueAfter, Listens, ServesPort};
ghost use Rattle.commands.specs.Serve.{AcceptsThenCloses, Pays};
ghost use Rattle.shared_calls.specs.Sharing.{onward};

use crate::crew::{serve_side_by_side, workers_of};
use crate::shown_seat::ShownSeat;
use crate::turns::Service;
use command_ends::{ExitStatus, Listen, end_by_cause, end_by_fault, print_listening};
use command_line::ServeOptions;
use connection_turns::open as open_turns;
use fetch_workers::Workers;
use flight_calls::Options;
use grpc_frame::Output;
use scan_base::{Fault, HashSeed};
use std::alloc::{AllocError, Global};
use std::io::Error;
use std::sync::Wait;
use std::thread::Threads;
use std::time::Clock;
use version_cell::{Blank, Brand, CellName, SharedPutter, UnnamedBook, open};

/// What a server has of its machine: threads, a clock, memory, and the seed with which hashes of
/// clients' values begin.
#[derive(Clone, Copy)]
pub struct Host<'a, T> {
    pub rt: &'a T,
    pub alloc: Global,
    pub seed: HashSeed,
}

/// Listens to a port, says which, and serves connections: as many at once as there are seats, on
/// one catalog that is empty at first. A fault of a connection ends that one alone, and nothing is
/// printed of it. Where `accept` is not 0, it is done after so many connections, one fewer for each
/// worker that ended by a fault. A fault of this end is printed on `faults` in a line, as far as
/// that takes it: F21 where memory for the catalog or the workers is refused, F22 where a further
/// listener is, the line of the port is not printed, or the listener of a worker broke; where it
/// does not listen, a second line says so. An accept that fails by what may pass ends nothing.
///
/// The network asks of each accept that the line of the port was printed, and that no connection is
/// open. A connection is closed when it was served. The network is shown the worker's seat at each
/// accept and each closing: a seat of the cell that was opened, which goes on from a seat that had
/// seen nothing. So of a server that never ends this holds, too.
pub fn serve<T, L, W: Output, E: Output>(
    host: Host<'_, T>,
    opened: UnnamedBook,
    network: &mut L,
    output: &mut W,
    faults: &mut E,
    serving: ServeOptions,
) -> ExitStatus
where
    T: Threads + Wait + Clock + Sync,
    L: Listen<ShownSeat> + Drop + Send,
    L::Reader: Send,
    L::Writer: Send,
    // The network is shown seats of the cell that was opened.
    requires cell { (shown : RestAt) → shown.book ≡ opened → L.cell network.old shown }

    // A cell takes so many seats.
    requires seats { (0 < serving.seats) × (serving.seats ≤ most_seats) }

    // Each output can count one failure more.
    requires writes { CanFail (W.failures output.old) }
    requires prints { CanFail (E.failures faults.old) }

    // The network may be asked for an accept once the line of its port was printed on the output.
    requires due { IsDueAfter (L.due network.old) (W.contents output.old) }

    // Whatever the network is owed for a connection, serving it is that.
    requires owed { Pays onward (serves.options_of serving) L.owed }

    // The network gives no more further listeners than there are seats, one to each worker.
    ensures handed { L.handed network.new ≤ L.handed network.old + serving.seats }

    // The network gave a port, which is served, and a fault of this end is printed; or it gave
    // none, and why is.
    ensures serves { Listens (AcceptsThenCloses L.accepts L.closes) L.shares
        (L.listens network.old serving.port serving.idle) serving result network.new
        (said_of W.Output output.old) (said_of W.Output output.new)
        (said_of E.Output faults.old) (said_of E.Output faults.new) }
{
    let serving = match network.listen(serving.port, serving.idle) {
        Ok(port) => ServeOptions { port, ..serving },
        Err(error) => return end_unheard(host.alloc, faults, serving.port, &error),
    };
    match serve_port(host, opened, network, output, serving) {
        Ok(()) => ExitStatus::Done,
        Err(fault) => end_by_fault(faults, fault),
    }
}

// Prints F22, and in a second line that this port is not listened to, and why.
fn end_unheard<E: Output>(alloc: Global, faults: &mut E, port: u16, error: &Error) -> ExitStatus
    requires { CanFail (E.failures faults.old) }
    ensures status { result ≡ FaultAtThisEnd }
    ensures lines { (cause : List ℕ) × Prints (cause_lines cause)
        (said_of E.Output faults.old) (said_of E.Output faults.new) }
{
    match format!(in alloc; "cannot listen on 127.0.0.1:{port}: {error}") {
        Ok(cause) => end_by_cause(faults, cause.as_str()),
        Err(AllocError) => end_by_cause(faults, "cannot listen"),
    }
}

// Makes a cell, says which port is listened to, and serves connections.
fn serve_port<T, L, W: Output>(
    host: Host<'_, T>,
    opened: UnnamedBook,
    network: &mut L,
    output: &mut W,
    serving: ServeOptions,
) -> Result<(), Fault>
where
    T: Threads + Wait + Clock + Sync,
    L: Listen<ShownSeat> + Drop + Send,
    L::Reader: Send,
    L::Writer: Send,
    requires cell { (shown : RestAt) → shown.book ≡ opened → L.cell network.old shown }
    requires seats { (0 < serving.seats) × (serving.seats ≤ most_seats) }
    requires writes { CanFail (W.failures output.old) }
    requires port { L.port_of network.old ≡ serving.port }
    requires due { IsDueAfter (L.due network.old) (W.contents output.old) }
    requires owed { Pays onward (serves.options_of serving) L.owed }
    ensures handed { L.handed network.new ≤ L.handed network.old + serving.seats }
    ensures serves { ServesPort (AcceptsThenCloses L.accepts L.closes) L.shares serving result
        network.old network.new (said_of W.Output output.old) (said_of W.Output output.new) }
{
    let blank = open(host.alloc, host.seed, serving.seats as usize, opened)?;
    serve_cell::<Brand, T, L, W>(host, blank, network, output, serving)
}

// Says which port is listened to, and serves connections over the seats of a cell.
fn serve_cell<C: CellName + Send + Sync, T, L, W: Output>(
    host: Host<'_, T>,
    blank: Blank,
    network: &mut L,
    output: &mut W,
    serving: ServeOptions,
) -> Result<(), Fault>
where
    T: Threads + Wait + Clock + Sync,
    L: Listen<ShownSeat> + Drop + Send,
    L::Reader: Send,
    L::Writer: Send,
    requires named { IsNamed blank C.book C.name C.parts C.asks C.numbers }
    requires cell { (shown : RestAt) → shown.book ≡ C.book → L.cell network.old shown }
    requires seats { blank.seats ≡ serving.seats }
    requires writes { CanFail (W.failures output.old) }
    requires port { L.port_of network.old ≡ serving.port }
    requires due { IsDueAfter (L.due network.old) (W.contents output.old) }
    requires owed { Pays onward (serves.options_of serving) L.owed }
    ensures handed { L.handed network.new ≤ L.handed network.old + serving.seats }
    ensures serves { ServesPort (AcceptsThenCloses L.accepts L.closes) L.shares serving result
        network.old network.new (said_of W.Output output.old) (said_of W.Output output.new) }
{
    let (turns, mut drawer) = open_turns(
        host.alloc,
        most_of(serving.accept),
        serving.seats as usize,
    )?;
    let (putter, scanners) = blank.named::<C, &T>(host.alloc, host.rt)?;
    let putter = SharedPutter::new(putter);
    let executor = Workers::new(host.rt);
    let workers = workers_of(host.alloc, &turns, &mut drawer, network, scanners)?;
    let announced = print_listening(host.alloc, output, serving.port)?;
    let service = Service {
        rt: host.rt,
        alloc: host.alloc,
        executor: &executor,
        options: options_of(&serving),
        turns: &turns,
        announced: &announced,
    };
    serve_side_by_side(service, putter, drawer, workers)
}

// How calls are answered.
fn options_of(serving: &ServeOptions) -> Options
    ensures { result ≡ serves.options_of serving.now }
{
    Options {
        parts: serving.parts,
        workers: serving.workers as usize,
        keep: u64::from(serving.keep),
    }
}

// How many connections to draw; 0 stands for no end.
fn most_of(accept: u16) -> u64
    ensures { result ≡ serves.most_of accept }
{
    match accept {
        0 => u64::MAX,
        accept => u64::from(accept),
    }
}
