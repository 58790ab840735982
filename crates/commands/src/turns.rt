//! Connections that one worker serves, one after the other.

ghost use Rattle.std.specs.Prelude.{◌≡◌, ◌<◌, ℕ, List, Option, IfErr, IfOk};
ghost use Rattle.grpc_frame.specs.Ends.{FailsByTransport};
ghost use Rattle.connection_turns.specs.Drawers as drawers;
ghost use Rattle.version_cell.specs.Rests.{RestAt};
ghost use Rattle.command_ends.specs.Network.{ends_of};
ghost use Rattle.commands.specs.ShownSeat.{HasLearnt, IsShownAs, WasShown};
ghost use Rattle.commands.specs.Serve.{AcceptsThenCloses, AsksOthers, Pays, ServesUpTo, worker_of};
ghost use Rattle.commands.specs.inside.Accepting.{TakesNext, TakesNone};

use crate::shown_seat::ShownSeat;
use command_ends::{AcceptFailure, Listen, PortLine};
use connection_turns::{Drawer, Turns};
use flight_calls::{Executor, Options, Setting};
use scan_base::Fault;
use shared_calls::RestingBackend;
use std::alloc::Global;
use std::sync::Wait;
use std::thread;
use std::time::{Clock, Duration};

// A worker waits so long after an accept that failed by what may pass, and twice as long after each
// further one, up to the most.
const LEAST_PAUSE_MILLISECONDS: u64 = 20;

const MOST_PAUSE_MILLISECONDS: u64 = 1_000;

/// How all workers serve, who makes the answers to fetches, how many connections are still to be
/// accepted, and that the line of the port was printed.
#[derive(Drop)]
pub struct Service<'a, 'h, T: Wait, X> {
    pub rt: &'h T,
    pub alloc: Global,
    pub executor: &'a X,
    pub options: Options,
    pub turns: &'a Turns,
    pub announced: &'a PortLine,
}

/// Serves connections one after the other, for one seat: one for each turn that it draws, until
/// none is left. Each is served to its end and closed before the next one is accepted, also where
/// turns never end: the listener asks for that.
///
/// The seat asks what others have done at first, once a connection is taken, and when it has ended.
/// So each connection begins with all that was done before it was taken, and what the listener is
/// shown of the seat is exact.
///
/// # Errors
///
/// `Fault::Transport` (F22) where the listener broke.
pub fn serve_in_turn<L: Listen<ShownSeat>, B: RestingBackend, T: Wait + Clock, X: Executor>(
    service: &Service<'_, '_, T, X>,
    drawer: &mut Drawer,
    network: &mut L,
    backend: &mut B,
) -> Result<(), Fault>
    requires drawer { drawer.old ≡ drawers.drawer_at service.now.turns.now.name 1 0 0 }
    requires at_rest { L.at_rest network.old }
    requires announced { service.now.announced.now.port ≡ L.port_of network.old }
    requires due { L.due network.old service.now.announced.now.port service.now.announced.now.held }

    // The listener is shown seats of this cell, and is this seat's.
    requires cell { (seat : RestAt) → seat.book ≡ B.book → L.cell network.old seat }
    requires rests { (seat : RestAt) × L.rests network.old seat
        × WasShown seat B.book B.number (B.seat backend.old) }

    // Whatever the network is owed for a connection, serving it is that.
    requires owed { Pays B.moves service.now.options L.owed }
    ensures serves { ServesUpTo (AcceptsThenCloses L.accepts L.closes) B.moves service.now.options
        drawer.new.drawn result
        (worker_of network.old (B.seat backend.old)) (worker_of network.new (B.seat backend.new)) }
    ensures drawer { (drawer.new.name ≡ service.now.turns.now.name) × (drawer.new.parts ≡ 1) }
    ensures ended { IfOk result (λ _. 0 < drawer.new.ended) }
{
    let mut shown = shown_of(backend);
    for _ in service.rt.forever() {
        if !service.turns.draw(service.rt, drawer) {
            return Ok(());
        }
        let (mut reader, mut writer) = accept_next(service, network, &shown)?;
        backend.learn();
        let setting = Setting {
            alloc: service.alloc,
            executor: service.executor,
            options: service.options,
        };
        let _ = flight_calls::serve(&setting, &mut reader, &mut writer, backend);
        shown = shown_of(backend);
        network.done(reader, writer, &shown);
    }
    unreachable!()
}

// The seat as a listener is shown it, after one ask.
#[tactic(auto, using(crate::proofs::Serving::told_so))]
fn shown_of<B: RestingBackend>(backend: &mut B) -> ShownSeat
    ensures asks { AsksOthers B.moves (B.seat backend.old) (B.seat backend.new) }
    ensures shown { IsShownAs result B.book B.number (B.seat backend.new) }
{
    ShownSeat::new(backend.rest())
}

// The next connection. Accepts that fail by what may pass are passed over, each after a pause.
fn accept_next<L: Listen<ShownSeat>, T: Wait + Clock, X>(
    service: &Service<'_, '_, T, X>,
    network: &mut L,
    seat: &ShownSeat,
) -> Result<(L::Reader, L::Writer), Fault>
    requires at_rest { L.at_rest network.old }
    requires announced { service.now.announced.now.port ≡ L.port_of network.old }
    requires due { L.due network.old service.now.announced.now.port service.now.announced.now.held }
    requires cell { L.cell network.old seat.now }
    requires rests { (old : RestAt) × L.rests network.old old × HasLearnt old seat.now }
    ensures taken { IfOk result (λ ends. TakesNext L.accepts
        (ends_of (L.Reader.tape ends.0) (L.Writer.contents ends.1)) network.old network.new) }
    ensures none { IfErr result (λ _. TakesNone L.accepts network.old network.new) }
    ensures reads { IfOk result (λ ends. L.Reader.failures ends.0 ≡ 0) }
    ensures writes { IfOk result (λ ends. L.Writer.failures ends.1 ≡ 0) }
    ensures holds { IfOk result (λ ends. L.holds network.new
        (ends_of (L.Reader.tape ends.0) (L.Writer.contents ends.1))) }
    ensures port { L.port_of network.new ≡ L.port_of network.old }
    ensures rests { L.rests network.new seat.now }
    ensures cell { (other : RestAt) → L.cell network.old other → L.cell network.new other }
    ensures due { (port : ℕ) (held : Option (List ℕ)) → L.due network.old port held →
        L.due network.new port held }
    ensures kind { FailsByTransport result }
{
    let mut pause = LEAST_PAUSE_MILLISECONDS;
    for _ in service.rt.forever() {
        match network.accept(service.announced, seat) {
            Ok(ends) => return Ok(ends),
            Err(AcceptFailure::Broken) => return Err(Fault::Transport),
            Err(AcceptFailure::MayPass) => {
                thread::sleep(service.rt, Duration::from_millis(pause));
                pause = pause.saturating_mul(2).min(MOST_PAUSE_MILLISECONDS);
            }
        }
    }
    unreachable!()
}
