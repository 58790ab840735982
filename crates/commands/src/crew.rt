//! Workers that serve connections side by side, over one history.

ghost use Rattle.std.specs.Prelude.{◌≡◌, ◌⊎◌, ◌<◌, ◌≤◌, ◌+◌, [], All, MatchResult, None, ℕ, length};
ghost use Rattle.std.specs.Prelude.{map, slice_index_or, IfOk};
ghost use Rattle.scan_base.specs.declared.fault.Fault.TheVariants.{OutOfMemory, Transport};
ghost use Rattle.version_cell.specs.Rests.{RestAt};
ghost use Rattle.version_cell.specs.Seats.{seat};
ghost use Rattle.connection_turns.specs.Drawers as drawers;
ghost use Rattle.commands.specs.Port.{IsFresh, RefusesOne, SharesEach, SharesSome};
ghost use Rattle.commands.specs.Serve.{AcceptsThenCloses, Pays};
ghost use Rattle.commands.specs.ServeSideBySide.{DrawsAll, ServesSideBySide};
ghost use Rattle.commands.specs.Serve.{ServesUpTo, worker_of};
ghost use Rattle.commands.specs.ServeSideBySide.{first_fault, made_by, made_by_each};
ghost use Rattle.shared_calls.specs.Sharing.{onward, seat_at};
ghost use Rattle.commands.specs.ShownSeat.{WasShown};
ghost use Rattle.commands.specs.inside.Gathering.{HasDrawn, HasWorked, IsAtRest, IsNew, IsWithin};
ghost use Rattle.commands.specs.inside.Gathering.{MayServe, hired_listeners, state_of, work_of};

use crate::shown_seat::ShownSeat;
use crate::turns::{Service, serve_in_turn};
use command_ends::Listen;
use connection_turns::{Drawer, Turns};
use flight_calls::Executor;
use scan_base::Fault;
use shared_calls::{SeatName, SharedBackend};
use std::alloc::Global;
use std::sync::Wait;
use std::thread;
use std::thread::Threads;
use std::time::Clock;
use version_cell::{Brand, CellName, GatheredSeats, Scanner, SharedPutter};

/// One of those that serve: its listener, its seat of the cell, what it draws by, and what came of
/// its work.
#[derive(Drop)]
pub(crate) struct CrewMember<L, S, D> {
    pub listener: L,
    // None while the worker works.
    pub scanner: Option<S>,
    pub drawer: D,
    pub served: Result<(), Fault>,
}

type ServingWorker<L, C> = CrewMember<L, Scanner<C>, Drawer>;

/// What all workers share: how they serve, and the putter of their cell.
#[derive(Drop)]
pub(crate) struct Crew<'a, 'h, C: CellName, T: Wait, X> {
    pub service: Service<'a, 'h, T, X>,
    pub putter: &'a SharedPutter<C, &'h T>,
}

/// A worker for each seat, with a listener of its own. Each draws by a part of the first drawer's.
///
/// # Errors
///
/// - `Fault::OutOfMemory` (F21) where memory is refused.
/// - `Fault::Transport` (F22) where the network gives no further listener.
pub(crate) fn workers_of<L: Listen<ShownSeat> + Drop, C: CellName>(
    alloc: Global,
    turns: &Turns,
    drawer: &mut Drawer,
    network: &mut L,
    scanners: Vec<Scanner<C>>,
) -> Result<Vec<ServingWorker<L, C>>, Fault>
    requires seats { All (λ scanner. scanner ≡ seat scanner.number [] [] 0 []) scanners.items }
    requires cell { (shown : RestAt) → shown.book ≡ C.book → L.cell network.old shown }
    requires drawer { drawer.old
        ≡ drawers.drawer_at turns.now.name (length scanners.items + 1) 0 0 }
    ensures made { MatchResult result
        (λ workers. (length workers.items ≡ length scanners.items)
        × SharesEach L.shares network.old (hired_listeners workers.items) network.new
        × All (λ hired. IsFresh (state_of hired)) workers.items
        × All (IsNew turns.now.name) workers.items
        × All (IsAtRest L.at_rest L.port_of L.rests L.cell L.due network.old C.book) workers.items)
        (λ fault. ((fault ≡ OutOfMemory) × SharesSome L.shares network.old network.new)
        ⊎ ((fault ≡ Transport) × RefusesOne L.shares network.old network.new)) }
    ensures handed { L.handed network.new ≤ L.handed network.old + length scanners.items }
    ensures drawer { IfOk result (λ _. drawer.new ≡ drawers.drawer_at turns.now.name 1 0 0) }
{
    let mut workers = Vec::new(alloc);
    for scanner in scanners {
        let Ok(listener) = network.share() else {
            return Err(Fault::Transport);
        };
        let worker = CrewMember {
            listener,
            scanner: Some(scanner),
            drawer: turns.cut(drawer),
            served: Ok(()),
        };
        if workers.push(worker).is_err() {
            return Err(Fault::OutOfMemory);
        }
    }
    Ok(workers)
}

// What is done with each worker, by whichever thread has it.
trait Job<L, C: CellName> {
    ghost use Rattle.commands.specs.inside.Gathering.{HiredWorker};

    // Which workers it takes.
    ghost takes: { Self → HiredWorker L → Type 0 };

    // What becomes of one.
    ghost leaves: { Self → HiredWorker L → HiredWorker L → Type 0 };

    fn work(&self, worker: &mut ServingWorker<L, C>)
        requires { takes self.now worker.old }
        ensures { leaves self.now worker.old worker.new };
}

// A worker serves connections.
impl<'a, 'h, L, C, T, X> Job<L, C> for Crew<'a, 'h, C, T, X>
where
    L: Listen<ShownSeat>,
    C: CellName,
    T: Wait + Clock,
    X: Executor,
{
    ghost use Rattle.commands.specs.Serve.{AcceptsThenCloses};
    ghost use Rattle.commands.specs.inside.Gathering.{HasWorked, MayServe};

    ghost takes = { λ crew worker. MayServe L.at_rest L.port_of L.rests L.cell L.due L.owed
        crew.service.options crew.service.announced.now C.book crew.service.turns.now.name worker };

    ghost leaves = { λ crew old new. HasWorked (AcceptsThenCloses L.accepts L.closes)
        crew.service.options crew.service.turns.now.name old new };

    fn work(&self, worker: &mut ServingWorker<L, C>) {
        serve_by(self, worker);
    }
}

// Serves connections by a worker, with its seat.
fn serve_by<L, C, T, X>(crew: &Crew<'_, '_, C, T, X>, worker: &mut ServingWorker<L, C>)
where
    L: Listen<ShownSeat>,
    C: CellName,
    T: Wait + Clock,
    X: Executor,
    requires { MayServe L.at_rest L.port_of L.rests L.cell L.due L.owed crew.now.service.options
        crew.now.service.announced.now C.book crew.now.service.turns.now.name worker.old }
    ensures { HasWorked (AcceptsThenCloses L.accepts L.closes) crew.now.service.options
        crew.now.service.turns.now.name worker.old worker.new }
{
    let scanner = worker.scanner.take().unwrap();
    let (served, scanner) = serve_seat::<L, C, Brand, T, X>(
        crew,
        &mut worker.drawer,
        &mut worker.listener,
        scanner,
    );
    worker.served = served;
    worker.scanner = Some(scanner);
}

// Serves connections through a seat, whose number N is.
fn serve_seat<L, C, N, T, X>(
    crew: &Crew<'_, '_, C, T, X>,
    drawer: &mut Drawer,
    listener: &mut L,
    scanner: Scanner<C>,
) -> (Result<(), Fault>, Scanner<C>)
where
    L: Listen<ShownSeat>,
    C: CellName,
    N: SeatName,
    T: Wait + Clock,
    X: Executor,
    requires number { scanner.number ≡ N.number }
    requires drawer { drawer.old ≡ drawers.drawer_at crew.now.service.turns.now.name 1 0 0 }
    requires at_rest { L.at_rest listener.old }
    requires announced { crew.now.service.announced.now.port ≡ L.port_of listener.old }
    requires due { L.due listener.old crew.now.service.announced.now.port
        crew.now.service.announced.now.held }
    requires cell { (shown : RestAt) → shown.book ≡ C.book → L.cell listener.old shown }
    requires rests { (shown : RestAt) × L.rests listener.old shown
        × WasShown shown C.book N.number (seat_at scanner) }
    requires owed { Pays onward crew.now.service.options L.owed }
    ensures serves { ServesUpTo (AcceptsThenCloses L.accepts L.closes) onward
        crew.now.service.options drawer.new.drawn result.0
        (worker_of listener.old (seat_at scanner)) (worker_of listener.new (seat_at result.1)) }
    ensures drawer { (drawer.new.name ≡ crew.now.service.turns.now.name) × (drawer.new.parts ≡ 1) }
    ensures ended { IfOk result.0 (λ _. 0 < drawer.new.ended) }
{
    let mut backend = SharedBackend::<C, N, _, _>::new(crew.service.rt, crew.putter, scanner);
    let served = serve_in_turn(&crew.service, drawer, listener, &mut backend);
    (served, backend.into_seat())
}

// Does a job with all workers, with each in a thread of its own where one can be made.
fn work_side_by_side<L, C, J, T>(rt: &T, job: &J, workers: &mut [ServingWorker<L, C>])
where
    L: Send,
    C: CellName + Send + Sync,
    J: Job<L, C> + Sync,
    T: Threads + Sync,
    requires { All (J.takes job.now) workers.old }
    ensures { (i : ℕ) (d : _) → i < length workers.old
        → J.leaves job.now (slice_index_or workers.old i d) (slice_index_or workers.new i d) }
{
    let threads = workers.len().max(1);
    let each = |_place: usize, worker: &mut ServingWorker<L, C>|
        requires { J.takes job.now worker.now }
        ensures { J.leaves job.entry.now worker.entry.now worker.exit.now }
    { job.work(worker) };
    thread::for_each_mut(rt, workers, threads, &each);
}

// The first fault of workers that have ended, and their seats as one. The drawer takes in what they
// drew.
fn first_of<L: Drop, C: CellName>(
    turns: &Turns,
    mut drawer: Drawer,
    mut seats: GatheredSeats<C>,
    mut workers: Vec<ServingWorker<L, C>>,
) -> (Result<(), Fault>, GatheredSeats<C>)
    requires parts { turns.now.parts ≡ length workers.items + 1 }
    requires drawer { drawer ≡ drawers.drawer_at turns.now.name 1 0 0 }
    requires worked { All (HasDrawn turns.now.name) workers.items }
    requires none { (seats.seats ≡ 0) × (seats.made ≡ 0) }
    requires each { seats.each ≡ [] }
    ensures first { result.0 ≡ first_fault (map work_of workers.items) }
    ensures within { All (IsWithin result.1.log) workers.items }
    ensures many { result.1.seats ≡ length workers.items }
    ensures made { result.1.made ≡ made_by (map work_of workers.items) }
    ensures each { result.1.each ≡ made_by_each (map work_of workers.items) }
    ensures drawn { DrawsAll turns.now.most (map work_of workers.items) }
{
    let mut first = Ok(());
    while let Some(worker) = workers.pop() {
        let CrewMember {
            listener: _,
            scanner,
            drawer: part,
            served,
        } = worker;
        seats.take(scanner.unwrap());
        first = served.and(first);
        turns.take_back(&mut drawer, part);
    }
    turns.learn(&mut drawer);
    (first, seats)
}

/// Serves connections by all workers side by side, until each of them has ended.
///
/// # Errors
///
/// The first fault of a worker.
pub(crate) fn serve_side_by_side<'h, L, C, T, X>(
    service: Service<'_, 'h, T, X>,
    mut putter: SharedPutter<C, &'h T>,
    drawer: Drawer,
    mut workers: Vec<ServingWorker<L, C>>,
) -> Result<(), Fault>
where
    L: Listen<ShownSeat> + Drop + Send,
    L::Reader: Send,
    L::Writer: Send,
    C: CellName + Send + Sync,
    T: Threads + Wait + Clock + Sync,
    X: Executor + Sync,
    requires parts { service.turns.now.parts ≡ length workers.items + 1 }
    requires drawer { drawer ≡ drawers.drawer_at service.turns.now.name 1 0 0 }
    requires may { All (MayServe L.at_rest L.port_of L.rests L.cell L.due L.owed service.options
        service.announced.now C.book service.turns.now.name) workers.items }
    requires seats { length workers.items ≡ C.parts }
    ensures { ServesSideBySide (AcceptsThenCloses L.accepts L.closes) service.entry.options
        service.entry.turns.now.most (map state_of workers.items) result }
{
    let (rt, turns) = (service.rt, service.turns);
    let crew = Crew {
        service,
        putter: &putter,
    };
    work_side_by_side(rt, &crew, workers.as_mut_slice());
    drop(crew);
    let none = putter.gather();
    let (first, seats) = first_of(turns, drawer, none, workers);
    // The history of all: contracts alone look at it.
    putter.whole_log(rt, seats);
    first
}
