//! Several workers on one fetch.

ghost use Rattle.std.specs.Prelude.{◌≡◌, IfOk, IfSome, None, OnOk};

use crate::grouped_work::{GroupedWork, ready_grouped};
use crate::joined_morsels::JoinedMorsels;
use crate::morsel_work::MorselWork;
use fetch_stream::{Executor, FetchStream, MorselParcels, Morsels, OneWorker, ReadsPayloads};
use scan_base::Fault;
use scan_workers::{Answers, NoGate, Reads, in_order};
use std::alloc::{AllocError, Global};
use std::marker::Model;
use std::sync::Wait;
use std::thread::Threads;
use work_watch::Watches;

// How many rows a worker reads at least: for fewer, a thread costs more than it saves.
const LEAST_ROWS: usize = 65_536;

/// A stream, and how many workers make its payloads at most.
#[derive(Clone, Copy, Drop)]
pub struct SideBySide<'s> {
    pub alloc: Global,
    pub stream: &'s FetchStream,
    pub workers: usize,
}

/// A handle that starts the threads of a fetch: each that may start threads and wait, and that
/// threads may share.
pub trait StartsWorkers {
    // What is to be known of it: that threads may share it.
    ghost shared: { Self → Type 0 };

    /// Has a stream read that several workers make, and gives nothing where one is enough.
    ///
    /// # Errors
    ///
    /// Those of the reader.
    fn read_beside<S: ReadsPayloads>(
        &self,
        work: &SideBySide<'_>,
        reader: &mut S,
    ) -> Option<Result<(), Fault>>
        requires shared { shared self.now }
        requires takes { S.takes reader.old }
        ensures read { IfSome result
            (λ read. S.reads reader.old work.now.stream.now.stream read reader.new) }
        ensures kept { result ≡ None → reader.new ≡ reader.old };

    /// Has the groups of a stream made by several workers. Who watches may end it.
    ///
    /// # Errors
    ///
    /// `AllocError` where memory is refused, or who watches ends it.
    fn ready_grouped<L: Watches>(
        &self,
        work: GroupedWork,
        watch: &mut L,
    ) -> Result<FetchStream, AllocError>
        requires shared { shared self.now }
        requires ready { L.ready watch.old }
        ensures stream { IfOk result (λ stream. stream.stream ≡ work.stream.stream) }
        ensures ready { OnOk result (L.ready watch.new) }
        ensures watched { L.watched watch.old watch.new };
}

impl<R: Threads + Wait + Sync> StartsWorkers for R {
    ghost use Rattle.fetch_workers.specs.SharedValues.{MayBeShared};

    ghost shared = { λ _. MayBeShared R.row };

    fn read_beside<S: ReadsPayloads>(
        &self,
        work: &SideBySide<'_>,
        reader: &mut S,
    ) -> Option<Result<(), Fault>> {
        read_beside(self, work, reader)
    }

    fn ready_grouped<L: Watches>(
        &self,
        work: GroupedWork,
        watch: &mut L,
    ) -> Result<FetchStream, AllocError> {
        ready_grouped(self, work, watch)
    }
}

/// The payloads of a stream are made by the thread that reads and by workers next to it, each in a
/// thread of its own: with that thread as many as the stream asks for at most, one for each 65,536
/// rows of its range and one for each morsel at most. Threads are started once for a fetch, and
/// have ended when it has. Of groups the workers make those of each part of the batches, one for
/// each piece at most. The list of tables and streams whose rows are begun stay with one worker; so
/// does a stream of rows where memory is refused for the others.
#[derive(Drop)]
pub struct Workers<'h, R: StartsWorkers> {
    rt: &'h R,
    least_rows: usize,
}

// That threads may share the handle is known where workers are made of it, and kept for where they
// read.
impl<'h, R: StartsWorkers> Model for Workers<'h, R> {
    ghost Value = { Unit {0} };

    ghost view = { λ _. tt };

    ghost invariant = { λ w. R.shared w.rt.now };
}

impl<'h, R: Threads + Wait + Sync> Workers<'h, R> {
    /// Workers whose threads this handle starts.
    pub fn new(rt: &'h R) -> Workers<'h, R> {
        Workers::reading(rt, LEAST_ROWS)
    }

    /// The same, with one worker for each so many rows of the range at most, in place of 65,536:
    /// what is read is the same for any number.
    pub fn reading(rt: &'h R, least_rows: usize) -> Workers<'h, R> {
        Workers { rt, least_rows }
    }
}

impl<'h, R: StartsWorkers> Workers<'h, R> {
    // How many workers are worth it.
    fn worth(&self, stream: &FetchStream) -> usize {
        let least = self.least_rows.max(1);
        stream.workers().min(stream.rows() / least)
    }
}

impl<'h, R: StartsWorkers> Executor for Workers<'h, R> {
    fn execute<S: ReadsPayloads>(
        &self,
        alloc: Global,
        stream: FetchStream,
        reader: &mut S,
    ) -> Result<(), Fault> {
        let workers = self.worth(&stream);
        if workers < 2 {
            return OneWorker.execute(alloc, stream, reader);
        }
        let work = SideBySide {
            alloc,
            stream: &stream,
            workers,
        };
        if let Some(read) = self.rt.read_beside(&work, reader) {
            return read;
        }
        OneWorker.execute(alloc, stream, reader)
    }

    fn ready<L: Watches>(
        &self,
        alloc: Global,
        stream: FetchStream,
        watch: &mut L,
    ) -> Result<FetchStream, AllocError> {
        let workers = self.worth(&stream);
        if workers < 2 {
            return OneWorker.ready(alloc, stream, watch);
        }
        let work = GroupedWork {
            alloc,
            stream,
            workers,
        };
        self.rt.ready_grouped(work, watch)
    }
}

// Has a stream read that several workers make, and nothing where one does.
fn read_beside<R: Threads + Wait + Sync, S: ReadsPayloads>(
    rt: &R,
    work: &SideBySide<'_>,
    reader: &mut S,
) -> Option<Result<(), Fault>>
    requires { S.takes reader.old }
    ensures read { IfSome result
        (λ read. S.reads reader.old work.now.stream.now.stream read reader.new) }
    ensures kept { result ≡ None → reader.new ≡ reader.old }
{
    let morsels = work.stream.morsels()?;
    let workers = work.workers.min(morsels.count());
    if workers < 2 {
        return None;
    }
    let alloc = work.alloc;
    let work = MorselWork { morsels };
    let mut reading = PayloadReader {
        alloc,
        morsels: &work.morsels,
        reader,
    };
    let read = in_order(rt, alloc, &work, workers, &NoGate, &mut reading).ok();
    let PayloadReader {
        alloc: _,
        morsels: _,
        reader,
    } = reading;
    take_back(reader);
    read
}

// Does nothing, but that what was lent is used after the reading ties what was read to it.
fn take_back<T>(lent: &mut T)
    ensures { lent.new ≡ lent.old }
{}

// Who reads the payloads of all morsels.
struct PayloadReader<'x, 'r, S> {
    alloc: Global,
    morsels: &'x Morsels<'x>,
    reader: &'r mut S,
}

impl<'x, 'r, S: ReadsPayloads> Reads<MorselParcels<'x>> for PayloadReader<'x, 'r, S> {
    type Out = Result<(), Fault>;

    ghost use Rattle.std.specs.Prelude.{◌≡◌};
    ghost use Rattle.fetch_stream.specs.Morsels.{whole_stream};
    ghost use Rattle.fetch_stream.specs.Streams.{StreamAt};
    ghost use Rattle.fetch_workers.specs.inside.JoinedMorsels.{AnswersMorsels};

    ghost takes = { λ r right count. S.takes r.reader.now
        × AnswersMorsels (λ (answer : StreamAt). answer) r.morsels.now right count };

    ghost reads = { λ old right count out new. (new.reader.ghost_name ≡ old.reader.ghost_name)
        × S.reads old.reader.now (whole_stream old.morsels.now) out new.reader.now };

    fn read<P: Answers<MorselParcels<'x>>>(&mut self, answers: &mut P) -> Result<(), Fault> {
        let mut joined = JoinedMorsels {
            morsels: self.morsels,
            answers,
            begun: self.morsels.begun(),
            present: None,
            done: 0,
            refused: None,
        };
        self.reader.read(self.alloc, &mut joined)
    }
}
