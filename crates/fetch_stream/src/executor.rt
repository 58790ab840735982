//! Who makes the payloads of a stream, and who reads them.

ghost use Rattle.std.specs.Prelude.{◌≡◌, ◌⊎◌, ℕ, IfOk, Result, OnOk};
ghost use Rattle.scan_base.specs.declared.fault.Fault.{Fault as FaultAt};
ghost use Rattle.fetch_stream.specs.Streams.{StreamAt, GivesTurn, LooksFor};

use crate::parcel::Parcel;
use crate::stream::FetchStream;
use row_sources::{Patience, Turn};
use scan_base::Fault;
use scan_exec::InOneWalk;
use std::alloc::{AllocError, Global};
use work_watch::Watches;

/// The payloads of an answer, one parcel at a time, whoever makes them.
pub trait Payloads {
    // What is still to come of the answer.
    ghost stream: { Self → StreamAt };

    // How many rows its turns have still to look at.
    ghost unseen: { Self → ℕ };

    // That a turn may give nothing since others are at work.
    ghost waits: { Self → Type 0 };

    /// A turn to the next parcel, as that of a [`FetchStream`].
    ///
    /// # Errors
    ///
    /// F20 (`Fault::ResultTooLarge`) where the answer has more than 67,108,864 rows, after a
    /// beginning of it; F21 (`Fault::OutOfMemory`) where memory is refused. What refuses payloads
    /// is answered from then on.
    fn turn(&mut self, alloc: Global, patience: Patience) -> Result<Turn<Parcel>, Fault>
        ensures turns { GivesTurn patience (stream self.old) result (stream self.new) }
        ensures looks { waits self.old
            ⊎ LooksFor patience result (unseen self.old) (unseen self.new) };
}

impl Payloads for FetchStream {
    ghost stream = { λ s. s.stream };

    ghost unseen = { λ s. s.unseen };

    ghost waits = { λ _. ⊥ };

    fn turn(&mut self, alloc: Global, patience: Patience) -> Result<Turn<Parcel>, Fault> {
        FetchStream::turn(self, alloc, patience)
    }
}

/// Who reads the payloads of an answer, each parcel before the next one is asked for.
pub trait ReadsPayloads {
    // What has to hold before it reads.
    ghost takes: { Self → Type 0 };

    // What comes of reading an answer of which this is still to come.
    ghost reads: { Self → StreamAt → Result (Unit {0}) FaultAt → Self → Type 0 };

    /// Reads payloads, up to the end of their answer or up to where the reader stops.
    ///
    /// # Errors
    ///
    /// The reader's own.
    fn read<P: Payloads>(&mut self, alloc: Global, payloads: &mut P) -> Result<(), Fault>
        requires { takes self.old }
        ensures { reads self.old (P.stream payloads.old) result self.new };
}

/// Who makes the payloads of a fetch: the thread that reads them, or others next to it. What is
/// read is the same.
pub trait Executor {
    /// Has the payloads of a stream made, as many workers as it asks for helping at most, and read
    /// by this reader.
    ///
    /// # Errors
    ///
    /// Those of the reader.
    fn execute<S: ReadsPayloads>(
        &self,
        alloc: Global,
        stream: FetchStream,
        reader: &mut S,
    ) -> Result<(), Fault>
        requires { S.takes reader.old }
        ensures { S.reads reader.old stream.stream result reader.new };

    /// Has what a stream needs before its rows made: the groups of a grouped query. Who watches may
    /// end it. What it gives is the same, made or not.
    ///
    /// # Errors
    ///
    /// `AllocError` where memory is refused, or who watches ends it.
    fn ready<W: Watches>(
        &self,
        alloc: Global,
        stream: FetchStream,
        watch: &mut W,
    ) -> Result<FetchStream, AllocError>
        requires ready { W.ready watch.old }
        ensures stream { IfOk result (λ readied. readied.stream ≡ stream.stream) }
        ensures ready { OnOk result (W.ready watch.new) }
        ensures watched { W.watched watch.old watch.new };
}

/// The thread that reads makes each payload itself, when it is asked for, however many workers a
/// stream asks for.
#[derive(Clone, Copy, Debug, Drop)]
pub struct OneWorker;

impl Executor for OneWorker {
    fn execute<S: ReadsPayloads>(
        &self,
        alloc: Global,
        stream: FetchStream,
        reader: &mut S,
    ) -> Result<(), Fault> {
        let mut stream = stream;
        reader.read(alloc, &mut stream)
    }

    fn ready<W: Watches>(
        &self,
        alloc: Global,
        stream: FetchStream,
        watch: &mut W,
    ) -> Result<FetchStream, AllocError> {
        stream.readied(alloc, &InOneWalk, watch)
    }
}

/// How a fetch is executed: who makes its payloads, and how many workers may do so at most.
#[derive(Clone, Copy)]
pub struct Execution<'a, X> {
    pub executor: &'a X,
    pub workers: usize,
}
