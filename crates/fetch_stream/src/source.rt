//! What the rows of an answer come from.

ghost use Rattle.std.specs.Prelude.{◌≡◌, IfOk, OnOk};
ghost use Rattle.arrays.specs.Batch.{BatchAt};
ghost use Rattle.fetch_stream.specs.inside.RowsAhead.{schema_behind, rows_taken, IsSource};
ghost use Rattle.fetch_stream.specs.inside.GivenBatches.{GivesNoneYet, TurnsBatch};

use arrays::Batch;
use arrow_types::Schema;
use row_sources::{Patience, Turn};
use scan_base::Fault;
use scan_exec::{GroupsBatches, Scan};
use std::alloc::{AllocError, Global};
use work_watch::Watches;

// What gives the batches of an answer.
pub(crate) enum Source {
    // The batches of a scan.
    Scanned(Scan),
    // None but the one that was given: the list of tables.
    Listed(Schema),
}

// Written out, so that dropping it is one call (docs/DECISIONS.md).
impl Drop for Source {
    fn drop(self) {
        match self {
            Source::Scanned(_) => {}
            Source::Listed(_) => {}
        }
    }
}

impl Source {
    /// The schema of the answer.
    pub(crate) fn schema(&self) -> &Schema
        ensures { result.now ≡ schema_behind self.now }
    {
        match self {
            Source::Scanned(scan) => scan.schema(),
            Source::Listed(schema) => schema,
        }
    }

    /// How many rows were taken, where the last batch has so many: the list of tables is one batch.
    pub(crate) fn taken(&self, last: usize) -> usize
        ensures { (batch : BatchAt) → batch.rows ≡ last → result ≡ rows_taken batch self.now }
    {
        match self {
            Source::Scanned(scan) => scan.given(),
            Source::Listed(_) => last,
        }
    }

    /// The same source, whose groups are made, if it makes groups. Who watches may end it.
    ///
    /// # Errors
    ///
    /// `AllocError` where memory is refused, or who watches ends it.
    pub(crate) fn readied<G: GroupsBatches, W: Watches>(
        self,
        alloc: Global,
        by: &G,
        watch: &mut W,
    ) -> Result<Source, AllocError>
        requires source { IsSource self }
        requires ready { W.ready watch.old }
        ensures source { IfOk result (GivesNoneYet self) }
        ensures ready { OnOk result (W.ready watch.new) }
        ensures watched { W.watched watch.old watch.new }
    {
        match self {
            Source::Scanned(scan) => Ok(Source::Scanned(scan.readied(alloc, by, watch)?)),
            Source::Listed(schema) => Ok(Source::Listed(schema)),
        }
    }

    /// A turn to the next batch, of one row or more.
    ///
    /// # Errors
    ///
    /// F20 (`Fault::ResultTooLarge`) where the answer has more than 67,108,864 rows, and F21
    /// (`Fault::OutOfMemory`) where memory is refused; and from then on.
    pub(crate) fn turn(&mut self, alloc: Global, patience: Patience) -> Result<Turn<Batch>, Fault>
        requires { IsSource self.old }
        ensures { TurnsBatch patience self.old result self.new }
    {
        match self {
            Source::Scanned(scan) => scan.turn(alloc, patience),
            Source::Listed(_) => Ok(Turn::End),
        }
    }
}
