//! Streams: an answer, one parcel at a time.

ghost use Rattle.std.specs.Prelude.{◌≡◌, ◌≤◌, ◌<◌, ◌+◌, ◌++◌, true, false, None, length, IfOk};
ghost use Rattle.std.specs.Prelude.{IfSome, OnOk};
ghost use Rattle.std.specs.List.{list_any};
ghost use Rattle.scan_base.specs.Limits.{most_answer_rows};
ghost use Rattle.arrow_types.specs.Schema.{IsSchema};
ghost use Rattle.arrays.specs.Batch.{rows_of};
ghost use Rattle.table_versions.specs.Table.{is_long_text};
ghost use Rattle.fetch_stream.specs.Streams.{GivesTurn, LooksFor};
ghost use Rattle.fetch_stream.specs.Morsels.{whole_stream};
ghost use Rattle.fetch_stream.specs.inside.RowsAhead.{IsGoing, IsSource, AnsweredAs, schema_behind};
ghost use Rattle.fetch_stream.specs.inside.RowsAhead.{left_behind, rows_taken};
ghost use Rattle.fetch_stream.specs.inside.Steps.{GivesFirst, Refills, GivesRows};

use crate::cutter::Cutter;
use crate::message::{WriteContext, schema_payload};
use crate::morsels::{MakingMorsels, Morsels};
use crate::parcel::Parcel;
use crate::payload_work::Work;
use crate::source::Source;
use arrays::Batch;
use arrays::laws::batch_slices_keep_rows;
use arrow_types::Schema;
use row_sources::{Patience, Turn};
use scan_base::{Fault, HashSeed};
use scan_exec::GroupsBatches;
use std::alloc::{AllocError, Global};
use std::marker::Model;
use work_watch::Watches;

/// The answer to a handle, one parcel at a time: the message of its schema, and then record
/// batches, each right after its dictionaries. A contract sees what is still to come, what refused
/// the stream, and how many rows its turns have still to look at. It shares the tables of its
/// version, and holds no message.
pub struct FetchStream {
    begun: bool,
    cutter: Cutter,
    source: Source,
    refused: Option<Fault>,
    // What the hashes of texts begin with.
    seed: HashSeed,
    // How the payloads may be made.
    work: Work,
}

impl Model for FetchStream {
    ghost use Rattle.std.specs.Prelude.{◌≡◌, ◌++◌, None};
    ghost use Rattle.fetch_stream.specs.Streams.{RunningAt};
    ghost use Rattle.fetch_stream.specs.inside.RowsAhead.{IsGoing, schema_behind, left_behind};
    ghost use Rattle.fetch_stream.specs.inside.RowsAhead.{rows_cut, uncut, unseen_behind};

    ghost Value = { RunningAt };

    ghost view = { λ s. record {
      stream = record {
        schema = schema_behind s.source;
        begun = s.begun;
        left = uncut s.cutter ++ left_behind s.source;
        given = rows_cut s.cutter s.source;
        refused = s.refused;
      };
      unseen = unseen_behind s.source;
    } };

    ghost invariant = { λ s. s.refused ≡ None → IsGoing s.cutter s.source };
}

// Written out, so that dropping it is one call (docs/DECISIONS.md).
impl Drop for FetchStream {
    fn drop(self) {
        let FetchStream {
            begun: _,
            cutter: _,
            source: _,
            refused: _,
            seed: _,
            work: _,
        } = self;
    }
}

impl FetchStream {
    // The stream of the rows of a batch and of those that a source gives after them.
    pub(crate) fn of(seed: HashSeed, batch: Batch, source: Source) -> FetchStream
        requires source { IsSource source }
        requires columns { 0 < batch.rows → AnsweredAs (schema_behind source) batch.columns }
        requires short { list_any (list_any is_long_text) (rows_of batch) ≡ false }
        requires all { rows_taken batch source ≡ batch.rows }
        requires few { batch.rows ≤ most_answer_rows }
        ensures { result.stream ≡ record {
          schema = schema_behind source;
          begun = false;
          left = rows_of batch ++ left_behind source;
          given = 0;
          refused = None;
        } }
    {
        batch_slices_keep_rows();
        FetchStream {
            begun: false,
            cutter: Cutter::new(batch),
            source,
            refused: None,
            seed,
            work: Work::alone(),
        }
    }

    // The same stream, whose payloads may be made so.
    pub(crate) fn with_work(self, work: Work) -> FetchStream
        ensures { result ≡ self }
    {
        let mut stream = self;
        stream.work = work;
        stream
    }

    /// The same stream, after the payload of its schema, for who gives that payload otherwise
    /// (`Opening::first_payload`).
    pub fn behind_schema(self) -> FetchStream
        ensures { result.stream ≡ record self.stream { begun = true } }
    {
        let mut stream = self;
        stream.begun = true;
        stream
    }

    /// How many workers may make its payloads at most.
    pub fn workers(&self) -> usize {
        self.work.workers
    }

    /// How many rows of its first place the answer comes of at most: 0 for the list of tables.
    /// Contracts say nothing of it: it tells how much work there is.
    pub fn rows(&self) -> usize {
        self.work.rows
    }

    /// Whether a parcel may come late after another one, since the filters compare more than 64
    /// times for a row. Contracts say nothing of it.
    pub fn comes_slowly(&self) -> bool {
        self.work.compares_much()
    }

    // The schema of the answer.
    pub(crate) fn schema(&self) -> &Schema
        ensures is { result.now ≡ self.now.stream.schema }
        ensures valid { self.now.stream.refused ≡ None → IsSchema result.now }
    {
        self.source.schema()
    }

    /// How many rows were given.
    pub fn given(&self) -> usize
        ensures { result ≡ self.now.stream.given }
    {
        let rows = self.cutter.batch.rows();
        let uncut = rows.saturating_sub(self.cutter.at);
        self.source.taken(rows).saturating_sub(uncut)
    }

    // How many rows were taken of the source: those that were given, and what is left of the batch
    // that is being cut.
    pub(crate) fn taken(&self) -> usize
        ensures given { self.now.stream.given ≤ result }
        ensures there { result ≤ self.now.stream.given + length self.now.stream.left }
    {
        batch_slices_keep_rows();
        self.source.taken(self.cutter.batch.rows())
    }

    /// The morsels of a stream of which no row was given: `None` for the list of tables, for
    /// groups, and for a stream whose rows are begun or that was refused.
    pub fn morsels(&self) -> Option<Morsels<'_>>
        ensures { IfSome result (λ morsels. self.now.stream ≡ whole_stream morsels) }
    {
        batch_slices_keep_rows();
        let Source::Scanned(scan) = &self.source else {
            return None;
        };
        let None = self.refused else {
            return None;
        };
        if self.cutter.at < self.cutter.batch.rows() {
            return None;
        }
        let count = scan.morsels()?;
        let making = MakingMorsels {
            seed: self.seed,
            turns: self.work.turns_ahead(),
        };
        Some(Morsels::new(scan, count, self.begun, making))
    }

    /// The same stream, whose groups are made, if it makes groups. Who watches may end it.
    ///
    /// # Errors
    ///
    /// `AllocError` where memory is refused, or who watches ends it.
    pub fn readied<G: GroupsBatches, W: Watches>(
        self,
        alloc: Global,
        by: &G,
        watch: &mut W,
    ) -> Result<FetchStream, AllocError>
        requires ready { W.ready watch.old }
        ensures stream { IfOk result (λ stream. stream.stream ≡ self.stream) }
        ensures ready { OnOk result (W.ready watch.new) }
        ensures watched { W.watched watch.old watch.new }
    {
        let None = self.refused else {
            return Ok(self);
        };
        let FetchStream {
            begun,
            cutter,
            source,
            refused,
            seed,
            work,
        } = self;
        let source = source.readied(alloc, by, watch)?;
        Ok(FetchStream {
            begun,
            cutter,
            source,
            refused,
            seed,
            work,
        })
    }

    /// A turn to the next parcel: first the message of the schema, and then record batches of at
    /// most 65,536 rows, each after a dictionary for each column that is answered as one. The
    /// bodies of a parcel have at most 8,388,608 bytes together. `Turn::Working` where none of the
    /// rows is given that the turn looked at: then the same is still to come, and the next turn
    /// goes on after them. Groups that were not made before are made in one turn. What refuses a
    /// stream is answered from then on.
    ///
    /// # Errors
    ///
    /// F20 (`Fault::ResultTooLarge`) where the answer has more than 67,108,864 rows, after a
    /// beginning of it; F21 (`Fault::OutOfMemory`) where memory is refused.
    pub fn turn(&mut self, alloc: Global, patience: Patience) -> Result<Turn<Parcel>, Fault>
        ensures turns { GivesTurn patience self.old.stream result self.new.stream }
        ensures looks { LooksFor patience result self.old.unseen self.new.unseen }
    {
        if let Some(fault) = self.refused {
            return Err(fault);
        }
        let given = if self.begun {
            let writing = WriteContext {
                alloc,
                seed: self.seed,
            };
            turn_of_rows(writing, patience, &mut self.cutter, &mut self.source)
        } else {
            first_parcel(alloc, self.source.schema())
        };
        match &given {
            Ok(_) => self.begun = true,
            Err(fault) => self.refused = Some(*fault),
        }
        given
    }
}

// The payload of a schema alone, as the first parcel.
fn first_parcel(alloc: Global, schema: &Schema) -> Result<Turn<Parcel>, Fault>
    requires { IsSchema schema.now }
    ensures { GivesFirst schema.now result }
{
    let payload = schema_payload(alloc, schema)?;
    Ok(Turn::Given(Parcel::one(alloc, payload)?))
}

// A turn to the next batch, where the last one was given whole.
fn refill(
    alloc: Global,
    patience: Patience,
    cutter: &mut Cutter,
    source: &mut Source,
) -> Result<Turn<()>, Fault>
    requires { IsGoing cutter.old source.old }
    ensures { Refills patience cutter.old source.old result cutter.new source.new }
{
    batch_slices_keep_rows();
    if cutter.at < cutter.batch.rows() {
        return Ok(Turn::Given(()));
    }
    match source.turn(alloc, patience)? {
        Turn::Given(batch) => {
            *cutter = Cutter::new(batch);
            Ok(Turn::Given(()))
        }
        Turn::Working => Ok(Turn::Working),
        Turn::End => Ok(Turn::End),
    }
}

// A turn to the parcel of the next rows.
fn turn_of_rows(
    writing: WriteContext,
    patience: Patience,
    cutter: &mut Cutter,
    source: &mut Source,
) -> Result<Turn<Parcel>, Fault>
    requires { IsGoing cutter.old source.old }
    ensures { GivesRows patience cutter.old source.old result cutter.new source.new }
{
    batch_slices_keep_rows();
    match refill(writing.alloc, patience, cutter, source)? {
        Turn::Given(()) => Ok(Turn::Given(cutter.next(writing, source.schema())?)),
        Turn::Working => Ok(Turn::Working),
        Turn::End => Ok(Turn::End),
    }
}
