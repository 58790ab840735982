//! Scans.

ghost use Rattle.std.specs.Prelude.{◌≡◌, ◌≤◌, ◌<◌, [], false, IfOk, IfSome, length, OnOk};
ghost use Rattle.std.specs.List.{list_any};
ghost use Rattle.table_versions.specs.StoredTables.{CatalogAt, tables_of};
ghost use Rattle.table_versions.specs.Table.{is_long_text};
ghost use Rattle.typed_plan.specs.HeldTables.{HoldsFrom};
ghost use Rattle.typed_plan.specs.Plan.{plan_rows};
ghost use Rattle.typed_plan.specs.View.{plan_of};
ghost use Rattle.scan_base.specs.Limits.{most_answer_rows};
ghost use Rattle.scan_exec.specs.Answering.{CountsTurn, IsGiving, giving_at};
ghost use Rattle.scan_exec.specs.Morsels.{HasMorsels, morsel_of, of_first};
ghost use Rattle.scan_exec.specs.Scan.{Gives, GivesTurn, IsBeginning, IsReadied, left};

use crate::group_work::GroupsBatches;
use crate::opened_batches::{further_batches, push_numbers};
use crate::scan_answer::{ScanAnswer, answer_of};
use arrays::Batch;
use arrow_types::Schema;
use batch_skipping::opened_lists;
use rewrite::laws::skipping_keeps_rows;
use row_sources::{Patience, ReadRange, RowSource, Turn, WholePlan, opened_tables};
use scan_base::{Fault, HashSeed};
use std::alloc::{AllocError, Global};
use std::marker::Model;
use std::ops::Range;
use std::sync::Arc;
use typed_plan::TypedPlan;
use work_watch::{NoWatch, Watches};

/// How many rows an answer has at most.
pub const MAX_ANSWER_ROWS: usize = 67_108_864;

/// What a plan gives of a range of its first place's rows, still to be given, batch by batch. A
/// contract sees these rows, each with the batch of the first place of which it comes; which
/// batches are to be opened, and which were; and what refused the scan.
pub struct Scan {
    schema: Arc<Schema>,
    answer: ScanAnswer,
    // The batches that are to be opened: those of the further places, and then those of the first.
    batches: Vec<(usize, usize)>,
    further: usize,
    given: usize,
    refused: Option<Fault>,
}

impl Model for Scan {
    ghost use Rattle.scan_exec.specs.Answering.{IsGiving, IsScan, giving_at, scan_at};
    ghost use Rattle.std.specs.Arc.{arc_value};
    ghost use Rattle.scan_exec.specs.Scan.{ScanAt};

    ghost Value = { ScanAt };

    ghost view = { λ s. scan_at (arc_value s.schema)
        (giving_at s.answer) s.batches.items s.further s.given s.refused };

    ghost invariant = { λ s. IsGiving s.answer
        × IsScan (giving_at s.answer) s.batches.items s.further s.given };
}

// Written out, so that dropping it is one call (docs/DECISIONS.md).
impl Drop for Scan {
    fn drop(self) {
        let Scan {
            schema: _,
            answer: _,
            batches: _,
            further: _,
            given: _,
            refused: _,
        } = self;
    }
}

impl Scan {
    /// The scan of a plan over the rows `range.start` up to, not with, `range.end` of its first
    /// place. Rows that the place does not have are none. The first row is looked for by halves.
    /// The further places are opened here, and the hashes of their keys begin with the seed.
    ///
    /// # Errors
    ///
    /// `AllocError` where memory is refused.
    pub fn new(
        alloc: Global,
        seed: HashSeed,
        plan: TypedPlan,
        range: Range<usize>,
    ) -> Result<Scan, AllocError>
        ensures begins { IfOk result (IsBeginning plan range.start range.end) }
        ensures rows { IfOk result (λ scan. (catalog : CatalogAt) → HoldsFrom catalog plan →
            left scan ≡ plan_rows (plan_of plan) (tables_of catalog) range.start range.end) }
        ensures short { IfOk result (λ scan. list_any (list_any is_long_text) (left scan) ≡ false) }
    {
        let reading = ReadRange {
            seed,
            from: range.start,
            to: range.end,
        };
        Scan::watched(alloc, plan, reading, &mut NoWatch)
    }

    /// The same, watched: who watches may end it while batches are judged by their statistics, and
    /// while the further places are read.
    ///
    /// # Errors
    ///
    /// `AllocError` where memory is refused, or who watches ends it.
    pub fn watched<W: Watches>(
        alloc: Global,
        plan: TypedPlan,
        reading: ReadRange,
        watch: &mut W,
    ) -> Result<Scan, AllocError>
        requires ready { W.ready watch.old }
        ensures begins { IfOk result (IsBeginning plan reading.from reading.to) }
        ensures rows { IfOk result (λ scan. (catalog : CatalogAt) → HoldsFrom catalog plan →
            left scan ≡ plan_rows (plan_of plan) (tables_of catalog) reading.from reading.to) }
        ensures short { IfOk result (λ scan. list_any (list_any is_long_text) (left scan) ≡ false) }
        ensures ready { OnOk result (W.ready watch.new) }
        ensures watched { W.watched watch.old watch.new }
    {
        skipping_keeps_rows();
        let _typed = plan.plan();
        let _columns = plan.tables();
        let lists = opened_lists(alloc, &plan, reading.from..reading.to, watch)?;
        let mut batches = further_batches(alloc, lists.as_slice())?;
        let further = batches.len();
        let first = &lists[0];
        push_numbers(&mut batches, 0, first.numbers.as_slice())?;
        let (from, to) = (first.from, first.to);
        let plan = rewrite::rewrite(alloc, plan)?;
        let (tables, tree, output, schema) = plan.into_parts();
        let tables = opened_tables(alloc, tables.as_slice(), lists)?;
        let seed = reading.seed;
        let opened = ReadRange { seed, from, to };
        let plan = WholePlan {
            tree,
            output: &output,
        };
        let source = RowSource::watched(alloc, plan, tables, opened, watch)?;
        Ok(Scan {
            schema: Arc::new(alloc, schema)?,
            answer: answer_of(alloc, source, output, seed)?,
            batches,
            further,
            given: 0,
            refused: None,
        })
    }

    /// The columns of the result.
    pub fn schema(&self) -> &Schema
        ensures { result.now ≡ self.now.schema }
    {
        &self.schema
    }

    /// The same scan, whose groups are made, if it makes groups. Who watches may end it. What comes
    /// next is as before, but that all batches of a grouped query are opened.
    ///
    /// # Errors
    ///
    /// `AllocError` where memory is refused, or who watches ends it.
    pub fn readied<G: GroupsBatches, W: Watches>(
        self,
        alloc: Global,
        by: &G,
        watch: &mut W,
    ) -> Result<Scan, AllocError>
        requires ready { W.ready watch.old }
        ensures readied { IfOk result (IsReadied self) }
        ensures ready { OnOk result (W.ready watch.new) }
        ensures watched { W.watched watch.old watch.new }
    {
        let mut scan = self;
        scan.answer.make_groups(alloc, by, watch)?;
        Ok(scan)
    }

    /// The next rows, 65,536 or fewer, as a batch. Rows of one place come batch by batch of its
    /// table: where they stand next to each other they are slices of the table's columns, and no
    /// value is copied; else they are gathered into buffers of their own. `None` where no row is
    /// left. What refuses a scan is answered from then on.
    ///
    /// # Errors
    ///
    /// F20 (`Fault::ResultTooLarge`) where the answer has more than 67,108,864 rows: what was given
    /// of it before is a beginning, which may be empty. F21 (`Fault::OutOfMemory`) where memory is
    /// refused.
    pub fn next(&mut self, alloc: Global) -> Result<Option<Batch>, Fault>
        ensures { Gives self.old result self.new }
    {
        match self.turn(alloc, Patience::Endless)? {
            Turn::Given(batch) => Ok(Some(batch)),
            Turn::Working => Ok(None),
            Turn::End => Ok(None),
        }
    }

    /// A turn to the next batch. `Turn::Working` where none of the rows is given that the turn
    /// looked at: the next turn goes on after them. Groups that were not made before are made in
    /// one turn.
    ///
    /// # Errors
    ///
    /// Those of `next`.
    pub fn turn(&mut self, alloc: Global, patience: Patience) -> Result<Turn<Batch>, Fault>
        ensures { GivesTurn patience self.old result self.new }
    {
        if let Some(fault) = self.refused {
            return Err(fault);
        }
        match turn_counted(alloc, patience, &mut self.answer, &mut self.given) {
            Ok(found) => Ok(found),
            Err(fault) => {
                self.refused = Some(fault);
                Err(fault)
            }
        }
    }

    /// The batches that were opened, in order, each by the number of its place and its own number
    /// there, both from 0.
    pub fn opened(&self) -> &[(usize, usize)]
        ensures { result.now ≡ self.now.opened }
    {
        &self.batches.as_slice()[..self.further + self.answer.opened()]
    }

    /// How many rows were given.
    pub fn given(&self) -> usize
        ensures { result ≡ self.now.given }
    {
        self.given
    }

    /// How many morsels the scan has: one for each batch of the first place that is to be opened.
    /// Its rows are those of its morsels, in order. `None` for a scan that makes groups, and for
    /// one that has begun: that opened a batch of the first place, gave rows, or was refused.
    pub fn morsels(&self) -> Option<usize>
        ensures { IfSome result (HasMorsels self.now) }
    {
        let ScanAnswer::Rows(rows) = &self.answer else {
            return None;
        };
        if rows.opened() > 0 || self.given > 0 || self.refused.is_some() {
            return None;
        }
        Some(self.batches.len() - self.further)
    }

    /// A morsel of a scan of which no batch of the first place was opened: the rows of one such
    /// batch, counted from 0 in the order of opening, as a scan of their own. It shares tables,
    /// filters and the right sides of joins, which are not built again, and takes memory for a few
    /// handles. Threads may ask one scan for morsels at the same time.
    ///
    /// # Errors
    ///
    /// `AllocError` where memory is refused. A scan that makes groups has no morsel, and answers it
    /// too.
    pub fn morsel(&self, alloc: Global, number: usize) -> Result<Scan, AllocError>
        requires unopened { of_first self.now.opened ≡ [] }
        requires there { number < length (of_first self.now.batches) }
        ensures { IfOk result
            (λ morsel. morsel ≡ record (morsel_of self.now number) { unseen = morsel.unseen }) }
    {
        let ScanAnswer::Rows(rows) = &self.answer else {
            return Err(AllocError);
        };
        let _ordered = rows.opened();
        let rows = rows.part(alloc, number)?;
        let mut batches = Vec::with_capacity(alloc, 1)?;
        batches.push(self.batches[self.further + number])?;
        Ok(Scan {
            schema: Arc::try_clone(&self.schema)?,
            answer: ScanAnswer::Rows(rows),
            batches,
            further: 0,
            given: 0,
            refused: None,
        })
    }
}

// A turn to the next batch, where so many rows were given.
fn turn_counted(
    alloc: Global,
    patience: Patience,
    answer: &mut ScanAnswer,
    given: &mut usize,
) -> Result<Turn<Batch>, Fault>
    requires giving { IsGiving answer.old }
    requires few { given.old ≤ most_answer_rows }
    ensures giving { IsGiving answer.new }
    ensures counts { CountsTurn patience (giving_at answer.old) given.old result
        (giving_at answer.new) given.new }
{
    match answer.turn(alloc, patience)? {
        Turn::Given(batch) => {
            if batch.rows() > MAX_ANSWER_ROWS - *given {
                return Err(Fault::ResultTooLarge);
            }
            *given += batch.rows();
            Ok(Turn::Given(batch))
        }
        Turn::Working => Ok(Turn::Working),
        Turn::End => Ok(Turn::End),
    }
}
