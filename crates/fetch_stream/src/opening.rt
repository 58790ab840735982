//! Openings: what a handle means, before a row of it is read.

ghost use Rattle.std.specs.Prelude.{◌≡◌, ◌≢◌, ◌≤◌, true, false, length, nat_le, Err, IfOk, IfErr};
ghost use Rattle.std.specs.Prelude.{OnOk};
ghost use Rattle.scan_base.specs.declared.fault.Fault.TheVariants.{BadTicket, LimitReached};
ghost use Rattle.scan_base.specs.declared.fault.Fault.TheVariants.{OutOfMemory};
ghost use Rattle.scan_base.specs.Limits.{most_query_bytes};
ghost use Rattle.scan_base.specs.Reading.{RefusesFirst, demand};
ghost use Rattle.endpoint_split.specs.HandleView.{handle_seen};
ghost use Rattle.arrow_types.specs.Schema.{IsSchema};
ghost use Rattle.table_versions.specs.Table.{Table};
ghost use Rattle.table_versions.specs.StoredTables.{tables_of};
ghost use Rattle.flight_info.specs.QueryMeaning.{Meant};
ghost use Rattle.flight_info.specs.Tables.{tables_listed};
ghost use Rattle.fetch_stream.specs.Fetches.{may_mean};
ghost use Rattle.fetch_stream.specs.Morsels.{GivesSchema, before_schema};
ghost use Rattle.fetch_stream.specs.Streams.{Opens, opened};
ghost use Rattle.fetch_stream.specs.inside.Opening.{IsMeaning, rows_meant, stream_meant};

use crate::message::said_schema;
use crate::payload::Payload;
use crate::payload_work::Work;
use crate::source::Source;
use crate::stream::FetchStream;
use arrays::Batch;
use arrow_types::Schema;
use batch_skipping::judging_rows;
use endpoint_split::{Handle, Range};
use flight_info::{QueryPlan, plan_text, tables_batch, tables_schema};
use row_sources::ReadRange;
use scan_base::{Fault, HashSeed};
use scan_exec::Scan;
use std::alloc::{AllocError, Global};
use std::marker::Model;
use table_versions::{CatalogVersion, Snapshot};
use typed_plan::{Output, Plan, TypedPlan};
use work_watch::pace::{FEW_ROWS, TURN_ROWS};
use work_watch::{Watches, comparisons_in};

// A query that is planned, the range of its first place that is scanned, and what the hashes of its
// keys begin with.
pub(crate) struct PlannedScan {
    pub(crate) seed: HashSeed,
    pub(crate) plan: TypedPlan,
    pub(crate) from: usize,
    pub(crate) to: usize,
}

// Written out, so that dropping it is one call (docs/DECISIONS.md).
impl Drop for PlannedScan {
    fn drop(self) {
        let PlannedScan {
            seed: _,
            plan: _,
            from: _,
            to: _,
        } = self;
    }
}

// What is meant: a scan that is not made yet, or the list of tables.
pub(crate) enum Meaning {
    Planned(PlannedScan),
    Listed(FetchStream),
}

// Written out, so that dropping it is one call (docs/DECISIONS.md).
impl Drop for Meaning {
    fn drop(self) {
        match self {
            Meaning::Planned(_) => {}
            Meaning::Listed(_) => {}
        }
    }
}

/// What a handle means, before a row of it is read. Its first payload can be told at once, and
/// making its stream may take long: batches are judged by their statistics then, and the further
/// places of a join are read and hashed. A contract sees the stream, of which nothing was given.
pub struct Opening {
    meaning: Meaning,
    // How its payloads may be made.
    work: Work,
}

impl Model for Opening {
    ghost use Rattle.fetch_stream.specs.Streams.{StreamAt};
    ghost use Rattle.fetch_stream.specs.inside.Opening.{IsMeaning, stream_meant};

    ghost Value = { StreamAt };

    ghost view = { λ o. stream_meant o.meaning };

    ghost invariant = { λ o. IsMeaning o.meaning };
}

// Written out, so that dropping it is one call (docs/DECISIONS.md).
impl Drop for Opening {
    fn drop(self) {
        let Opening {
            meaning: _,
            work: _,
        } = self;
    }
}

impl Opening {
    // Of what is meant.
    fn of(meaning: Meaning) -> Opening
        requires { IsMeaning meaning }
        ensures { result ≡ stream_meant meaning }
    {
        Opening {
            meaning,
            work: Work::alone(),
        }
    }

    // The same, whose payloads may be made so.
    fn with_work(self, work: Work) -> Opening
        ensures { result ≡ self }
    {
        let Opening { meaning, work: _ } = self;
        Opening { meaning, work }
    }

    /// What a handle means at a version of the catalog. The list of tables has a row for each table
    /// of this version, in byte order of the names. So many workers may make the parcels, if an
    /// executor lets them: what its stream gives is the same for any number.
    ///
    /// # Errors
    ///
    /// F17 (`Fault::BadTicket`) where the query does not parse or is not bound at this version, or
    /// the range is not within the rows of its first place. Also where the query makes groups and
    /// the range is not all of them, so never for the list of tables. F21 (`Fault::OutOfMemory`)
    /// where memory is refused, but neither for a query of more than 16,384 bytes nor for a range
    /// that ends before it begins.
    pub fn new(
        alloc: Global,
        snapshot: &Snapshot,
        handle: &Handle<'_>,
        workers: usize,
    ) -> Result<Opening, Fault>
        ensures opens { Opens (tables_of snapshot.now.catalog) (handle_seen handle.now) result }
        ensures first { may_mean (handle_seen handle.now) ≡ false → result ≡ Err BadTicket }
    {
        let opening = open(alloc, snapshot.catalog(), handle)?;
        let work = Work {
            workers,
            rows: rows_asked(handle),
            comparisons: opening.meaning.comparisons(),
        };
        Ok(opening.with_work(work))
    }

    /// The payload of the schema, after which the stream is `FetchStream::behind_schema`.
    ///
    /// # Errors
    ///
    /// F21 (`Fault::OutOfMemory`) where memory is refused.
    pub fn first_payload(&self, alloc: Global) -> Result<Payload, Fault>
        ensures gives { GivesSchema self.now.schema result }
        ensures before { self.now ≡ before_schema self.now.schema self.now.left }
    {
        said_schema(alloc, schema_of(&self.meaning))
    }

    /// Whether its second payload may come late. It joins or makes groups, and a place has more
    /// than 64 rows; or the judging of its batches counts as more than 1,048,576 rows; or the
    /// filters compare more than 64 times for a row. Contracts say nothing of it.
    pub fn takes_long(&self) -> bool {
        match &self.meaning {
            Meaning::Planned(scan) => self.work.compares_much() || scan.takes_long(),
            Meaning::Listed(_) => false,
        }
    }

    /// The stream. Batches are judged by their statistics here, and the further places of a join
    /// are read. Who watches may end it then.
    ///
    /// # Errors
    ///
    /// `AllocError` where memory is refused, or who watches ends it.
    pub fn stream_watched<W: Watches>(
        self,
        alloc: Global,
        watch: &mut W,
    ) -> Result<FetchStream, AllocError>
        requires ready { W.ready watch.old }
        ensures stream { IfOk result (λ stream. stream.stream ≡ self) }
        ensures ready { OnOk result (W.ready watch.new) }
        ensures watched { W.watched watch.old watch.new }
    {
        let Opening { meaning, work } = self;
        let stream = meaning.stream(alloc, watch)?;
        Ok(stream.with_work(work))
    }
}

impl Meaning {
    // How many comparisons all its filters make for a row at most.
    fn comparisons(&self) -> usize {
        match self {
            Meaning::Planned(scan) => comparisons_of(scan.plan.plan()),
            Meaning::Listed(_) => 0,
        }
    }

    // The stream of it, watched.
    fn stream<W: Watches>(self, alloc: Global, watch: &mut W) -> Result<FetchStream, AllocError>
        requires meaning { IsMeaning self }
        requires ready { W.ready watch.old }
        ensures stream { IfOk result (λ stream. stream.stream ≡ stream_meant self) }
        ensures ready { OnOk result (W.ready watch.new) }
        ensures watched { W.watched watch.old watch.new }
    {
        match self {
            Meaning::Planned(scan) => scan.stream(alloc, watch),
            Meaning::Listed(stream) => Ok(stream),
        }
    }
}

impl PlannedScan {
    // The stream of it. The scan is made here, watched.
    fn stream<W: Watches>(self, alloc: Global, watch: &mut W) -> Result<FetchStream, AllocError>
        requires schema { IsSchema self.plan.schema }
        requires ready { W.ready watch.old }
        ensures stream { IfOk result
            (λ stream. stream.stream ≡ before_schema self.plan.schema (rows_meant self)) }
        ensures ready { OnOk result (W.ready watch.new) }
        ensures watched { W.watched watch.old watch.new }
    {
        let PlannedScan {
            seed,
            plan,
            from,
            to,
        } = self;
        let scan = Scan::watched(alloc, plan, ReadRange { seed, from, to }, watch)?;
        let nothing = Batch::new(Vec::new(alloc), 0);
        Ok(FetchStream::of(seed, nothing, Source::Scanned(scan)))
    }

    // Whether its batches are judged for long, or it joins or makes groups, and a place has more
    // than a few rows.
    fn takes_long(&self) -> bool {
        judging_rows(&self.plan) > TURN_ROWS || self.makes_much()
    }

    // Whether it joins or makes groups, and a place has more than a few rows.
    fn makes_much(&self) -> bool {
        let tables = self.plan.tables();
        if tables.len() < 2 && !matches!(self.plan.output(), Output::Groups { .. }) {
            return false;
        }
        for table in tables {
            if table.rows() > FEW_ROWS {
                return true;
            }
        }
        false
    }
}

// The schema of what is meant.
fn schema_of(meaning: &Meaning) -> &Schema
    requires { IsMeaning meaning.now }
    ensures is { result.now ≡ (stream_meant meaning.now).schema }
    ensures valid { IsSchema result.now }
{
    match meaning {
        Meaning::Planned(scan) => scan.plan.schema(),
        Meaning::Listed(stream) => stream.schema(),
    }
}

// How many comparisons all filters of a plan make for a row at most.
fn comparisons_of(plan: &Plan) -> usize {
    match plan {
        Plan::Scan { .. } => 0,
        Plan::Filter { predicate, input } => {
            comparisons_in(predicate).saturating_add(comparisons_of(input))
        }
        Plan::Join { left, right, .. } => {
            comparisons_of(left).saturating_add(comparisons_of(right))
        }
    }
}

// How many rows the range of a handle has.
fn rows_asked(handle: &Handle<'_>) -> usize {
    match handle {
        Handle::Query { range, .. } => range.to.saturating_sub(range.from) as usize,
        Handle::Tables { .. } => 0,
    }
}

// How many rows a range of a query has at least: all of the first place, where the query makes
// groups.
fn least_rows(planned: &QueryPlan) -> usize
    ensures whole { planned.now.grouped ≡ true → result ≡ planned.now.rows }
    ensures part { planned.now.grouped ≡ false → result ≡ 0 }
{
    if planned.grouped { planned.rows } else { 0 }
}

// What a handle means.
fn open(alloc: Global, catalog: &CatalogVersion, handle: &Handle<'_>) -> Result<Opening, Fault>
    ensures opens { Opens (tables_of catalog.now) (handle_seen handle.now) result }
    ensures first { may_mean (handle_seen handle.now) ≡ false → result ≡ Err BadTicket }
{
    match handle {
        Handle::Query { range, .. } if range.from > range.to => Err(Fault::BadTicket),
        Handle::Query { range, query, .. } => match open_query(alloc, catalog, query, *range) {
            Err(fault) if fault != Fault::OutOfMemory => Err(Fault::BadTicket),
            opened => opened,
        },
        Handle::Tables { .. } => Ok(open_tables(alloc, catalog)?),
    }
}

// What a query means over a range of its first place, which does not end before it begins.
fn open_query(
    alloc: Global,
    catalog: &CatalogVersion,
    text: &str,
    range: Range,
) -> Result<Opening, Fault>
    requires ordered { range.from ≤ range.to }
    ensures opened { IfOk result (λ opening. (answer : Table)
        × Meant (tables_of catalog.now) range.from range.to text.now answer
        × (opening ≡ opened answer)) }
    ensures refused { IfErr result (λ fault. fault ≢ OutOfMemory →
        (answer : Table) → Meant (tables_of catalog.now) range.from range.to text.now answer → ⊥) }
    ensures first { RefusesFirst result
        (demand (nat_le (length text.now) most_query_bytes) LimitReached) }
{
    let planned = plan_text(alloc, catalog, text)?;
    let (from, to) = (range.from as usize, range.to as usize);
    if to > planned.rows {
        return Err(Fault::BadTicket);
    }
    let count = to - from;
    let least = least_rows(&planned);
    if count < least {
        return Err(Fault::BadTicket);
    }
    let _typed = planned.plan.plan();
    let _columns = planned.plan.tables();
    let seed = catalog.seed();
    let plan = planned.plan;
    let scan = PlannedScan {
        seed,
        plan,
        from,
        to,
    };
    Ok(Opening::of(Meaning::Planned(scan)))
}

// The list of tables.
fn open_tables(alloc: Global, catalog: &CatalogVersion) -> Result<Opening, AllocError>
    ensures { IfOk result (λ opening. opening ≡ opened (tables_listed (tables_of catalog.now))) }
{
    let schema = tables_schema(alloc)?;
    let batch = tables_batch(alloc, catalog)?;
    let stream = FetchStream::of(catalog.seed(), batch, Source::Listed(schema));
    Ok(Opening::of(Meaning::Listed(stream)))
}
