//! Which batches are opened.

ghost use Rattle.std.specs.Prelude.{◌≡◌, ◌<◌, ◌≤◌, ◌+◌, ◌-◌, ◌*◌, ◌^◌, ◌==◌, ◌∷◌, ◌++◌, []};
ghost use Rattle.std.specs.Prelude.{if◌then◌else◌, All, IfOk, IsTrue, OnOk, length, map, min};
ghost use Rattle.std.specs.List.{list_all};
ghost use Rattle.scan_base.specs.Predicate.{names_only};
ghost use Rattle.scan_base.specs.View.{pred_of};
ghost use Rattle.rewrite.specs.Conjuncts.{is_between};
ghost use Rattle.table_versions.specs.KeptTables.{IsKept};
ghost use Rattle.table_versions.specs.StoredTables.{TableAt, table_of};
ghost use Rattle.typed_plan.specs.TypedPlans.{has_columns};
ghost use Rattle.batch_skipping.specs.PlaceLists.{AreLists, IsListOf};
ghost use Rattle.batch_skipping.specs.OpenedBatches.{batches_in, given_width, judged_count};
ghost use Rattle.batch_skipping.specs.OpenedBatches.{opened_numbers};
ghost use Rattle.work_watch.specs.WatchedWork.{ToldAtLeast};
ghost use Rattle.batch_skipping.specs.inside.JudgedBatches.{judged_before};

use crate::conjuncts::where_parts;
use crate::place_filter::{PlaceColumns, PlaceFilter};
use crate::scan_columns::{given_width, scans_of};
use std::alloc::{AllocError, Global};
use std::ops::Range;
use table_versions::laws::batches_are_rows;
use table_versions::{BatchPlace, TableVersion};
use typed_plan::TypedPlan;
use work_watch::{Watches, tell};

/// What is read of a place.
#[derive(Drop)]
pub struct OpenedList {
    /// The batches that are opened, in order.
    pub numbers: Vec<usize>,
    /// How many rows these have in all.
    pub rows: usize,
    /// The first of these rows that is read.
    pub from: usize,
    /// The first row after those that are read.
    pub to: usize,
}

// The rows `from` up to, not with, `to` of a table.
#[derive(Clone, Copy, Drop)]
struct TableRows<'a> {
    table: &'a TableVersion,
    from: usize,
    to: usize,
}

/// What a plan reads of its places, over the rows `range.start` up to, not with, `range.end` of the
/// first one. A batch is left out where a conjunct of WHERE that names no column of another place
/// can be true in none of its rows, by the statistics of its columns. Who watches is told of each
/// batch that is judged: of 64 rows for each comparison that these conjuncts make for a row, and of
/// one where they make none.
///
/// # Errors
///
/// `AllocError` where memory is refused: that of the numbers of the batches, and some for each
/// conjunct and place. Also where who watches ends it.
pub fn opened_lists<W: Watches>(
    alloc: Global,
    plan: &TypedPlan,
    range: Range<usize>,
    watch: &mut W,
) -> Result<Vec<OpenedList>, AllocError>
    requires ready { W.ready watch.old }
    ensures numbers { IfOk result (λ lists. map (λ list. list.numbers.items) lists.items
        ≡ opened_numbers plan.now range.start range.end) }
    ensures lists { IfOk result
        (λ lists. AreLists range.start range.end plan.now.tables lists.items) }
    ensures kept { IfOk result (λ _.
        All (λ (table : TableAt). IsKept table (length (table_of table).rows)) plan.now.tables) }
    ensures ready { OnOk result (W.ready watch.new) }
    ensures watched { W.watched watch.old watch.new }
    ensures told { OnOk result (ToldAtLeast W.told
        (judged_count range.start range.end plan.now.tables) watch.old watch.new) }
{
    let conjuncts = where_parts(alloc, plan.plan())?;
    let scans = scans_of(alloc, plan.plan())?;
    let tables = plan.tables();
    let mut lists = Vec::with_capacity(alloc, tables.len())?;
    let mut first = 0;
    for place in 0..tables.len() {
        let table = &tables[place];
        let columns = scans[place];
        let width = given_width(columns, table.schema().fields.len());
        let filter = PlaceFilter::new(
            alloc,
            conjuncts.as_slice(),
            PlaceColumns {
                columns,
                first,
                width,
            },
        )?;
        let to = if place == 0 { range.end } else { table.rows() };
        let from = if place == 0 { range.start } else { 0 };
        let read = TableRows { table, from, to };
        lists.push(place_list(alloc, &read, &filter, watch)?)?;
        first = column_behind(first, width)?;
    }
    Ok(lists)
}

// The number of the column after so many. Columns that no number counts are more than memory holds.
fn column_behind(first: usize, width: usize) -> Result<usize, AllocError>
    ensures { IfOk result (λ behind. behind ≡ first + width) }
{
    first.checked_add(width).ok_or(AllocError)
}

// The batches of a table with a row that is read in which each conjunct of a filter can be true.
// The first is looked for by halves. Who watches is told of each batch that is judged.
fn place_list<W: Watches>(
    alloc: Global,
    read: &TableRows<'_>,
    filter: &PlaceFilter<'_>,
    watch: &mut W,
) -> Result<OpenedList, AllocError>
    requires own { IsTrue
        (list_all (names_only (is_between filter.now.place.first filter.now.place.width))
        (map (λ part. pred_of part.now) filter.now.parts.items)) }
    requires fit { IsTrue
        (has_columns (length read.now.table.now.schema.fields) filter.now.place.columns.now) }
    requires wide { filter.now.place.width
        ≡ given_width filter.now.place.columns.now (length read.now.table.now.schema.fields) }
    requires weight { 1 ≤ filter.now.weight }
    requires ready { W.ready watch.old }
    ensures numbers { IfOk result (λ list. list.numbers.items
        ≡ judged_before (map (λ part. pred_of part.now) filter.now.parts.items)
        filter.now.place.first filter.now.place.columns.now
        read.now.from read.now.to read.now.table.now (length read.now.table.now.batches)) }
    ensures list { IfOk result
        (λ list. IsListOf read.now.from read.now.to read.now.table.now list) }
    ensures kept { IfOk result
        (λ _. IsKept read.now.table.now (length (table_of read.now.table.now).rows)) }
    ensures ready { OnOk result (W.ready watch.new) }
    ensures watched { W.watched watch.old watch.new }
    ensures told { OnOk result (ToldAtLeast W.told
        (length (batches_in read.now.from read.now.to read.now.table.now.batches))
        watch.old watch.new) }
{
    batches_are_rows();
    let TableRows { table, from, to } = *read;
    let mut list = OpenedList {
        numbers: Vec::new(alloc),
        rows: 0,
        from: 0,
        to: 0,
    };
    let end = to.min(table.rows());
    if from >= end {
        return Ok(list);
    }
    let mut place = table.batch_of(from);
    while place.start < end {
        let rows = table.batch_rows(place.index);
        if filter.can_hold(table, place.index) {
            list.push(place, rows, from, end)?;
        }
        tell(watch, filter.weight)?;
        place.start += rows;
        place.index += 1;
    }
    Ok(list)
}

impl OpenedList {
    // A batch more, which has so many rows, of those `from` up to, not with, `end` of the table.
    fn push(
        &mut self,
        place: BatchPlace,
        rows: usize,
        from: usize,
        end: usize,
    ) -> Result<(), AllocError>
        requires before { place.start < end }
        requires rows { self.old.rows + rows < 2 ^ 64 }
        requires to { self.old.to ≤ self.old.rows }
        ensures numbers { OnOk result
            (self.new.numbers.items ≡ self.old.numbers.items ++ place.index ∷ []) }
        ensures rows { OnOk result (self.new.rows ≡ self.old.rows + rows) }
        ensures from { OnOk result (self.new.from
            ≡ (if length self.old.numbers.items == 0 then from - place.start else self.old.from)) }
        ensures to { OnOk result (self.new.to ≡ self.old.to + min rows (end - place.start)) }
    {
        if self.numbers.is_empty() {
            self.from = from.saturating_sub(place.start);
        }
        self.numbers.push(place.index)?;
        self.rows += rows;
        self.to += rows.min(end - place.start);
        Ok(())
    }
}
