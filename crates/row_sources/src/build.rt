//! A plan made ready to give its rows.

ghost use Rattle.std.specs.Prelude.{◌≡◌, ◌≤◌, true, IfOk, length, map, OnOk};
ghost use Rattle.std.specs.List.{flat_map, range_with_len};
ghost use Rattle.arrays.specs.Batch.{rows_of};
ghost use Rattle.table_versions.specs.StoredTables.{TableAt};
ghost use Rattle.typed_plan.specs.HeldTables.{tree_schemas};
ghost use Rattle.typed_plan.specs.TypedPlans.{IsTypedTree, is_place};
ghost use Rattle.typed_plan.specs.View.{tree_of};
ghost use Rattle.row_sources.specs.BegunRows.{IsBegun};
ghost use Rattle.row_sources.specs.FilteredSource.{IsFilteredSource, filtered_source_at};
ghost use Rattle.row_sources.specs.Parts.{first_batches};
ghost use Rattle.row_sources.specs.JoinedRows.{source_at};
ghost use Rattle.batch_skipping.specs.Narrow.{BeginsInFirst};
ghost use Rattle.batch_skipping.specs.OpenedBatches.{batches_in};

use crate::join_source::{JoinInput, join_source};
use crate::opened_table::OpenedTable;
use crate::picker::Picker;
use crate::row_source::ReadRange;
use crate::rows::{Rows, Source};
use crate::scan_source::scan_source;
use arrow_types::DataType;
use scan_base::Predicate;
use std::alloc::{AllocError, Global};
use std::sync::Arc;
use typed_plan::Plan;
use typed_plan::laws::typed_predicates_name_columns;
use work_watch::Watches;

// A source, the filters over its rows, and the numbers of its columns that they see and that are
// given, with their types.
#[derive(Drop)]
pub(crate) struct FilteredSource {
    pub(crate) source: Source,
    pub(crate) filters: Vec<Predicate<usize>>,
    pub(crate) columns: Vec<usize>,
    pub(crate) types: Vec<DataType>,
}

// What gives the rows of a plan over a range of its first place, which begins in the first batch
// that is read, and of which each such batch has a row. The tables are those of its places, in
// order. The further places are read here, watched.
pub(crate) fn build<W: Watches>(
    alloc: Global,
    plan: Plan,
    tables: Vec<OpenedTable>,
    reading: ReadRange,
    watch: &mut W,
) -> Result<FilteredSource, AllocError>
    requires typed { IsTypedTree (tree_of plan) }
    requires schemas { tree_schemas (tree_of plan)
        ≡ map (λ (table : TableAt). table.schema) tables.items }
    requires first { BeginsInFirst reading.from (first_batches tables.items) }
    requires each { batches_in reading.from reading.to (first_batches tables.items)
        ≡ range_with_len 0 (length (first_batches tables.items)) }
    requires ready { W.ready watch.old }
    ensures sourced { IfOk result IsFilteredSource }
    ensures begun { IfOk result
        (λ made. IsBegun (tree_of plan) tables.items reading.from reading.to
        (filtered_source_at made)) }
    ensures few { IfOk result (λ made. is_place (tree_of plan) ≡ true →
        length (source_at made.source).ahead
        ≤ length (flat_map rows_of (first_batches tables.items))) }
    ensures ready { OnOk result (W.ready watch.new) }
    ensures watched { W.watched watch.old watch.new }
{
    typed_predicates_name_columns();
    let mut tables = tables;
    match plan {
        Plan::Scan { columns, .. } => {
            let table = tables.pop().ok_or(AllocError)?;
            scan_source(alloc, &columns, table, reading)
        }
        Plan::Filter { predicate, input } => {
            let mut made = build(alloc, Box::into_inner(input), tables, reading, watch)?;
            made.filters.push(predicate)?;
            Ok(made)
        }
        Plan::Join { left, right, on } => {
            let table = tables.pop().ok_or(AllocError)?;
            let left = build(alloc, Box::into_inner(left), tables, reading, watch)?;
            let (seed, from, to) = (reading.seed, 0, table.rows());
            let mut last = Vec::new(alloc);
            last.push(table)?;
            let right = build(
                alloc,
                Box::into_inner(right),
                last,
                ReadRange { seed, from, to },
                watch,
            )?;
            join_source(alloc, seed, JoinInput { left, right }, on.as_slice(), watch)
        }
    }
}

impl FilteredSource {
    // What gives the rows.
    pub(crate) fn rows(self, alloc: Global) -> Result<Rows, AllocError>
        requires { IsFilteredSource self }
        ensures { IfOk result (λ rows. rows ≡ filtered_source_at self) }
    {
        let mut read = Vec::new(alloc);
        read.extend_from_slice(self.columns.as_slice())?;
        let picker = Picker {
            filters: self.filters,
            read,
            shown: self.columns,
        };
        Ok(Rows::new(alloc, self.source, Arc::new(alloc, picker)?))
    }
}
