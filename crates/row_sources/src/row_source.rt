//! What gives the rows of a plan's tree.

ghost use Rattle.std.specs.Prelude.{◌≡◌, ◌≤◌, true, IfOk, IsTrue, length, map, OnOk};
ghost use Rattle.std.specs.List.{flat_map, range_with_len};
ghost use Rattle.arrays.specs.Batch.{rows_of};
ghost use Rattle.arrow_types.specs.declared.schema.Schema.{Schema};
ghost use Rattle.rewrite.specs.FoldedPredicates.{is_folded_tree};
ghost use Rattle.rewrite.specs.PrunedColumns.{IsPruned};
ghost use Rattle.rewrite.specs.PushedFilters.{is_pushed};
ghost use Rattle.table_versions.specs.StoredTables.{TableAt};
ghost use Rattle.typed_plan.specs.HeldTables.{tree_schemas};
ghost use Rattle.typed_plan.specs.TypedPlans.{IsTypedTree, has_columns, is_place};
ghost use Rattle.typed_plan.specs.View.{tree_of};
ghost use Rattle.batch_skipping.specs.Narrow.{BeginsInFirst};
ghost use Rattle.batch_skipping.specs.OpenedBatches.{batches_in};
ghost use Rattle.row_sources.specs.BegunRows.{IsBegun};
ghost use Rattle.row_sources.specs.Parts.{first_batches};
ghost use Rattle.row_sources.specs.Showing.{shown_of};
ghost use Rattle.row_sources.specs.UnfilteredRows.{IsUnfiltered};

use crate::build::{FilteredSource, build};
use crate::opened_table::OpenedTable;
use crate::picker::Picker;
use crate::rows::Rows;
use arrow_types::DataType;
use scan_base::HashSeed;
use std::alloc::{AllocError, Global};
use std::marker::Model;
use typed_plan::{Columns, Output, Plan};
use work_watch::Watches;

/// A plan: the tree that gives its rows, and what its result takes of them.
#[derive(Drop)]
pub struct WholePlan<'o> {
    /// The tree.
    pub tree: Plan,
    /// The result. The code does not read it: contracts say by it which columns something names.
    pub output: &'o Output,
}

/// Which rows of the first place are read, and what the hashes of keys begin with.
#[derive(Clone, Copy, Drop)]
pub struct ReadRange {
    /// What the hashes of joined keys begin with.
    pub seed: HashSeed,
    /// The first row that is read.
    pub from: usize,
    /// The first row after those that are read.
    pub to: usize,
}

/// What gives the rows of a plan's tree. A contract sees the rows that are to be given, and how
/// many there are before the filters.
pub struct RowSource {
    sourced: FilteredSource,
}

impl Model for RowSource {
    ghost use Rattle.row_sources.specs.RowSource.{SourceAt};
    ghost use Rattle.row_sources.specs.FilteredSource.{IsFilteredSource, source_of};

    ghost Value = { SourceAt };

    ghost view = { λ s. source_of s.sourced };

    ghost invariant = { λ s. IsFilteredSource s.sourced };
}

// Written out, so that dropping it is one call (docs/DECISIONS.md).
impl Drop for RowSource {
    fn drop(self) {
        let RowSource { sourced: _ } = self;
    }
}

/// All rows of a source, in the columns that it gives, and what lets through those rows that it
/// gives.
#[derive(Drop)]
pub struct UnfilteredRows {
    /// All rows.
    pub rows: Rows,
    /// The filters, which see all columns of these rows. It gives none.
    pub picker: Picker,
    /// The types of the columns.
    pub types: Vec<DataType>,
}

impl RowSource {
    /// What gives the rows of a rewritten plan's tree over a range of its first place, which begins
    /// in the first batch that is read, and of which each such batch has a row. The tables are
    /// those of its places, in order. The further places are read here. Who watches may end it
    /// after each batch of one that is read, and while its rows are hashed.
    ///
    /// # Errors
    ///
    /// `AllocError` where memory is refused, or who watches ends it.
    pub fn watched<W: Watches>(
        alloc: Global,
        plan: WholePlan<'_>,
        tables: Vec<OpenedTable>,
        reading: ReadRange,
        watch: &mut W,
    ) -> Result<RowSource, AllocError>
        requires folded { is_folded_tree (tree_of plan.tree) ≡ true }
        requires below { is_pushed (tree_of plan.tree) ≡ true }
        requires pruned { (schema : Schema) → IsPruned
            (record { tree = tree_of plan.tree; output = plan.output.now; schema = schema }) }
        requires typed { IsTypedTree (tree_of plan.tree) }
        requires schemas { tree_schemas (tree_of plan.tree)
            ≡ map (λ (table : TableAt). table.schema) tables.items }
        requires first { BeginsInFirst reading.from (first_batches tables.items) }
        requires each { batches_in reading.from reading.to (first_batches tables.items)
            ≡ range_with_len 0 (length (first_batches tables.items)) }
        requires ready { W.ready watch.old }
        ensures begun { IfOk result (λ source. IsBegun (tree_of plan.entry.tree) tables.items
            reading.from reading.to source.rows) }
        ensures few { IfOk result (λ source. is_place (tree_of plan.entry.tree) ≡ true →
            source.count ≤ length (flat_map rows_of (first_batches tables.items))) }
        ensures ready { OnOk result (W.ready watch.new) }
        ensures watched { W.watched watch.old watch.new }
    {
        let WholePlan { tree, output: _ } = plan;
        let sourced = build(alloc, tree, tables, reading, watch)?;
        Ok(RowSource { sourced })
    }

    /// These columns of the rows.
    ///
    /// # Errors
    ///
    /// `AllocError` where memory is refused.
    pub fn project(self, alloc: Global, columns: &Columns) -> Result<Rows, AllocError>
        requires { IsTrue (has_columns (length self.rows.types) columns.now) }
        ensures { IfOk result (λ rows. rows ≡ shown_of columns.now self.rows) }
    {
        let RowSource { sourced } = self;
        sourced.shown(alloc, columns)
    }

    /// The rows before the filters, as slices of their batches, and the filters.
    ///
    /// # Errors
    ///
    /// `AllocError` where memory is refused.
    pub fn without_filters(self, alloc: Global) -> Result<UnfilteredRows, AllocError>
        ensures { IfOk result (λ made. IsUnfiltered self made) }
    {
        let RowSource { sourced } = self;
        sourced.unfiltered(alloc)
    }
}
