//! Tables of which a scan reads some batches alone.

ghost use Rattle.std.specs.Prelude.{◌≡◌, ◌<◌, IfOk, Some, length, map, slice_get};
ghost use Rattle.std.specs.Option.{option_to_list};
ghost use Rattle.arrays.specs.TypedLayouts.{AreOfTypes};
ghost use Rattle.table_versions.specs.KeptTables.{IsKept};
ghost use Rattle.table_versions.specs.StoredTables.{table_of};
ghost use Rattle.batch_skipping.specs.Narrow.{CanNarrow, narrowed};
ghost use Rattle.row_sources.specs.OpenedTables.{CanAll, narrow_all};

use arrays::Batch;
use arrow_types::Schema;
use batch_skipping::OpenedList;
use std::alloc::{AllocError, Global};
use std::marker::Model;
use table_versions::TableVersion;

/// A table, and the batches of it that are read. Contracts see a table that has no other.
pub struct OpenedTable {
    table: TableVersion,
    numbers: Vec<usize>,
    rows: usize,
}

// Written out, so that dropping it is one call (docs/DECISIONS.md).
impl Drop for OpenedTable {
    fn drop(self) {
        let OpenedTable {
            table: _,
            numbers: _,
            rows: _,
        } = self;
    }
}

impl Model for OpenedTable {
    ghost use Rattle.table_versions.specs.StoredTables.{TableAt};
    ghost use Rattle.batch_skipping.specs.Narrow.{CanNarrow, narrowed};

    ghost Value = { TableAt };

    ghost view = { λ t. narrowed t.numbers.items t.table };

    ghost invariant = { λ t. CanNarrow t.table t.numbers.items t.rows };
}

impl OpenedTable {
    // The table with the batches of these numbers alone, which have so many rows.
    pub(crate) fn new(table: TableVersion, numbers: Vec<usize>, rows: usize) -> OpenedTable
        requires { CanNarrow table numbers.items rows }
        ensures { result ≡ narrowed numbers.items table }
    {
        OpenedTable {
            table,
            numbers,
            rows,
        }
    }

    // The columns.
    pub(crate) fn schema(&self) -> &Schema
        ensures { result.now ≡ self.now.schema }
    {
        self.table.schema()
    }

    // How many rows the batches have.
    pub(crate) fn rows(&self) -> usize
        ensures rows { result ≡ length (table_of self.now).rows }
        ensures kept { IsKept self.now result }
    {
        let _kept = self.table.rows();
        self.rows
    }

    // How many batches there are.
    pub(crate) fn batch_count(&self) -> usize
        ensures { result ≡ length self.now.batches }
    {
        self.numbers.len()
    }

    // The table with one of the batches alone.
    pub(crate) fn only(&self, alloc: Global, index: usize) -> Result<OpenedTable, AllocError>
        requires { index < length self.now.batches }
        ensures { IfOk result
            (λ table. table
            ≡ record self.now { batches = option_to_list (slice_get self.now.batches index) }) }
    {
        let number = self.numbers[index];
        let rows = self.table.batch(number).rows();
        let mut numbers = Vec::with_capacity(alloc, 1)?;
        numbers.push(number)?;
        Ok(OpenedTable::new(self.table.share()?, numbers, rows))
    }

    // One of the batches, counted from 0 among them.
    pub(crate) fn batch(&self, index: usize) -> &Batch
        requires { index < length self.now.batches }
        ensures batch { slice_get self.now.batches index ≡ Some result.now }
        ensures filled { 0 < result.now.rows }
        ensures typed { AreOfTypes self.now.schema.fields result.now.columns }
        ensures wide { length result.now.columns ≡ length self.now.schema.fields }
    {
        self.table.batch(self.numbers[index])
    }
}

/// Each table with the batches of its list alone.
///
/// # Errors
///
/// `AllocError` where memory is refused.
pub fn opened_tables(
    alloc: Global,
    tables: &[TableVersion],
    lists: Vec<OpenedList>,
) -> Result<Vec<OpenedTable>, AllocError>
    requires { CanAll tables.now lists.items }
    ensures { IfOk result (λ opened. opened.items
        ≡ narrow_all (map (λ list. list.numbers.items) lists.items) tables.now) }
{
    let mut opened = Vec::new(alloc);
    for list in lists {
        let table = tables[opened.len()].share()?;
        opened.push(OpenedTable::new(table, list.numbers, list.rows))?;
    }
    Ok(opened)
}
