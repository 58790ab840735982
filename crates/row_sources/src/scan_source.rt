//! What gives columns of the rows of a table.

ghost use Rattle.std.specs.Prelude.{◌≡◌, ◌≤◌, [], ◌∷◌, IfOk, IsTrue, length, map};
ghost use Rattle.std.specs.List.{flat_map, range_with_len};
ghost use Rattle.arrays.specs.Batch.{rows_of};
ghost use Rattle.table_versions.specs.Table.{Name};
ghost use Rattle.typed_plan.specs.Plan.{scan};
ghost use Rattle.typed_plan.specs.TypedPlans.{has_columns, type_at, types_of};
ghost use Rattle.row_sources.specs.BegunRows.{IsBegun};
ghost use Rattle.row_sources.specs.FilteredSource.{IsFilteredSource, filtered_source_at};
ghost use Rattle.batch_skipping.specs.ChosenColumns.{are_within};
ghost use Rattle.row_sources.specs.JoinedRows.{source_at};
ghost use Rattle.batch_skipping.specs.Narrow.{BeginsInFirst};
ghost use Rattle.batch_skipping.specs.OpenedBatches.{batches_in};

use crate::build::FilteredSource;
use crate::columns::{numbers_below, picked};
use crate::cursor::Cursor;
use crate::opened_table::OpenedTable;
use crate::place::PlaceRows;
use crate::row_source::ReadRange;
use crate::rows::Source;
use arrow_types::{DataType, Field};
use std::alloc::{AllocError, Global};
use typed_plan::Columns;

// What gives these columns of the rows of a table that are read.
pub(crate) fn scan_source(
    alloc: Global,
    columns: &Columns,
    table: OpenedTable,
    reading: ReadRange,
) -> Result<FilteredSource, AllocError>
    requires there { IsTrue (has_columns (length table.schema.fields) columns.now) }
    requires first { BeginsInFirst reading.from table.batches }
    requires each { batches_in reading.from reading.to table.batches
        ≡ range_with_len 0 (length table.batches) }
    ensures sourced { IfOk result IsFilteredSource }
    ensures begun { IfOk result (λ made. (name : Name) →
        IsBegun (scan name table.schema columns.now) (table ∷ []) reading.from reading.to
        (filtered_source_at made)) }
    ensures few { IfOk result
        (λ made. length (source_at made.source).ahead ≤ length (flat_map rows_of table.batches)) }
{
    let fields = table.schema().fields.as_slice();
    let numbers = numbers_below(alloc, fields.len())?;
    let columns = picked(alloc, columns, numbers.as_slice())?;
    let types = types_at(alloc, fields, columns.as_slice())?;
    let to = reading.to.min(table.rows()).max(reading.from);
    let cursor = Cursor::new(&table, reading.from, to);
    Ok(FilteredSource {
        source: Source::Place(PlaceRows { table, cursor }),
        filters: Vec::new(alloc),
        columns,
        types,
    })
}

// The types of the fields of these numbers.
fn types_at(alloc: Global, fields: &[Field], numbers: &[usize]) -> Result<Vec<DataType>, AllocError>
    requires { IsTrue (are_within (length fields.now) numbers.now) }
    ensures { IfOk result (λ types. types.items ≡ map (type_at (types_of fields.now)) numbers.now) }
{
    let mut types = Vec::with_capacity(alloc, numbers.len())?;
    for number in numbers {
        types.push(fields[*number].data_type)?;
    }
    Ok(types)
}
