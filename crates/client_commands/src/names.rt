//! The names of tables, in the rows that list them.

ghost use Rattle.std.specs.Prelude.{◌<◌, All};
ghost use Rattle.scan_base.specs.Reading.{GivesUnlessMemory};
ghost use Rattle.arrays.specs.Batch.{row_of, rows_of};
ghost use Rattle.client_commands.specs.Names.{name_in, names_listed};
ghost use Rattle.client_commands.specs.inside.Naming.{AddsNames};

use arrays::{Batch, Cells, Column};
use flight_client::Rows;
use scan_base::{Fault, Text, ValueRef};
use std::alloc::{AllocError, Global};

/// The names of the tables that rows list.
///
/// # Errors
///
/// - `Fault::BadBatch` (F8) where a row has no text in its third cell.
/// - `Fault::OutOfMemory` (F21) where memory is refused.
pub(crate) fn names_of(alloc: Global, rows: &Rows) -> Result<Vec<Text>, Fault>
    ensures { GivesUnlessMemory (λ names. names.items) result (names_listed rows.now) }
{
    let mut names = Vec::new(alloc);
    let batches = rows.batches();
    for batch in batches {
        append_names(alloc, &mut names, batch)?;
    }
    Ok(names)
}

// Appends the names that the rows of a batch have.
fn append_names(alloc: Global, names: &mut Vec<Text>, batch: &Batch) -> Result<(), Fault>
    ensures { AddsNames result names.old.items names.new.items (rows_of batch.now) }
{
    for place in 0..batch.rows() {
        let name = name_at(alloc, batch.columns(), place)?;
        names.push(name).map_err(|_| AllocError)?;
    }
    Ok(())
}

// The name that a row has.
fn name_at(alloc: Global, columns: &[Column], place: usize) -> Result<Text, Fault>
    requires { All (λ column. place < column.len) columns.now }
    ensures { GivesUnlessMemory (λ name. name) result (name_in (row_of columns.now place)) }
{
    let [_, _, names, ..] = columns else {
        return Err(Fault::BadBatch);
    };
    match names.value_at(place) {
        ValueRef::Text(name) => Ok(Text::new(alloc, name)?),
        _ => Err(Fault::BadBatch),
    }
}
