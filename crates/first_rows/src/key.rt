//! Rows, and their keys.

ghost use Rattle.std.specs.Prelude.{◌≡◌, ◌<◌, IsTrue, length, nat_lt, get_or, map};
ghost use Rattle.std.specs.List.{list_all};
ghost use Rattle.scan_base.specs.Predicate.{cell_in};
ghost use Rattle.scan_base.specs.Value.{value_of};
ghost use Rattle.scan_base.specs.declared.value.Value.TheVariants.{Null};
ghost use Rattle.arrays.specs.Batch.{row_of};

use arrays::{Batch, Cells};
use scan_base::ValueRef;

/// A row, with the number of its batch, and the columns whose values in it are its key: no value is
/// copied.
#[derive(Clone, Copy, Drop)]
pub struct RowKey<'t> {
    pub number: usize,
    pub batch: &'t Batch,
    pub columns: &'t [usize],
    pub row: u32,
    ghost there: { IsTrue
        (list_all (λ column. nat_lt column (length batch.now.columns)) columns.now) },
    ghost within: { row < batch.now.rows },
}

impl<'t> RowKey<'t> {
    ghost use Rattle.first_rows.specs.RowKeys.{key_of};

    // The value at a place of the key.
    pub(crate) fn cell(&self, place: usize) -> ValueRef<'t>
        requires { place < length self.now.columns.now }
        ensures { value_of result ≡ get_or (key_of self.now) place Null }
    {
        cell_at(self.batch, self.columns, self.row, place)
    }
}

/// The value of a row at a place of some columns.
pub(crate) fn cell_at<'t>(
    batch: &'t Batch,
    columns: &[usize],
    row: u32,
    place: usize,
) -> ValueRef<'t>
    requires there { IsTrue
        (list_all (λ column. nat_lt column (length batch.now.columns)) columns.now) }
    requires within { row < batch.now.rows }
    requires place { place < length columns.now }
    ensures { value_of result
        ≡ get_or (map (cell_in (row_of batch.now.columns row)) columns.now) place Null }
{
    batch.columns()[columns[place]].value_at(row as usize)
}
