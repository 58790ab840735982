//! The values of columns, row by row.

ghost use Rattle.std.specs.Prelude.{◌≡◌, ◌<◌, ℕ};
ghost use Rattle.scan_base.specs.Value.{value_of};
ghost use Rattle.arrays.specs.Column.{ColumnAt, slot_of};

use arrays::{Cells, Column};
use scan_base::ValueRef;

/// A column, whose values are read row by row.
pub(crate) trait RowValues {
    /// The column.
    ghost column: { Self → ColumnAt };

    /// The value of a row.
    fn value_in(&self, row: usize) -> ValueRef<'_>
        requires { row < (column self.now).len }
        ensures { value_of result ≡ slot_of (column self.now) row };
}

/// A column of any layout.
#[derive(Clone, Copy, Drop)]
pub(crate) struct AnyColumn<'a> {
    pub(crate) column: &'a Column,
}

impl<'a> RowValues for AnyColumn<'a> {
    ghost column = { λ s. s.column.now };

    fn value_in(&self, row: usize) -> ValueRef<'_> {
        self.column.value_at(row)
    }
}
