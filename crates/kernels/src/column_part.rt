//! Slots of a column that a kernel looks at.

ghost use Rattle.std.specs.Prelude.{◌≡◌, ◌≤◌, ◌<◌, ◌+◌, ℕ, length};
ghost use Rattle.scan_base.specs.Predicate.{cell_in};
ghost use Rattle.arrays.specs.Column.{slot_of};
ghost use Rattle.kernels.specs.Parts.{IsPart, AreRows};
ghost use Rattle.kernels.specs.Rows.{read_cells};

use crate::walk::PredicateColumns;
use arrays::{Cells, Column};

/// `len` slots of a column from `from` on.
#[derive(Clone, Copy, Drop)]
pub struct ColumnPart<'a> {
    pub column: &'a Column,
    pub from: usize,
    pub len: usize,
}

/// `len` rows of columns from `from` on.
#[derive(Clone, Copy, Drop)]
pub(crate) struct RowRange<'a> {
    pub(crate) columns: PredicateColumns<'a>,
    pub(crate) from: usize,
    pub(crate) len: usize,
}

impl<'a> RowRange<'a> {
    // The slots of a column in these rows, by the number under which it is read.
    pub(crate) fn part(&self, number: usize) -> ColumnPart<'a>
        requires there { AreRows self.now }
        requires column { number < length self.now.columns.read.now }
        ensures part { IsPart result }
        ensures from { result.from ≡ self.now.from }
        ensures len { result.len ≡ self.now.len }
        ensures cells { (row : ℕ) →
            slot_of result.column.now row
            ≡ cell_in
            (read_cells self.now.columns.columns.now self.now.columns.read.now row) number }
    {
        let all = self.columns.columns;
        let read = self.columns.read;
        let column = &all[read[number]];
        let _len = column.len();
        ColumnPart {
            column,
            from: self.from,
            len: self.len,
        }
    }
}
