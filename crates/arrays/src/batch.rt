//! Columns side by side.

ghost use Rattle.std.specs.Prelude.{◌≡◌, ◌≤◌, ◌-◌, map, IfOk};
ghost use Rattle.arrays.specs.Batch.{AreLong, cut_batch};
ghost use Rattle.arrays.specs.Column.{cut};

use crate::column::Column;
use std::alloc::{AllocError, Global};
use std::marker::Model;

/// A number of rows, and a column of that many slots for each field; there may be no column. A
/// contract sees the columns' layouts.
#[derive(Drop)]
pub struct Batch {
    columns: Vec<Column>,
    rows: usize,
}

impl Model for Batch {
    ghost use Rattle.arrays.specs.Batch.{BatchAt, AreLong};

    ghost Value = { BatchAt };

    ghost view = { λ b. record { columns = b.columns.items; rows = b.rows } };

    ghost invariant = { λ b. AreLong b.rows b.columns.items };
}

impl Batch {
    /// A batch of these columns, each of `rows` slots.
    pub fn new(columns: Vec<Column>, rows: usize) -> Batch
        requires { AreLong rows columns.items }
        ensures { result ≡ record { columns = columns.items; rows = rows } }
    {
        Batch { columns, rows }
    }

    /// How many rows there are.
    pub fn rows(&self) -> usize
        ensures { result ≡ self.now.rows }
    {
        self.rows
    }

    /// The columns, in order.
    pub fn columns(&self) -> &[Column]
        ensures columns { result.now ≡ self.now.columns }
        ensures long { AreLong self.now.rows result.now }
    {
        self.columns.as_slice()
    }

    /// The rows `from` up to, not with, `to`, over the same buffers: no value is copied.
    pub fn slice(&self, alloc: Global, from: usize, to: usize) -> Result<Batch, AllocError>
        requires ordered { from ≤ to }
        requires within { to ≤ self.now.rows }
        ensures { IfOk result (λ batch. batch ≡ cut_batch self.now from to) }
    {
        let columns = slices(alloc, self.columns.as_slice(), self.rows, from, to)?;
        Ok(Batch {
            columns,
            rows: to - from,
        })
    }
}

// The same slots of each column.
fn slices(
    alloc: Global,
    columns: &[Column],
    rows: usize,
    from: usize,
    to: usize,
) -> Result<Vec<Column>, AllocError>
    requires long { AreLong rows columns.now }
    requires ordered { from ≤ to }
    requires within { to ≤ rows }
    ensures cut { IfOk result
        (λ cuts. cuts.items ≡ map (λ column. cut column from to) columns.now) }
    ensures long { IfOk result (λ cuts. AreLong (to - from) cuts.items) }
{
    let mut cuts = Vec::with_capacity(alloc, columns.len())?;
    for column in columns {
        cuts.push(column.slice(from, to)?)?;
    }
    Ok(cuts)
}
