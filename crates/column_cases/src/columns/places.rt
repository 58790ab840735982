//! Which rows are gathered.

ghost use Rattle.std.specs.Prelude.{◌<◌, All, IfOk};

use anyhow::{Result, bail};
use array_select::{Selection, gather};
use arrays::Batch;
use std::alloc::Global;

/// Every `step`-th row of a batch, from its first on, in buffers of their own.
pub fn gather_every(alloc: Global, batch: &Batch, step: usize) -> Result<Batch> {
    let places = multiples(alloc, batch.rows(), step)?;
    let rows = places.len();
    let mut columns = Vec::with_capacity(alloc, batch.columns().len())?;
    for column in batch.columns() {
        columns.push(gather(alloc, column, &places)?)?;
    }
    Ok(Batch::new(columns, rows))
}

// The multiples of a step below `end`, from 0 on.
fn multiples(alloc: Global, end: usize, step: usize) -> Result<Selection>
    ensures { IfOk result (λ places. All (λ place. place < end) places) }
{
    let end = u32::try_from(end)?;
    let step = u32::try_from(step)?;
    if step == 0 {
        bail!("no step");
    }
    let mut places = Selection::new(alloc);
    for place in 0..end {
        if place % step == 0 {
            places.push(place)?;
        }
    }
    Ok(places)
}
