//! Which columns of a table a plan reads and gives.

ghost use Rattle.std.specs.Prelude.{◌≡◌, ◌≤◌, ◌<◌, All, IfOk, IsTrue, length};
ghost use Rattle.std.specs.List.{range_with_len};
ghost use Rattle.typed_plan.specs.TypedPlans.{has_columns};
ghost use Rattle.batch_skipping.specs.ChosenColumns.{are_within};
ghost use Rattle.row_sources.specs.ChosenColumns.{numbers_at};
ghost use Rattle.row_sources.specs.Picking.{rows_of_part};
ghost use Rattle.row_sources.specs.PickedRows.{HasRowsAt};

use crate::batch_slice::BatchSlice;
use array_select::{Selection, gather};
use arrays::Batch;
use std::alloc::{AllocError, Global};
use typed_plan::Columns;

// The numbers from 0 up to, not with, `count`.
pub(crate) fn numbers_below(alloc: Global, count: usize) -> Result<Vec<usize>, AllocError>
    ensures { IfOk result (λ numbers. numbers.items ≡ range_with_len 0 count) }
{
    let mut numbers = Vec::with_capacity(alloc, count)?;
    for number in 0..count {
        numbers.push(number)?;
    }
    Ok(numbers)
}

// The numbers that stand at these places.
pub(crate) fn picked(
    alloc: Global,
    columns: &Columns,
    numbers: &[usize],
) -> Result<Vec<usize>, AllocError>
    requires { IsTrue (has_columns (length numbers.now) columns.now) }
    ensures { IfOk result (λ picked. picked.items ≡ numbers_at columns.now numbers.now) }
{
    let mut picked = Vec::new(alloc);
    match columns {
        Columns::All => picked.extend_from_slice(numbers)?,
        Columns::These(places) => {
            for place in places.as_slice() {
                picked.push(numbers[*place])?;
            }
        }
    }
    Ok(picked)
}

// These columns of the rows of a part of a batch, over the same buffers: no value is copied.
pub(crate) fn slice_of(
    alloc: Global,
    part: &BatchSlice<'_>,
    numbers: &[usize],
) -> Result<Batch, AllocError>
    requires there { IsTrue (are_within (length part.now.batch.now.columns) numbers.now) }
    requires ordered { part.now.from ≤ part.now.to }
    requires within { part.now.to ≤ part.now.batch.now.rows }
    ensures { IfOk result
        (λ slice. HasRowsAt (rows_of_part part.now) numbers.now part.now.batch.now slice) }
{
    let columns = part.batch.columns();
    let mut slices = Vec::with_capacity(alloc, numbers.len())?;
    for number in numbers {
        slices.push(columns[*number].slice(part.from, part.to)?)?;
    }
    Ok(Batch::new(slices, part.to - part.from))
}

// These columns of the rows of a batch that are selected, in buffers of their own.
pub(crate) fn gather_of(
    alloc: Global,
    batch: &Batch,
    selection: &Selection,
    numbers: &[usize],
) -> Result<Batch, AllocError>
    requires there { IsTrue (are_within (length batch.now.columns) numbers.now) }
    requires within { All (λ row. row < batch.now.rows) selection.now }
    ensures { IfOk result (λ gathered. HasRowsAt selection.now numbers.now batch.now gathered) }
{
    let columns = batch.columns();
    let mut gathered = Vec::with_capacity(alloc, numbers.len())?;
    for number in numbers {
        gathered.push(gather(alloc, &columns[*number], selection)?)?;
    }
    Ok(Batch::new(gathered, selection.len()))
}
