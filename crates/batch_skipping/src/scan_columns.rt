//! The columns that the scans of a plan give.

ghost use Rattle.std.specs.Prelude.{◌≡◌, ◌++◌, IfOk, OnOk, map};
ghost use Rattle.typed_plan.specs.View.{tree_of};
ghost use Rattle.batch_skipping.specs.OpenedBatches.{given_width, scans_of};

use std::alloc::{AllocError, Global};
use typed_plan::{Columns, Plan};

// The columns that the scan of each place gives, place by place.
pub(crate) fn scans_of(alloc: Global, plan: &Plan) -> Result<Vec<&Columns>, AllocError>
    ensures { IfOk result
        (λ scans. map (λ columns. columns.now) scans.items ≡ scans_of (tree_of plan.now)) }
{
    let mut scans = Vec::new(alloc);
    push_scans(&mut scans, plan)?;
    Ok(scans)
}

// Puts the columns that scans give after others.
fn push_scans<'a>(scans: &mut Vec<&'a Columns>, plan: &'a Plan) -> Result<(), AllocError>
    ensures { OnOk result (map (λ columns. columns.now) scans.new.items
        ≡ map (λ columns. columns.now) scans.old.items ++ scans_of (tree_of plan.now)) }
{
    match plan {
        Plan::Scan { columns, .. } => Ok(scans.push(columns)?),
        Plan::Filter { input, .. } => push_scans(scans, input),
        Plan::Join { left, right, .. } => {
            push_scans(scans, left)?;
            push_scans(scans, right)
        }
    }
}

// How many of so many columns a scan gives.
pub(crate) fn given_width(columns: &Columns, width: usize) -> usize
    ensures { result ≡ given_width columns.now width }
{
    match columns {
        Columns::All => width,
        Columns::These(numbers) => numbers.len(),
    }
}
