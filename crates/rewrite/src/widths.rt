//! How many columns a tree gives.

ghost use Rattle.std.specs.Prelude.{◌≡◌, IfOk};
ghost use Rattle.rewrite.specs.Places.{tree_width};
ghost use Rattle.typed_plan.specs.View.{tree_of};

use std::alloc::AllocError;
use typed_plan::{Columns, Plan};

// How many columns a tree gives. More than can be counted take more memory than there is.
pub(crate) fn width(plan: &Plan) -> Result<usize, AllocError>
    ensures { IfOk result (λ width. width ≡ tree_width (tree_of plan.now)) }
{
    match plan {
        Plan::Scan {
            table: _,
            schema,
            columns,
        } => match columns {
            Columns::All => Ok(schema.fields.len()),
            Columns::These(numbers) => Ok(numbers.len()),
        },
        Plan::Filter {
            predicate: _,
            input,
        } => width(input),
        Plan::Join { left, right, on: _ } => {
            let left = width(left)?;
            let right = width(right)?;
            left.checked_add(right).ok_or(AllocError)
        }
    }
}
