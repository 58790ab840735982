//! Filters below joins.

ghost use Rattle.std.specs.Prelude.{◌≡◌, [], ◌++◌, IfOk, true, map};
ghost use Rattle.std.specs.List.{filter};
ghost use Rattle.scan_base.specs.View.{pred_of};
ghost use Rattle.rewrite.specs.Conjuncts.{parts_of};
ghost use Rattle.rewrite.specs.PushedFilters.{above, is_behind, is_both, is_left, is_pushed};
ghost use Rattle.rewrite.specs.PushedFilters.{is_right};
ghost use Rattle.rewrite.specs.PushedFilters.{moved, pushed};
ghost use Rattle.rewrite.specs.SameRows.{StandsFor};
ghost use Rattle.typed_plan.specs.Plan.{joined as joined_trees};
ghost use Rattle.typed_plan.specs.View.{tree_of};

use crate::columns::{AfterSeam, BeforeSeam, names_only};
use crate::filter_parts::{all_of, parts_of};
use crate::numbers::{FromSeam, renumber};
use crate::widths::width;
use scan_base::{Items, Predicate};
use std::alloc::{AllocError, Global};
use typed_plan::{JoinKey, Plan, TypedPlan};

// Parts of filters over the rows of a join, by where their columns are. Those of the right count
// them from its first.
#[derive(Drop)]
struct SideFilters {
    left: Vec<Predicate<usize>>,
    right: Vec<Predicate<usize>>,
    both: Vec<Predicate<usize>>,
}

// The parts of a join whose left has so many columns, each on its side.
fn split(
    alloc: Global,
    parts: Vec<Predicate<usize>>,
    seam: usize,
) -> Result<SideFilters, AllocError>
    ensures left { IfOk result
        (λ sides. map pred_of sides.left.items ≡ filter (is_left seam) (map pred_of parts.items)) }
    ensures right { IfOk result (λ sides. map pred_of sides.right.items
        ≡ map (moved seam) (filter (is_right seam) (map pred_of parts.items))) }
    ensures both { IfOk result
        (λ sides. map pred_of sides.both.items ≡ filter (is_both seam) (map pred_of parts.items)) }
{
    let mut left = Vec::new(alloc);
    let mut right = Vec::new(alloc);
    let mut both = Vec::new(alloc);
    for part in parts {
        if names_only(&part, &BeforeSeam { seam }) {
            left.push(part)?;
        } else if names_only(&part, &AfterSeam { seam }) {
            right.push(counted_from(alloc, part, seam))?;
        } else {
            both.push(part)?;
        }
    }
    Ok(SideFilters { left, right, both })
}

// A predicate whose columns are all after a seam, counted from it.
fn counted_from(alloc: Global, predicate: Predicate<usize>, seam: usize) -> Predicate<usize>
    requires { is_behind seam (pred_of predicate) ≡ true }
    ensures { pred_of result ≡ moved seam (pred_of predicate) }
{
    let mut counted = predicate;
    renumber(alloc, &mut counted, &FromSeam { seam });
    counted
}

// A tree below one filter of these parts, in their order.
fn above(alloc: Global, parts: Vec<Predicate<usize>>, plan: Plan) -> Result<Plan, AllocError>
    ensures { IfOk result
        (λ filtered. tree_of filtered ≡ above (map pred_of parts.items) (tree_of plan)) }
{
    if parts.is_empty() {
        return Ok(plan);
    }
    let mut rest = parts;
    let first = rest.remove(0);
    let predicate = all_of(alloc, first, rest)?;
    let input = Box::new(alloc, plan).map_err(|_| AllocError)?;
    Ok(Plan::Filter { predicate, input })
}

// The join of two trees.
fn joined(alloc: Global, left: Plan, right: Plan, on: Items<JoinKey>) -> Result<Plan, AllocError>
    ensures { IfOk result (λ plan. tree_of plan ≡ joined_trees (tree_of left) (tree_of right) on) }
{
    let left = Box::new(alloc, left).map_err(|_| AllocError)?;
    let right = Box::new(alloc, right).map_err(|_| AllocError)?;
    Ok(Plan::Join { left, right, on })
}

// The parts of a filter, and these after them.
fn with_parts(
    alloc: Global,
    predicate: Predicate<usize>,
    parts: Vec<Predicate<usize>>,
) -> Result<Vec<Predicate<usize>>, AllocError>
    ensures { IfOk result
        (λ all. map pred_of all.items ≡ parts_of (pred_of predicate) ++ map pred_of parts.items) }
{
    let mut all = parts_of(alloc, predicate)?;
    for part in parts {
        all.push(part)?;
    }
    Ok(all)
}

// A tree below these parts of filters, each of which stands as low as it may.
fn push(alloc: Global, parts: Vec<Predicate<usize>>, plan: Plan) -> Result<Plan, AllocError>
    ensures { IfOk result (λ made. tree_of made ≡ pushed (map pred_of parts.items) (tree_of plan)) }
{
    match plan {
        Plan::Scan {
            table,
            schema,
            columns,
        } => above(
            alloc,
            parts,
            Plan::Scan {
                table,
                schema,
                columns,
            },
        ),
        Plan::Filter { predicate, input } => {
            let parts = with_parts(alloc, predicate, parts)?;
            push(alloc, parts, Box::into_inner(input))
        }
        Plan::Join { left, right, on } => {
            let seam = width(&left)?;
            let sides = split(alloc, parts, seam)?;
            let left = push(alloc, sides.left, Box::into_inner(left))?;
            let right = push(alloc, sides.right, Box::into_inner(right))?;
            let plan = joined(alloc, left, right, on)?;
            above(alloc, sides.both, plan)
        }
    }
}

/// The plan with each filter as low as it may stand: of the parts that its outermost ANDs join,
/// each that names columns of one place alone stands at that place, and none is the constant TRUE.
/// It gives the same rows.
///
/// # Errors
///
/// `AllocError` where memory is refused.
pub fn push_down(alloc: Global, plan: TypedPlan) -> Result<TypedPlan, AllocError>
    ensures same { IfOk result (λ made. StandsFor made plan) }
    ensures tree { IfOk result (λ made. tree_of made.plan ≡ pushed [] (tree_of plan.plan)) }
    ensures below { IfOk result (λ made. is_pushed (tree_of made.plan) ≡ true) }
{
    let (tables, plan, output, schema) = plan.into_parts();
    let plan = push(alloc, Vec::new(alloc), plan)?;
    Ok(TypedPlan::new(tables, plan, output, schema))
}
