//! Columns that nothing uses.

ghost use Rattle.std.specs.Prelude.{◌≡◌, IfOk, OnOk, length};
ghost use Rattle.std.specs.List.{range_with_len};
ghost use Rattle.rewrite.specs.FoldedPredicates.{is_folded_tree};
ghost use Rattle.rewrite.specs.PrunedColumns.{AreUsed, IsPruned, used_of, numbers_of, pruned};
ghost use Rattle.rewrite.specs.PushedFilters.{is_pushed};
ghost use Rattle.rewrite.specs.SameRows.{StandsFor};
ghost use Rattle.typed_plan.specs.View.{plan_of, tree_of};

use crate::numbers::renumber;
use crate::used_columns::uses_of;
use crate::used_numbers::UsedNumbers;
use crate::widths::width;
use scan_base::Items;
use std::alloc::{AllocError, Global};
use typed_plan::{Columns, Plan, TypedPlan};

// The numbers from 0 up to, not with, `count`.
fn numbers_below(alloc: Global, count: usize) -> Result<Vec<usize>, AllocError>
    ensures { IfOk result (λ numbers. numbers.items ≡ range_with_len 0 count) }
{
    let mut numbers = Vec::with_capacity(alloc, count)?;
    for number in 0..count {
        numbers.push(number)?;
    }
    Ok(numbers)
}

// Those of some numbers that are used.
fn kept_numbers(alloc: Global, uses: &[bool], numbers: &[usize]) -> Result<Vec<usize>, AllocError>
    requires { length numbers.now ≡ length uses.now }
    ensures { IfOk result (λ made. made.items ≡ used_of uses.now numbers.now) }
{
    let mut made = Vec::new(alloc);
    for (place, number) in numbers.iter().enumerate() {
        if uses[place] {
            made.push(*number)?;
        }
    }
    Ok(made)
}

// The numbers of the used columns of a scan of a table that has so many.
fn kept_columns(
    alloc: Global,
    uses: &[bool],
    columns: &Columns,
    width: usize,
) -> Result<Vec<usize>, AllocError>
    requires { length (numbers_of columns.now width) ≡ length uses.now }
    ensures { IfOk result (λ made. made.items ≡ used_of uses.now (numbers_of columns.now width)) }
{
    match columns {
        Columns::All => {
            let numbers = numbers_below(alloc, width)?;
            kept_numbers(alloc, uses, numbers.as_slice())
        }
        Columns::These(numbers) => kept_numbers(alloc, uses, numbers.as_slice()),
    }
}

// Leaves in the scans of a tree the used ones of its columns, and gives each filter and ON their
// new numbers.
fn prune_tree(alloc: Global, plan: &mut Plan, uses: &[bool]) -> Result<(), AllocError>
    requires { AreUsed uses.now (tree_of plan.old) }
    ensures { OnOk result (tree_of plan.new ≡ pruned uses.now (tree_of plan.old)) }
{
    match plan {
        Plan::Scan {
            table: _,
            schema,
            columns,
        } => {
            let numbers = kept_columns(alloc, uses, columns, schema.fields.len())?;
            *columns = Columns::These(Items::from(numbers));
            Ok(())
        }
        Plan::Filter { predicate, input } => {
            renumber(alloc, predicate, &UsedNumbers::of(alloc, uses)?);
            prune_tree(alloc, input, uses)
        }
        Plan::Join { left, right, on } => {
            let keys = UsedNumbers::of(alloc, uses)?.keys(alloc, on.as_slice())?;
            *on = keys;
            let (left_uses, right_uses) = uses.split_at(width(left)?);
            prune_tree(alloc, left, left_uses)?;
            prune_tree(alloc, right, right_uses)
        }
    }
}

/// The plan without the columns that nothing uses: its scans give those columns alone that a
/// filter, an ON or the result names. It gives the same rows, and each filter stands where it
/// stood.
///
/// # Errors
///
/// `AllocError` where memory is refused.
pub fn prune(alloc: Global, plan: TypedPlan) -> Result<TypedPlan, AllocError>
    ensures same { IfOk result (λ made. StandsFor made plan) }
    ensures pruned { IfOk result (λ made. IsPruned (plan_of made)) }
    ensures folded { IfOk result
        (λ made. is_folded_tree (tree_of made.plan) ≡ is_folded_tree (tree_of plan.plan)) }
    ensures below { IfOk result
        (λ made. is_pushed (tree_of made.plan) ≡ is_pushed (tree_of plan.plan)) }
{
    let (tables, mut plan, output, schema) = plan.into_parts();
    let uses = uses_of(alloc, &plan, &output)?;
    prune_tree(alloc, &mut plan, uses.as_slice())?;
    let among = UsedNumbers::of(alloc, uses.as_slice())?;
    let renumbered = among.output(alloc, &output)?;
    Ok(TypedPlan::new(tables, plan, renumbered, schema))
}
