//! The conjuncts of a plan's outermost filters.

ghost use Rattle.std.specs.Prelude.{◌≡◌, ◌++◌, IfOk, OnOk, map};
ghost use Rattle.scan_base.specs.View.{pred_of};
ghost use Rattle.rewrite.specs.Conjuncts.{conjuncts};
ghost use Rattle.typed_plan.specs.View.{tree_of};
ghost use Rattle.batch_skipping.specs.OpenedBatches.{where_parts};

use scan_base::Predicate;
use std::alloc::{AllocError, Global};
use typed_plan::Plan;

// The conjuncts of the outermost filters, in order.
pub(crate) fn where_parts(alloc: Global, plan: &Plan) -> Result<Vec<&Predicate<usize>>, AllocError>
    ensures { IfOk result
        (λ parts. map (λ part. pred_of part.now) parts.items ≡ where_parts (tree_of plan.now)) }
{
    let mut parts = Vec::new(alloc);
    push_where(alloc, &mut parts, plan)?;
    Ok(parts)
}

// Puts the conjuncts of the outermost filters after others.
fn push_where<'a>(
    alloc: Global,
    parts: &mut Vec<&'a Predicate<usize>>,
    plan: &'a Plan,
) -> Result<(), AllocError>
    ensures { OnOk result (map (λ part. pred_of part.now) parts.new.items
        ≡ map (λ part. pred_of part.now) parts.old.items ++ where_parts (tree_of plan.now)) }
{
    match plan {
        Plan::Filter { predicate, input } => {
            push_conjuncts(alloc, parts, predicate)?;
            push_where(alloc, parts, input)
        }
        _ => Ok(()),
    }
}

// Puts the conjuncts of a predicate after others. What is still to be taken apart waits: a query
// may be a chain of thousands of ANDs.
fn push_conjuncts<'a>(
    alloc: Global,
    parts: &mut Vec<&'a Predicate<usize>>,
    predicate: &'a Predicate<usize>,
) -> Result<(), AllocError>
    ensures { OnOk result (map (λ part. pred_of part.now) parts.new.items
        ≡ map (λ part. pred_of part.now) parts.old.items ++ conjuncts (pred_of predicate.now)) }
{
    let mut waiting = Vec::new(alloc);
    waiting.push(predicate)?;
    while let Some(next) = waiting.pop() {
        match next {
            Predicate::And(left, right) => {
                let (left, right): (&'a Predicate<usize>, &'a Predicate<usize>) = (left, right);
                waiting.push(right)?;
                waiting.push(left)?;
            }
            _ => parts.push(next)?,
        }
    }
    Ok(())
}
