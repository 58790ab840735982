//! All steps of a rewriting.

ghost use Rattle.std.specs.Prelude.{◌≡◌, IfOk, true};
ghost use Rattle.rewrite.specs.FoldedPredicates.{is_folded_tree};
ghost use Rattle.rewrite.specs.PrunedColumns.{IsPruned};
ghost use Rattle.rewrite.specs.PushedFilters.{is_pushed};
ghost use Rattle.rewrite.specs.SameRows.{StandsFor};
ghost use Rattle.typed_plan.specs.View.{plan_of, tree_of};

use crate::literals::fold;
use crate::pruning::prune;
use crate::pushdown::push_down;
use crate::single_keys::merge_keys;
use std::alloc::{AllocError, Global};
use typed_plan::TypedPlan;

/// The plan with each key of an ON once, its literals worked out, its filters as low as they may
/// stand, and scans that give those columns alone that something uses. It gives the same rows.
///
/// # Errors
///
/// `AllocError` where memory is refused.
pub fn rewrite(alloc: Global, plan: TypedPlan) -> Result<TypedPlan, AllocError>
    ensures same { IfOk result (λ made. StandsFor made plan) }
    ensures folded { IfOk result (λ made. is_folded_tree (tree_of made.plan) ≡ true) }
    ensures below { IfOk result (λ made. is_pushed (tree_of made.plan) ≡ true) }
    ensures pruned { IfOk result (λ made. IsPruned (plan_of made)) }
{
    let merged = merge_keys(alloc, plan)?;
    let folded = fold(merged);
    let pushed = push_down(alloc, folded)?;
    prune(alloc, pushed)
}
