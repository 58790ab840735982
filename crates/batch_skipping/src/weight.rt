//! As how many rows the judging of batches counts.

ghost use Rattle.std.specs.Prelude.{◌≤◌};

use typed_plan::{Plan, TypedPlan};
use work_watch::comparisons_in;
use work_watch::pace::JUDGED_ROWS;

// As how many rows a batch counts in which so many comparisons are judged: one at least.
pub(crate) fn batch_weight(comparisons: usize) -> usize
    ensures { 1 ≤ result }
{
    comparisons.saturating_mul(JUDGED_ROWS).max(1)
}

/// As how many rows the judging of all batches of a plan's places counts at most
/// ([`opened_lists`](crate::opened_lists)). It takes no memory, and the time of a walk over WHERE.
/// Contracts say nothing of it: it tells whether the judging may take long.
pub fn judging_rows(plan: &TypedPlan) -> usize {
    let mut batches = 0usize;
    for table in plan.tables() {
        batches = batches.saturating_add(table.batch_count());
    }
    batches.saturating_mul(batch_weight(where_comparisons(plan.plan())))
}

// How many comparisons the outermost filters make.
fn where_comparisons(plan: &Plan) -> usize {
    match plan {
        Plan::Filter { predicate, input } => {
            comparisons_in(predicate).saturating_add(where_comparisons(input))
        }
        _ => 0,
    }
}
