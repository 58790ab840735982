//! What a row costs that predicates look at.

ghost use Rattle.std.specs.Prelude.{◌≡◌, ◌-◌, ◌^◌, min};
ghost use Rattle.scan_base.specs.View.{pred_of};
ghost use Rattle.work_watch.specs.Weight.{comparisons};

use scan_base::Predicate;

/// How many comparisons a predicate makes for each row at most, and `usize::MAX` if these are more.
pub fn comparisons_in(predicate: &Predicate<usize>) -> usize
    ensures { result ≡ min (comparisons (pred_of predicate.now)) (2 ^ 64 - 1) }
{
    match predicate {
        Predicate::And(left, right) => comparisons_in(left).saturating_add(comparisons_in(right)),
        Predicate::Or(left, right) => comparisons_in(left).saturating_add(comparisons_in(right)),
        Predicate::Not(part) => comparisons_in(part),
        Predicate::Is {
            negated: _,
            tested: _,
            predicate: part,
        } => comparisons_in(part),
        Predicate::Compare {
            comparison: _,
            left: _,
            right: _,
        } => 1,
        Predicate::Between {
            negated: _,
            operand: _,
            low: _,
            high: _,
        } => 2,
        Predicate::In {
            negated: _,
            operand: _,
            items,
        } => items.len(),
        Predicate::IsNull {
            negated: _,
            operand: _,
        } => 1,
        Predicate::Constant(_) => 0,
    }
}
