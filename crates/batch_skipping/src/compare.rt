//! The possible truths of a comparison of two sides, and of IS NULL.

ghost use Rattle.std.specs.Prelude.{◌≡◌, is_some};
ghost use Rattle.std.specs.Ordering.{int_cmp};
ghost use Rattle.scan_base.specs.Comparison.{order_of, satisfies};
ghost use Rattle.scan_base.specs.Value.{value_of};
ghost use Rattle.batch_skipping.specs.PredicateTruths.{can_be_null, can_compare, equal_between};
ghost use Rattle.batch_skipping.specs.PredicateTruths.{is_one_value};
ghost use Rattle.batch_skipping.specs.PredicateTruths.{less_between, of_sides};
ghost use Rattle.batch_stats.specs.Sides.{ends_at, side_at};
ghost use Rattle.batch_stats.specs.Stats.{stand};

use crate::possible_truths::PossibleTruths;
use batch_stats::{Ends, Side};
use scan_base::{Comparison, Truth, ValueRef};

// Whether two values have an order: those of one class have one. No text is looked at.
fn have_order(left: &ValueRef<'_>, right: &ValueRef<'_>) -> bool
    ensures { result ≡ is_some (order_of (value_of left.now) (value_of right.now)) }
{
    match (left, right) {
        (ValueRef::Bool(_), ValueRef::Bool(_)) => true,
        (ValueRef::Int(_), ValueRef::Int(_)) => true,
        (ValueRef::Text(_), ValueRef::Text(_)) => true,
        (_, _) => false,
    }
}

// Whether a comparison of two numbers is true.
fn numbers_stand(comparison: Comparison, left: i128, right: i128) -> bool
    ensures { result ≡ satisfies comparison (int_cmp left right) }
{
    match comparison {
        Comparison::Equal => left == right,
        Comparison::NotEqual => left != right,
        Comparison::Less => left < right,
        Comparison::LessOrEqual => left <= right,
        Comparison::Greater => left > right,
        Comparison::GreaterOrEqual => left >= right,
    }
}

// Whether a comparison of two values is true.
#[inline(never)]
fn values_stand(comparison: Comparison, left: &ValueRef<'_>, right: &ValueRef<'_>) -> bool
    ensures { result ≡ stand comparison (value_of left.now) (value_of right.now) }
{
    left.compare(comparison, *right) == Truth::True
}

// The same. Most values are numbers, which are compared without a call; so this function is small,
// and where the comparison is known nothing is left of it but two numbers.
fn stand(comparison: Comparison, left: &ValueRef<'_>, right: &ValueRef<'_>) -> bool
    ensures { result ≡ stand comparison (value_of left.now) (value_of right.now) }
{
    if let (ValueRef::Int(left), ValueRef::Int(right)) = (left, right) {
        return numbers_stand(comparison, *left, *right);
    }
    values_stand(comparison, left, right)
}

// Whether all values between these ends are one value. Mostly the least ones differ, so they are
// looked at first.
fn are_one_value(left: &Ends<'_>, right: &Ends<'_>) -> bool
    ensures { result ≡ is_one_value (ends_at left.now) (ends_at right.now) }
{
    if !stand(Comparison::Equal, &left.least, &right.least) {
        return false;
    }
    stand(Comparison::Equal, &left.least, &left.greatest)
        && stand(Comparison::Equal, &right.least, &right.greatest)
}

// Whether `=` can be true, and false, of values between these ends.
fn equal_between(left: &Ends<'_>, right: &Ends<'_>) -> (bool, bool)
    ensures { result ≡ equal_between (ends_at left.now) (ends_at right.now) }
{
    let can_true = stand(Comparison::LessOrEqual, &left.least, &right.greatest)
        && stand(Comparison::LessOrEqual, &right.least, &left.greatest);
    (can_true, !are_one_value(left, right))
}

// Whether `<` can be true, and false, of values between these ends.
fn less_between(left: &Ends<'_>, right: &Ends<'_>) -> (bool, bool)
    ensures { result ≡ less_between (ends_at left.now) (ends_at right.now) }
{
    (
        stand(Comparison::Less, &left.least, &right.greatest),
        stand(Comparison::GreaterOrEqual, &left.greatest, &right.least),
    )
}

// The possible truths of `=`.
fn can_be_equal(left: &Side<'_>, right: &Side<'_>) -> PossibleTruths
    ensures { result ≡ of_sides equal_between (side_at left.now) (side_at right.now) }
{
    let can_unknown = left.nulls > 0 || right.nulls > 0;
    match (&left.ends, &right.ends) {
        (Some(a), Some(b)) if have_order(&a.least, &b.least) => {
            let (can_true, can_false) = equal_between(a, b);
            PossibleTruths {
                can_true,
                can_false,
                can_unknown,
            }
        }
        (_, _) => PossibleTruths::only(Truth::Unknown),
    }
}

// The possible truths of `<`.
fn can_be_less(left: &Side<'_>, right: &Side<'_>) -> PossibleTruths
    ensures { result ≡ of_sides less_between (side_at left.now) (side_at right.now) }
{
    let can_unknown = left.nulls > 0 || right.nulls > 0;
    match (&left.ends, &right.ends) {
        (Some(a), Some(b)) if have_order(&a.least, &b.least) => {
            let (can_true, can_false) = less_between(a, b);
            PossibleTruths {
                can_true,
                can_false,
                can_unknown,
            }
        }
        (_, _) => PossibleTruths::only(Truth::Unknown),
    }
}

// The possible truths of a comparison of a value of the one side with a value of the other.
#[tactic(auto, unfolding(crate::specs::PredicateTruths::can_compare))]
pub(crate) fn can_compare(
    comparison: Comparison,
    left: &Side<'_>,
    right: &Side<'_>,
) -> PossibleTruths
    ensures { result ≡ can_compare comparison (side_at left.now) (side_at right.now) }
{
    match comparison {
        Comparison::Equal => can_be_equal(left, right),
        Comparison::NotEqual => can_be_equal(left, right).not(),
        Comparison::Less => can_be_less(left, right),
        Comparison::Greater => can_be_less(right, left),
        Comparison::LessOrEqual => can_be_less(right, left).not(),
        Comparison::GreaterOrEqual => can_be_less(left, right).not(),
    }
}

// The possible truths of IS NULL of a value of a side.
pub(crate) fn can_be_null(side: &Side<'_>) -> PossibleTruths
    ensures { result ≡ can_be_null (side_at side.now) }
{
    PossibleTruths {
        can_true: side.nulls > 0,
        can_false: side.ends.is_some(),
        can_unknown: false,
    }
}
