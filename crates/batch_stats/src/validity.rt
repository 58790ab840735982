//! The first valid slot.

ghost use Rattle.std.specs.Prelude.{◌≤◌, IfNone, IfSome};
ghost use Rattle.arrays.specs.Validity.{HasBits};
ghost use Rattle.batch_stats.specs.inside.Slots.{AreNulls, IsFirstValid};

use arrays::Validity;

/// The first valid one of the slots `from` up to, not with, `to`.
pub(crate) fn first_valid(validity: &Validity, from: usize, to: usize) -> Option<usize>
    requires ordered { from ≤ to }
    requires bits { HasBits validity.now to }
    ensures some { IfSome result (λ place. IsFirstValid validity.now from to place) }
    ensures none { IfNone result (AreNulls validity.now from to) }
{
    for place in from..to {
        if validity.is_valid(place) {
            return Some(place);
        }
    }
    None
}
