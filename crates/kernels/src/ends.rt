//! The ends of a range among the numbers of a type.

ghost use Rattle.std.specs.Prelude.{◌≡◌, ℤ, false, int_le, IfSome, IfNone};
ghost use Rattle.kernels.specs.Ranges.{is_within};

use crate::range::Range;
use num_traits::{Bounded, FixedWidth, FromPrimitive};

/// The numbers of a type from one to another.
#[derive(Clone, Copy, Drop)]
pub struct Ends<E> {
    pub least: E,
    pub most: E,
}

/// Those numbers of a type that are in a range.
pub(crate) fn ends_of<E: FixedWidth + Bounded + FromPrimitive>(range: &Range) -> Ends<E>
    ensures { (number : ℤ) → E.fits number →
        is_within (E.value result.least) (E.value result.most) number
        ≡ is_within range.now.least range.now.most number }
{
    let Some(least) = lower_end::<E>(range.least) else {
        return no_numbers();
    };
    let Some(most) = upper_end::<E>(range.most) else {
        return no_numbers();
    };
    Ends { least, most }
}

// The number of a type above which those of its numbers are that are above another; none where none
// is.
fn lower_end<E: FixedWidth + Bounded + FromPrimitive>(number: i128) -> Option<E>
    ensures some { IfSome result
        (λ end. (other : ℤ) → E.fits other → int_le (E.value end) other ≡ int_le number other) }
    ensures none { IfNone result ((other : ℤ) → E.fits other → int_le number other ≡ false) }
{
    match E::from_i128(number) {
        Some(end) => Some(end),
        None => {
            if number < 0 {
                Some(E::min_value())
            } else {
                None
            }
        }
    }
}

// The same for those below.
fn upper_end<E: FixedWidth + Bounded + FromPrimitive>(number: i128) -> Option<E>
    ensures some { IfSome result
        (λ end. (other : ℤ) → E.fits other → int_le other (E.value end) ≡ int_le other number) }
    ensures none { IfNone result ((other : ℤ) → E.fits other → int_le other number ≡ false) }
{
    match E::from_i128(number) {
        Some(end) => Some(end),
        None => {
            if number < 0 {
                None
            } else {
                Some(E::max_value())
            }
        }
    }
}

// From the greatest number of a type to the least.
fn no_numbers<E: FixedWidth + Bounded>() -> Ends<E>
    ensures { (number : ℤ) → E.fits number →
        is_within (E.value result.least) (E.value result.most) number ≡ false }
{
    Ends {
        least: E::max_value(),
        most: E::min_value(),
    }
}
