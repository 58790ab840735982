//! Indices looked at by the buffer: the greatest of them.

ghost use Rattle.std.specs.Prelude.{◌≡◌, ◌≤◌, ◌<◌, ◌≤ℤ◌, ◌*◌, ℕ, pos, true, length};
ghost use Rattle.arrays.specs.Number.{byte_width, element_at, integer_at, number_from};
ghost use Rattle.arrays.specs.inside.PlacedIndices.{IsPlaced};

use crate::element::Element;
use arrow_types::IntegerType;

/// Whether each of `len` indices is one of `count` places, null ones too. Where the answer is no,
/// each valid one may be: the index of a null may be anything.
pub(crate) fn are_placed(index: IntegerType, values: &[u8], len: usize, count: usize) -> bool
    requires { byte_width index * len ≤ length values.now }
    ensures { result ≡ true →
        (place : ℕ) → place < len → IsPlaced count (integer_at index values.now place) }
{
    let greatest = greatest(index, values, len);
    greatest < count as u64 && has_no_sign(index, greatest)
}

// Whether these bits, and each lesser ones, are no negative number of a type.
fn has_no_sign(index: IntegerType, bits: u64) -> bool
    ensures { result ≡ true → (lesser : ℕ) → lesser ≤ bits → number_from index lesser ≡ pos lesser }
{
    match index {
        IntegerType::Int8 => bits < 1 << 7,
        IntegerType::Int16 => bits < 1 << 15,
        IntegerType::Int32 => bits < 1 << 31,
        IntegerType::Int64 => bits < 1 << 63,
        _ => true,
    }
}

// The greatest of `len` elements, as numbers without a sign: a negative one is a great one. 0 where
// there is none.
fn greatest(index: IntegerType, values: &[u8], len: usize) -> u64
    requires { byte_width index * len ≤ length values.now }
    ensures { (place : ℕ) → place < len → element_at (byte_width index) values.now place ≤ result }
{
    match index {
        IntegerType::Int8 | IntegerType::UInt8 => u64::from(greatest_of::<u8>(values, len, 0)),
        IntegerType::Int16 | IntegerType::UInt16 => u64::from(greatest_of::<u16>(values, len, 0)),
        IntegerType::Int32 | IntegerType::UInt32 => u64::from(greatest_of::<u32>(values, len, 0)),
        IntegerType::Int64 | IntegerType::UInt64 => greatest_of::<u64>(values, len, 0),
    }
}

// The greatest of `len` elements and one more.
fn greatest_of<E: Element>(values: &[u8], len: usize, least: E) -> E
    requires { E.WIDTH * len ≤ length values.now }
    ensures { (place : ℕ) → place < len →
        E.value (E.of_bits (element_at E.WIDTH values.now place)) ≤ℤ E.value result }
{
    let mut greatest = least;
    for place in 0..len {
        let element = E::read(values, place);
        if greatest < element {
            greatest = element;
        }
    }
    greatest
}
