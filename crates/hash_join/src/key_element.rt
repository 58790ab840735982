//! Slots of packed numbers that are keys, 64 at a time.

ghost use Rattle.std.specs.Prelude.{◌≡◌, ◌≤◌, ◌+◌, ◌*◌, false, get_or, length};
ghost use Rattle.arrays.specs.Number.{byte_width, integer_at};
ghost use Rattle.hash_join.specs.Words.{passing_word};

use crate::number_look::Look;
use arrays::Integer;
use bitmap::Bits;

/// A bit for each of up to 64 slots from one on, the first lowest: 1 where the slot is valid.
pub(crate) fn known_word(validity: &Bits, from: usize, count: usize) -> u64
    requires within { from + count ≤ length validity.now }
    requires few { count ≤ 64 }
    ensures { result ≡ passing_word (λ place. get_or validity.now place false) from count }
{
    if count == 64 {
        validity.word(from)
    } else {
        validity.short_word(from, count)
    }
}

/// A bit for each of up to 64 packed numbers from one on, the first lowest: 1 where the number may
/// be a right key. It writes nothing to memory, so what never changes is read once.
pub(crate) fn number_word<E: Integer, L: Look>(
    look: &L,
    values: &[u8],
    from: usize,
    count: usize,
) -> u64
    requires within { byte_width E.KIND * (from + count) ≤ length values.now }
    requires few { count ≤ 64 }
    ensures { result ≡ passing_word
        (λ place. L.passes look.now (integer_at E.KIND values.now place)) from count }
{
    let mut word = 0u64;
    for taken in 0..count {
        let place = from + (count - 1 - taken);
        word = 2 * word + look.passes(E::number_at(values, place)) as u64;
    }
    word
}
