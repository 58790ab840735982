//! Numbers that lie close together.

ghost use Rattle.std.specs.Prelude.{◌≡◌, ◌≤◌, ◌<◌, ◌+ℤ◌, ◌-ℤ◌, ◌≤ℤ◌, ◌^◌, pos, All, IfSome, IsTrue};
ghost use Rattle.std.specs.Prelude.{length, nat_lt};
ghost use Rattle.std.specs.List.{list_all};
ghost use Rattle.scan_base.specs.Limits.{most_rows};
ghost use Rattle.arrays.specs.Batch.{BatchAt};
ghost use Rattle.hash_join.specs.Indices.{index_among};

use crate::numbers::{TakesNumbers, take_numbers};
use arrays::Batch;

// So many numbers for each row may lie from the least key to the greatest, and so many more, that
// each has a bit.
const MOST_NUMBERS_A_ROW: usize = 16;

const MORE_NUMBERS: usize = 1_024;

// So many numbers, from the least on. All have 64 bits with a sign.
#[derive(Clone, Copy, Drop)]
pub(crate) struct Span {
    pub(crate) least: i64,
    pub(crate) count: usize,
    ghost near: { (least +ℤ pos count) ≤ℤ pos (2 ^ 63) },
}

// The least and the greatest of some numbers.
#[derive(Clone, Copy, Drop)]
struct NumberEnds {
    least: i128,
    most: i128,
}

impl NumberEnds {
    // Those of no numbers.
    fn none() -> NumberEnds {
        NumberEnds {
            least: i128::MAX,
            most: i128::MIN,
        }
    }

    // From the least to the greatest, where 64 bits with a sign hold both, and they are no more
    // than so many numbers.
    fn span(self, most: usize) -> Option<Span>
        ensures { IfSome result (λ span. span.count ≤ most) }
    {
        let least = i64::try_from(self.least).ok()?;
        let greatest = i64::try_from(self.most).ok()?;
        if greatest < least {
            return None;
        }
        let last = greatest.abs_diff(least) as usize;
        if last >= most {
            return None;
        }
        Some(Span {
            least,
            count: last + 1,
        })
    }
}

impl TakesNumbers for NumberEnds {
    fn take(&mut self, number: i128) {
        self.least = self.least.min(number);
        self.most = self.most.max(number);
    }
}

impl Span {
    ghost use Rattle.hash_join.specs.Hashes.{place_among};

    // The span of the keys of these batches, which have so many rows: none where these are no
    // integers of one column, or lie far apart.
    pub(crate) fn of(batches: &[Batch], key: &[usize], rows: usize) -> Option<Span>
        requires there { All (λ (batch : BatchAt). IsTrue
            (list_all (λ column. nat_lt column (length batch.columns)) key.now)) batches.now }
        requires few { rows ≤ most_rows }
        ensures few { IfSome result (λ span. span.count < 2 ^ 30) }
        ensures single { IfSome result (λ span. length key.now ≡ 1) }
    {
        if key.len() != 1 {
            return None;
        }
        let mut ends = NumberEnds::none();
        for batch in batches {
            if !take_numbers(batch, key, &mut ends) {
                return None;
            }
        }
        ends.span(MOST_NUMBERS_A_ROW * rows + MORE_NUMBERS)
    }

    // The place of a number; after the last of them where it is none of them.
    pub(crate) fn place(&self, number: i128) -> usize
        ensures place { result ≡ place_among self.now number }
        ensures within { result ≤ self.now.count }
    {
        match i64::try_from(number) {
            Ok(near) => near_place(near, self.least, self.count),
            Err(_) => place_from(number, i128::from(self.least), self.count),
        }
    }
}

// The place of a number of 64 bits among so many from the least on; after the last of them where it
// is none of them. It takes no step in 128 bits, and no branch: below the least the difference
// wraps past all places.
fn near_place(number: i64, least: i64, count: usize) -> usize
    requires { (least +ℤ pos count) ≤ℤ pos (2 ^ 63) }
    ensures place { result ≡ index_among (number -ℤ least) count }
    ensures within { result ≤ count }
{
    let index = number.cast_unsigned().wrapping_sub(least.cast_unsigned());
    (index as usize).min(count)
}

// The place of a number among so many from the least on; after the last of them where it is none of
// them.
fn place_from(number: i128, least: i128, count: usize) -> usize
    ensures place { result ≡ index_among (number -ℤ least) count }
    ensures within { result ≤ count }
{
    match number.checked_sub(least) {
        None => count,
        Some(index) => index_among(index, count),
    }
}

// The place of a number, counted from the first of so many; after the last of them where it is none
// of them.
fn index_among(index: i128, count: usize) -> usize
    ensures place { result ≡ index_among index count }
    ensures within { result ≤ count }
{
    match usize::try_from(index) {
        Ok(index) => index.min(count),
        Err(_) => count,
    }
}
