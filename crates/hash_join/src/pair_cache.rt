//! Parts of keys that were compared, by the codes of their texts.

ghost use Rattle.std.specs.Prelude.{◌≡◌, ◌≤◌, ◌<◌, ◌+◌, ◌^◌, ℕ, [], All, IfOk, IfSome, List};
ghost use Rattle.scan_base.specs.declared.value.Value.{Value};
ghost use Rattle.hash_join.specs.Pairs.{keys_join};
ghost use Rattle.hash_join.specs.PairCache.{part_joins, AreCompared};

use crate::buckets::BucketHash;
use crate::key_row::{PART_WEIGHT, are_equal};
use crate::pair::Pair;
use crate::part_rows::PartRows;
use crate::product::Product;
use scan_base::ValueRef;
use std::alloc::{AllocError, Global};

// No table has more places: 1 MB.
const MOST_PAIRS: usize = 65_536;

// Shorter texts are compared sooner than they are looked for.
const LONG_TEXT: usize = 128;

// A left and a right row, a part of their keys, and whether the two are equal in it.
#[derive(Clone, Copy, Drop)]
pub(crate) struct CachedPair {
    pub(crate) left: u32,
    pub(crate) right: u32,
    pub(crate) part: u32,
    pub(crate) equal: bool,
}

// A left and a right row, and a part of their keys.
#[derive(Clone, Copy, Drop)]
pub(crate) struct PartPair {
    pub(crate) left: usize,
    pub(crate) right: usize,
    pub(crate) part: usize,
}

// For each place the rows whose codes of long texts fell there last, as a pair. So it may forget a
// pair. Who asks looks whether those rows have the same codes. It takes memory for the places once
// the first long texts are compared.
#[derive(Drop)]
pub(crate) struct PairCache {
    alloc: Global,
    product: Product,
    pub(crate) places: usize,
    pub(crate) pairs: Vec<CachedPair>,
}

// Pairs of rows that join, and what was compared to find them.
#[derive(Drop)]
pub(crate) struct PairOutput {
    pub(crate) pairs: Vec<Pair>,
    pub(crate) compared: PairCache,
}

impl PairCache {
    // A table without a place.
    pub(crate) fn none(alloc: Global) -> PairCache
        ensures { result.pairs.items ≡ [] }
    {
        PairCache {
            alloc,
            product: Product::one(),
            places: 0,
            pairs: Vec::new(alloc),
        }
    }

    // A table with a place of 16 bytes for each of so many rows, or as many places as a table has
    // at most.
    pub(crate) fn new(alloc: Global, hashing: &BucketHash, rows: usize) -> PairCache
        ensures { result.pairs.items ≡ [] }
    {
        let places = rows.min(MOST_PAIRS).next_power_of_two();
        PairCache {
            alloc,
            product: Product::of_hasher(hashing.begun, places - 1),
            places,
            pairs: Vec::new(alloc),
        }
    }

    // Whether a left and a right row have keys that are equal part by part.
    pub(crate) fn keys_join<L: PartRows, R: PartRows>(
        &mut self,
        lefts: &L,
        rights: &R,
        left: usize,
        right: usize,
    ) -> bool
        requires left { left < L.count lefts.now }
        requires right { right < R.count rights.now }
        requires few_left { L.count lefts.now < 2 ^ 32 }
        requires few_right { R.count rights.now < 2 ^ 32 }
        requires alike { L.parts lefts.now ≡ R.parts rights.now }
        requires seen { AreCompared (L.key lefts.now) (L.count lefts.now) (R.key rights.now)
            (R.count rights.now) self.old.pairs.items }
        ensures joins { result ≡ keys_join (L.key lefts.now left) (R.key rights.now right) }
        ensures seen { AreCompared (L.key lefts.now) (L.count lefts.now) (R.key rights.now)
            (R.count rights.now) self.new.pairs.items }
    {
        let parts = lefts.part_count();
        let _same = rights.part_count();
        for part in 0..parts {
            let at = PartPair { left, right, part };
            if !self.are_equal(lefts, rights, at) {
                return false;
            }
        }
        true
    }

    // Whether they are equal in one part. Long texts of codes that were compared are not looked at.
    fn are_equal<L: PartRows, R: PartRows>(&mut self, lefts: &L, rights: &R, at: PartPair) -> bool
        requires left { at.left < L.count lefts.now }
        requires right { at.right < R.count rights.now }
        requires few_left { L.count lefts.now < 2 ^ 32 }
        requires few_right { R.count rights.now < 2 ^ 32 }
        requires left_part { at.part < L.parts lefts.now }
        requires right_part { at.part < R.parts rights.now }
        requires seen { AreCompared (L.key lefts.now) (L.count lefts.now) (R.key rights.now)
            (R.count rights.now) self.old.pairs.items }
        ensures equal { result
            ≡ part_joins (L.key lefts.now at.left) (R.key rights.now at.right) at.part }
        ensures seen { AreCompared (L.key lefts.now) (L.count lefts.now) (R.key rights.now)
            (R.count rights.now) self.new.pairs.items }
    {
        let left = lefts.part(at.left, at.part);
        let right = rights.part(at.right, at.part);
        if !are_long(left, right) {
            return are_equal(left, right);
        }
        self.make_room();
        let Some(place) = self.place(lefts, rights, at) else {
            return are_equal(left, right);
        };
        if let Some(equal) = self.equal_at(lefts, rights, place, at) {
            return equal;
        }
        let equal = are_equal(left, right);
        self.keep(place, at, equal);
        equal
    }

    // Takes memory for the places, where none was taken. If it is refused, no pair is kept.
    fn make_room(&mut self)
        ensures { (lefts rights : ℕ → List Value) (left_count right_count : ℕ) →
            left_count < 2 ^ 32 →
            AreCompared lefts left_count rights right_count self.old.pairs.items →
            AreCompared lefts left_count rights right_count self.new.pairs.items }
    {
        if self.places == 0 || !self.pairs.is_empty() {
            return;
        }
        match no_pairs(self.alloc, self.places) {
            Ok(pairs) => self.pairs = pairs,
            Err(_) => self.places = 0,
        }
    }

    // The place of a pair of codes; none where one of the two has none. No contract rests on it.
    fn place<L: PartRows, R: PartRows>(&self, lefts: &L, rights: &R, at: PartPair) -> Option<usize>
        requires left { at.left < L.count lefts.now }
        requires right { at.right < R.count rights.now }
        requires left_part { at.part < L.parts lefts.now }
        requires right_part { at.part < R.parts rights.now }
    {
        let Some(code) = lefts.part_code(at.left, at.part) else {
            return None;
        };
        let Some(other) = rights.part_code(at.right, at.part) else {
            return None;
        };
        let sum = code
            .wrapping_mul(PART_WEIGHT)
            .wrapping_add(other)
            .wrapping_mul(PART_WEIGHT)
            .wrapping_add(lefts.batch_number(at.left) as i128)
            .wrapping_mul(PART_WEIGHT)
            .wrapping_add(rights.batch_number(at.right) as i128);
        Some(self.product.at(sum.wrapping_mul(PART_WEIGHT).wrapping_add(at.part as i128)))
    }

    // Whether two rows are equal in a part, where the rows at a place have the same codes in it.
    fn equal_at<L: PartRows, R: PartRows>(
        &self,
        lefts: &L,
        rights: &R,
        place: usize,
        at: PartPair,
    ) -> Option<bool>
        requires left { at.left < L.count lefts.now }
        requires right { at.right < R.count rights.now }
        requires left_part { at.part < L.parts lefts.now }
        requires right_part { at.part < R.parts rights.now }
        requires seen { AreCompared (L.key lefts.now) (L.count lefts.now) (R.key rights.now)
            (R.count rights.now) self.now.pairs.items }
        ensures { IfSome result (λ equal. equal
            ≡ part_joins (L.key lefts.now at.left) (R.key rights.now at.right) at.part) }
    {
        if place >= self.pairs.len() {
            return None;
        }
        let seen = self.pairs[place];
        let (left, right) = (seen.left as usize, seen.right as usize);
        if seen.part as usize != at.part
            || left >= lefts.row_count()
            || right >= rights.row_count()
        {
            return None;
        }
        if lefts.have_part_code(left, at.left, at.part)
            && rights.have_part_code(right, at.right, at.part)
        {
            Some(seen.equal)
        } else {
            None
        }
    }

    // Keeps a pair of rows and whether they are equal in a part, in the stead of what was there.
    fn keep(&mut self, place: usize, at: PartPair, equal: bool)
        requires left { at.left < 2 ^ 32 }
        requires right { at.right < 2 ^ 32 }
        ensures { (lefts rights : ℕ → List Value) (left_count right_count : ℕ) →
            equal ≡ part_joins (lefts at.left) (rights at.right) at.part →
            AreCompared lefts left_count rights right_count self.old.pairs.items →
            AreCompared lefts left_count rights right_count self.new.pairs.items }
    {
        let Ok(part) = u32::try_from(at.part) else {
            return;
        };
        if place < self.pairs.len() {
            self.pairs[place] = CachedPair {
                left: at.left as u32,
                right: at.right as u32,
                part,
                equal,
            };
        }
    }
}

// So many places without a pair.
fn no_pairs(alloc: Global, places: usize) -> Result<Vec<CachedPair>, AllocError>
    ensures { IfOk result (λ pairs. All (λ (at : CachedPair). 2 ^ 32 ≤ at.left + 1) pairs.items) }
{
    let none = CachedPair {
        left: u32::MAX,
        right: 0,
        part: 0,
        equal: false,
    };
    let pairs = vec![in alloc; none; places]?;
    Ok(pairs)
}

// Whether both values are texts that are long.
fn are_long(left: ValueRef<'_>, right: ValueRef<'_>) -> bool {
    match (left, right) {
        (ValueRef::Text(text), ValueRef::Text(other)) => text.len().min(other.len()) >= LONG_TEXT,
        _ => false,
    }
}
