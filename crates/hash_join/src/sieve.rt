//! Left rows, of which those that join nothing are mostly told by one look.

ghost use Rattle.std.specs.Prelude.{◌≡◌, ◌≤◌, ◌<◌, ◌+◌, ◌&&◌, ℕ, [], Bool, IfOk, None, Option};
ghost use Rattle.std.specs.Prelude.{if◌then◌else◌, true};
ghost use Rattle.arrays.specs.Integers.{AreIntegers};
ghost use Rattle.arrays.specs.Number.{integer_at};
ghost use Rattle.arrays.specs.Validity.{is_valid};
ghost use Rattle.hash_join.specs.declared.number_look.BucketKind.{BucketKind as ToldOf};
ghost use Rattle.hash_join.specs.declared.number_look.BucketKind.TheVariants as known;
ghost use Rattle.hash_join.specs.RowCache.{AreKept};
ghost use Rattle.hash_join.specs.Words.{passing_word};

use crate::key_element::{known_word, number_word};
use crate::number_look::{BucketKind, Look};
use crate::pair_cache::PairCache;
use crate::row_cache::RowCache;
use arrays::{Integer, Integers};
use std::alloc::{AllocError, Global};
use std::marker::PhantomData;

// What is told of left rows by one look: those that do not pass join nothing.
pub(crate) trait Sieve {
    ghost count: { Self → ℕ };

    ghost passes: { Self → ℕ → Bool };

    ghost told: { Self → ℕ → ToldOf };

    ghost head: { Self → ℕ → ℕ };

    ghost own: { Self → Bool };

    ghost bucket: { Self → ℕ → Option ℕ };

    ghost last: { Self → ℕ };

    ghost digest: { Self → ℕ → ℕ → Option ℕ };

    // Whether a row may join a right row.
    fn passes(&self, row: usize) -> bool
        requires { row < count self.now }
        ensures { result ≡ passes self.now row };

    // A bit for each of up to 64 rows from one on, the first lowest: 1 where the row may join a
    // right row.
    fn word(&self, from: usize, rows: usize) -> u64
        requires within { from + rows ≤ count self.now }
        requires few { rows ≤ 64 }
        ensures { result ≡ passing_word (passes self.now) from rows };

    // What is known of the bucket of a row.
    fn tell(&self, row: usize) -> BucketKind
        requires { row < count self.now }
        ensures { result ≡ told self.now row };

    // Tables for the buckets and the digests of rows that are seen, without a row yet.
    fn seen_rows(&self, alloc: Global) -> Result<RowCache, AllocError>
        ensures { IfOk result (λ seen. AreKept (bucket self.now) (last self.now) (count self.now)
            (digest self.now) seen) };

    // A table for what is compared of left and right rows, without a pair yet.
    fn compared(&self, alloc: Global) -> PairCache
        ensures { result.pairs.items ≡ [] };

    // The first right row of the chain of a row that passes; the number of right rows where it has
    // none.
    fn head(&self, row: usize, seen: &mut RowCache) -> u32
        requires row { row < count self.now }
        requires passes { passes self.now row ≡ true }
        requires seen { AreKept (bucket self.now) (last self.now) (count self.now)
            (digest self.now) seen.old }
        ensures head { result ≡ head self.now row }
        ensures seen { AreKept (bucket self.now) (last self.now) (count self.now)
            (digest self.now) seen.new };

    // Whether a row that passes joins each right row of its chain.
    fn is_own(&self) -> bool
        ensures { result ≡ own self.now };
}

// Rows whose keys are integers, as they lie, and what tells of a number.
#[derive(Drop)]
pub(crate) struct NumberRows<'a, E: Integer, L: Look> {
    pub(crate) cells: Integers<'a>,
    pub(crate) first: usize,
    pub(crate) count: usize,
    pub(crate) look: &'a L,
    pub(crate) kind: PhantomData<E>,
    ghost same: { E.KIND ≡ cells.integer },
    ghost there: { first + count ≤ cells.len },
}

impl<'a, E: Integer, L: Look> Sieve for NumberRows<'a, E, L> {
    ghost count = { λ rows. rows.count };

    ghost passes = { λ rows row. is_valid rows.cells.validity (rows.first + row)
        && L.passes rows.look.now (integer_at E.KIND rows.cells.values (rows.first + row)) };

    ghost told = { λ rows row. if is_valid rows.cells.validity (rows.first + row)
        then L.told rows.look.now (integer_at E.KIND rows.cells.values (rows.first + row))
        else known.Nothing };

    ghost head = { λ rows row. L.head rows.look.now
        (integer_at E.KIND rows.cells.values (rows.first + row)) };

    ghost own = { λ rows. L.own rows.look.now };

    ghost bucket = { λ _ _. None };

    ghost last = { λ _. 0 };

    ghost digest = { λ _ _ _. None };

    fn passes(&self, row: usize) -> bool {
        let _count = self.cells.len();
        let place = self.first + row;
        if !self.cells.validity().is_valid(place) {
            return false;
        }
        self.look.passes(E::number_at(self.cells.values(), place))
    }

    fn word(&self, from: usize, rows: usize) -> u64 {
        let _count = self.cells.len();
        let place = self.first + from;
        let word = number_word::<E, L>(self.look, self.cells.values(), place, rows);
        match self.cells.validity().bits() {
            None => word,
            Some(bits) => known_word(bits, place, rows) & word,
        }
    }

    fn tell(&self, row: usize) -> BucketKind {
        let _count = self.cells.len();
        let place = self.first + row;
        if !self.cells.validity().is_valid(place) {
            return BucketKind::Nothing;
        }
        self.look.tell(E::number_at(self.cells.values(), place))
    }

    fn seen_rows(&self, alloc: Global) -> Result<RowCache, AllocError> {
        Ok(RowCache::none(alloc))
    }

    fn compared(&self, alloc: Global) -> PairCache {
        PairCache::none(alloc)
    }

    fn head(&self, row: usize, _seen: &mut RowCache) -> u32 {
        let _count = self.cells.len();
        self.look
            .head(E::number_at(self.cells.values(), self.first + row))
    }

    fn is_own(&self) -> bool {
        self.look.is_own()
    }
}
