//! The rows of the right side of a join, by their numbers over all batches.

ghost use Rattle.std.specs.Prelude.{◌≡◌, ◌≤◌, ◌<◌, ◌++◌, ◌^◌, ℕ, [], All, IfOk, IfSome, IsTrue};
ghost use Rattle.std.specs.Prelude.{OnOk, get_or, length, map, nat_lt, true};
ghost use Rattle.std.specs.List.{list_all, range_with_len};
ghost use Rattle.scan_base.specs.Limits.{most_rows};
ghost use Rattle.arrays.specs.Batch.{BatchAt};
ghost use Rattle.hash_join.specs.Pairs.{places};
ghost use Rattle.hash_join.specs.Hashes.{last_of};
ghost use Rattle.hash_join.specs.KeyRows.{key_beside, row_key, IsKeyRow};
ghost use Rattle.scan_base.specs.declared.value.Value.TheVariants.{Null};
ghost use Rattle.hash_join.specs.Rights.{key_at, key_from, bucket_at, digest_at, place_at};
ghost use Rattle.hash_join.specs.Rights.{AreRights};
ghost use Rattle.hash_join.specs.PairCache.{HaveCompared};
ghost use Rattle.hash_join.specs.RowCache.{AreKept};

use crate::buckets::{BucketHash, Buckets};
use crate::key_codes::{any_batch_codes, any_has_codes, any_most_codes, columns_of, most_weight};
use crate::key_row::KeyRow;
use crate::numbers::are_numbers;
use crate::pair_cache::PairCache;
use crate::product::Product;
use crate::ranks::Ranks;
use crate::right_rows::RightRows;
use crate::row_cache::{CacheSizes, RowCache};
use crate::spans::Span;
use arrays::Batch;
use scan_base::HashSeed;
use std::alloc::{AllocError, Global};
use std::hash::BuildHasher;

// The batches of the right side, the numbers of the columns that are the key, and for the number of
// each row, counted over all batches, its place: the number of its batch and its own in it.
pub(crate) struct Rights {
    pub(crate) batches: Vec<Batch>,
    pub(crate) key: Vec<usize>,
    pub(crate) places: Vec<(u32, u32)>,
    pub(crate) buckets: Buckets,
}

// Written out, so that dropping it is one call (docs/DECISIONS.md).
impl Drop for Rights {
    fn drop(self) {
        let Rights {
            batches: _,
            key: _,
            places: _,
            buckets: _,
        } = self;
    }
}

impl Rights {
    // The rows of these batches, parted into buckets: by rank where the keys are numbers that lie
    // close together, and else by a product or a hash into more than there are rows, up to twice as
    // many.
    pub(crate) fn new(
        alloc: Global,
        seed: HashSeed,
        batches: Vec<Batch>,
        key: Vec<usize>,
    ) -> Result<Rights, AllocError>
        requires there { All (λ (batch : BatchAt). IsTrue
            (list_all (λ column. nat_lt column (length batch.columns)) key.items)) batches.items }
        requires few { length (places batches.items) ≤ most_rows }
        requires counted { length batches.items ≤ most_rows }
        ensures batches { IfOk result (λ rights. rights.batches.items ≡ batches.items) }
        ensures key { IfOk result (λ rights. rights.key.items ≡ key.items) }
        ensures whole { IfOk result (λ rights. AreRights rights) }
    {
        let places = places_of(alloc, &batches)?;
        let mask = (places.len() + 1).next_power_of_two() - 1;
        let buckets = match Span::of(&batches, &key, places.len()) {
            Some(span) => Buckets::Ranked(Ranks::of(alloc, span, &batches, &key)?),
            None if are_numbers(&batches, &key) => Buckets::Multiplied(Product::new(seed, mask)),
            None => Buckets::Hashed(BucketHash {
                begun: seed.build_hasher(),
                mask,
            }),
        };
        Ok(Rights {
            batches,
            key,
            places,
            buckets,
        })
    }

    // A row by its number, and its key.
    pub(crate) fn key_row(&self, number: usize) -> KeyRow<'_>
        requires whole { AreRights self.now }
        requires within { number < length self.now.places.items }
        ensures row { IsKeyRow result }
        ensures key { row_key result ≡ key_at self.now number }
        ensures others { (row : ℕ) →
            key_beside result row ≡ key_from self.now ((place_at self.now number).0, row) }
        ensures rows { result.batch.now.rows ≡ (get_or self.now.batches.items
            (place_at self.now number).0 (record { columns = []; rows = 0 })).rows }
        ensures parts { length result.key.now ≡ length self.now.key.items }
    {
        let (batch, row) = self.places[number];
        KeyRow {
            batch: &self.batches[batch as usize],
            key: self.key.as_slice(),
            row: row as usize,
        }
    }

    // Whether buckets are told by hashes.
    pub(crate) fn are_hashed(&self) -> bool {
        match self.buckets {
            Buckets::Hashed(_) => true,
            _ => false,
        }
    }

    // As how many rows one counts that is hashed or compared: once for each part of its key, once
    // for each 64 bytes of text there, and once at least.
    pub(crate) fn weight(&self) -> usize
        requires { AreRights self.now }
        ensures { 1 ≤ result }
    {
        most_weight(&self.batches, &self.key)
    }

    // Tables for the buckets and the digests of rows that are seen, without a row yet. They have
    // places where keys are hashed, and some batch has codes.
    pub(crate) fn seen_rows(&self, alloc: Global) -> Result<RowCache, AllocError>
        requires { AreRights self.now }
        ensures { IfOk result (λ seen. AreKept (bucket_at self.now) (last_of self.now.buckets)
            (length self.now.places.items) (digest_at self.now) seen) }
    {
        let Buckets::Hashed(hashing) = &self.buckets else {
            return Ok(RowCache::none(alloc));
        };
        let rows = self.places.len();
        let coded = any_has_codes(&self.batches, &self.key);
        let wanted = CacheSizes {
            rows: if coded { rows } else { 0 },
            columns: columns_of(&self.key),
            codes: any_most_codes(&self.batches, &self.key).min(rows),
        };
        RowCache::new(alloc, hashing, wanted)
    }

    // Whether another row is there and surely has the same key: the same codes of dictionaries,
    // which takes no look at their texts, or the same values.
    pub(crate) fn is_repeat(&self, number: usize, other: usize, compared: &mut PairCache) -> bool
        requires whole { AreRights self.now }
        requires within { number < length self.now.places.items }
        requires compared { HaveCompared self.now compared.old }
        ensures same { result ≡ true → key_at self.now number ≡ key_at self.now other }
        ensures compared { HaveCompared self.now compared.new }
    {
        if other >= self.places.len() {
            return false;
        }
        if self.have_one_code(number, other) {
            return true;
        }
        let rows = RightRows { rights: self };
        compared.keys_join(&rows, &rows, number, other)
    }

    // A table for what is compared of two rows, without a pair yet. It has places where keys are
    // hashed, and some batch has codes.
    pub(crate) fn compared(&self, alloc: Global) -> PairCache
        requires { AreRights self.now }
        ensures { HaveCompared self.now result }
    {
        match &self.buckets {
            Buckets::Hashed(hashing) if any_batch_codes(&self.batches, &self.key) => {
                PairCache::new(alloc, hashing, self.places.len())
            }
            _ => PairCache::none(alloc),
        }
    }

    // Whether two rows of one batch have a key of the same code, or of several parts with the same
    // codes and numbers.
    pub(crate) fn have_one_code(&self, number: usize, other: usize) -> bool
        requires whole { AreRights self.now }
        requires within { number < length self.now.places.items }
        requires other { other < length self.now.places.items }
        ensures { result ≡ true → key_at self.now number ≡ key_at self.now other }
    {
        if self.places[number].0 != self.places[other].0 {
            return false;
        }
        self.key_row(number)
            .has_code_of(self.places[other].1 as usize)
    }

    // Whether two rows of one batch have the same code or number in a part of the key.
    pub(crate) fn have_part_code(&self, number: usize, other: usize, part: usize) -> bool
        requires whole { AreRights self.now }
        requires within { number < length self.now.places.items }
        requires other { other < length self.now.places.items }
        requires part { part < length self.now.key.items }
        ensures { result ≡ true →
            get_or (key_at self.now number) part Null ≡ get_or (key_at self.now other) part Null }
    {
        let (batch, _) = self.places[number];
        let (other_batch, row) = self.places[other];
        if batch != other_batch {
            return false;
        }
        self.key_row(number).has_part_of(part, row as usize)
    }

    // The bucket of the row of this number; none where a part of its key is null.
    pub(crate) fn bucket(&self, number: usize) -> Option<usize>
        requires whole { AreRights self.now }
        requires within { number < length self.now.places.items }
        ensures bucket { result ≡ bucket_at self.now number }
        ensures within { IfSome result (λ bucket. bucket ≤ last_of self.now.buckets) }
    {
        self.buckets.bucket(&self.key_row(number))
    }
}

// The places of all rows, in order.
fn places_of(alloc: Global, batches: &[Batch]) -> Result<Vec<(u32, u32)>, AllocError>
    requires few { length (places batches.now) ≤ most_rows }
    requires counted { length batches.now ≤ most_rows }
    ensures { IfOk result (λ all. all.items ≡ places batches.now) }
{
    let mut all = Vec::new(alloc);
    for (number, batch) in batches.iter().enumerate() {
        push_places(&mut all, number as u32, batch.rows())?;
    }
    Ok(all)
}

// Adds the places of the rows of one batch.
fn push_places(all: &mut Vec<(u32, u32)>, batch: u32, rows: usize) -> Result<(), AllocError>
    requires { rows < 2 ^ 32 }
    ensures { OnOk result
        (all.new.items ≡ all.old.items ++ map (λ row. (batch, row)) (range_with_len 0 rows)) }
{
    for row in 0..rows {
        all.push((batch, row as u32))?;
    }
    Ok(())
}
