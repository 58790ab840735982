//! Buckets of rows that were seen, by the codes of their keys.

ghost use Rattle.std.specs.Prelude.{◌≡◌, ◌≤◌, ◌<◌, ◌+◌, ◌^◌, [], ℕ, All, IfOk, IfSome, Option};
ghost use Rattle.std.specs.Prelude.{length, true};
ghost use Rattle.hash_join.specs.RowCache.{AreDigests, AreKept, AreBucketsKept, IsSeen};

use crate::buckets::BucketHash;
use crate::digests::{Digests, SeenDigest};
use crate::product::Product;
use std::alloc::{AllocError, Global};

// No table has more places: 512 KB.
const MOST_PLACES: usize = 65_536;

// A row that was seen, and the bucket of its key.
#[derive(Clone, Copy, Drop)]
pub(crate) struct CachedRow {
    pub(crate) row: u32,
    pub(crate) bucket: u32,
}

// For each place the row whose code fell there last. So it forgets rows, and has no place for each
// value of a dictionary. Who asks looks whether that row has the same code. Next to it are the
// digests of texts that are parts of keys.
#[derive(Drop)]
pub(crate) struct RowCache {
    product: Product,
    pub(crate) rows: Vec<CachedRow>,
    pub(crate) digests: Digests,
}

// For what tables have places: for so many rows whose keys have codes, and for so many codes in
// each of so many columns.
#[derive(Clone, Copy, Drop)]
pub(crate) struct CacheSizes {
    pub(crate) rows: usize,
    pub(crate) columns: usize,
    pub(crate) codes: usize,
}

// Rows whose keys have buckets.
pub(crate) trait BucketRows {
    ghost count: { Self → ℕ };

    ghost bucket: { Self → ℕ → Option ℕ };

    ghost last: { Self → ℕ };

    ghost digest: { Self → ℕ → ℕ → Option ℕ };

    // How many rows there are.
    fn count(&self) -> usize
        ensures { result ≡ count self.now };

    // A number that rows with the same codes have, and others may have too; none where the key has
    // a part without a code.
    fn code(&self, row: usize) -> Option<i128>
        requires { row < count self.now };

    // Whether the keys of two rows are the same by their codes alone.
    fn have_one_code(&self, row: usize, other: usize) -> bool
        requires row { row < count self.now }
        requires other { other < count self.now }
        ensures { result ≡ true → bucket self.now row ≡ bucket self.now other };

    // The bucket of a row's key, by its values; none where a part of it is null. A text whose
    // digest is known is not looked at.
    fn bucket(&self, row: usize, digests: &mut Digests) -> Option<usize>
        requires row { row < count self.now }
        requires few { count self.now < 2 ^ 32 }
        requires seen { AreDigests (digest self.now) (count self.now) digests.old.texts.items }
        ensures bucket { result ≡ bucket self.now row }
        ensures within { IfSome result (λ found. found ≤ last self.now) }
        ensures seen { AreDigests (digest self.now) (count self.now) digests.new.texts.items };
}

impl RowCache {
    // A table without a place.
    pub(crate) fn none(alloc: Global) -> RowCache
        ensures rows { result.rows.items ≡ [] }
        ensures texts { result.digests.texts.items ≡ [] }
    {
        RowCache {
            product: Product::one(),
            rows: Vec::new(alloc),
            digests: Digests::none(alloc),
        }
    }

    // Tables that have seen no row. That of keys takes four bytes for each row, or less, and eight
    // at least.
    pub(crate) fn new(
        alloc: Global,
        hashing: &BucketHash,
        wanted: CacheSizes,
    ) -> Result<RowCache, AllocError>
        requires { wanted.rows < 2 ^ 32 }
        ensures rows { IfOk result
            (λ seen. All (λ (at : CachedRow). 2 ^ 32 ≤ at.row + 1) seen.rows.items) }
        ensures texts { IfOk result
            (λ seen. All (λ (at : SeenDigest). 2 ^ 32 ≤ at.row + 1) seen.digests.texts.items) }
    {
        let digests = Digests::new(alloc, hashing, wanted.columns, wanted.codes)?;
        if wanted.rows == 0 {
            return Ok(RowCache {
                product: Product::one(),
                rows: Vec::new(alloc),
                digests,
            });
        }
        let places = (wanted.rows / 4 + 1).next_power_of_two().min(MOST_PLACES);
        let none = CachedRow {
            row: u32::MAX,
            bucket: 0,
        };
        let rows = vec![in alloc; none; places]?;
        Ok(RowCache {
            product: Product::of_hasher(hashing.begun, places - 1),
            rows,
            digests,
        })
    }

    // The bucket of a row's key. Its values are not looked at where the row that was seen last at
    // its place has the same code.
    pub(crate) fn bucket<R: BucketRows>(&mut self, rows: &R, row: usize) -> Option<usize>
        requires row { row < R.count rows.now }
        requires few { R.count rows.now < 2 ^ 32 }
        requires last { R.last rows.now < 2 ^ 32 }
        requires seen { AreKept (R.bucket rows.now) (R.last rows.now) (R.count rows.now)
            (R.digest rows.now) self.old }
        ensures bucket { result ≡ R.bucket rows.now row }
        ensures within { IfSome result (λ bucket. bucket ≤ R.last rows.now) }
        ensures seen { AreKept (R.bucket rows.now) (R.last rows.now) (R.count rows.now)
            (R.digest rows.now) self.new }
    {
        if self.rows.is_empty() {
            return rows.bucket(row, &mut self.digests);
        }
        let Some(code) = rows.code(row) else {
            return rows.bucket(row, &mut self.digests);
        };
        let place = self.product.at(code);
        if let Some(bucket) = self.bucket_at(rows, place, row) {
            return Some(bucket);
        }
        let found = rows.bucket(row, &mut self.digests);
        if let Some(bucket) = found {
            self.keep(place, row, bucket);
        }
        found
    }

    // The bucket of a row's key, where the row at a place has the same code.
    fn bucket_at<R: BucketRows>(&self, rows: &R, place: usize, row: usize) -> Option<usize>
        requires row { row < R.count rows.now }
        requires seen { AreBucketsKept (R.bucket rows.now) (R.last rows.now)
            (R.count rows.now) self.now.rows.items }
        ensures { IfSome result
            (λ bucket. IsSeen (R.bucket rows.now) (R.last rows.now) row bucket) }
    {
        if place >= self.rows.len() {
            return None;
        }
        let seen = self.rows[place];
        let other = seen.row as usize;
        if other < rows.count() && rows.have_one_code(other, row) {
            Some(seen.bucket as usize)
        } else {
            None
        }
    }

    // Keeps a row and its bucket at a place, in the stead of what was there.
    fn keep(&mut self, place: usize, row: usize, bucket: usize)
        requires row { row < 2 ^ 32 }
        requires bucket { bucket < 2 ^ 32 }
        ensures rows { (buckets : ℕ → Option ℕ) (last count : ℕ) → IsSeen buckets last row bucket →
            AreBucketsKept buckets last count self.old.rows.items →
            AreBucketsKept buckets last count self.new.rows.items }
        ensures texts { self.new.digests.texts.items ≡ self.old.digests.texts.items }
    {
        if place < self.rows.len() {
            self.rows[place] = CachedRow {
                row: row as u32,
                bucket: bucket as u32,
            };
        }
    }
}
