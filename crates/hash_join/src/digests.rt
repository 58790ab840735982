//! Digests of texts that are parts of keys, by the codes of the texts.

ghost use Rattle.std.specs.Prelude.{◌≡◌, ◌≤◌, ◌<◌, ◌+◌, ◌^◌, ℕ, [], All, IfOk, IfSome, Option};
ghost use Rattle.std.specs.Prelude.{Some, length};
ghost use Rattle.hash_join.specs.declared.buckets.Buckets.{Buckets as BucketsAt};
ghost use Rattle.hash_join.specs.declared.buckets.Buckets.TheVariants as parted;
ghost use Rattle.hash_join.specs.Hashes.{hash_of, key_digest};
ghost use Rattle.hash_join.specs.KeyRows.{row_key, IsKeyRow};
ghost use Rattle.hash_join.specs.RowCache.{AreDigests};

use crate::buckets::BucketHash;
use crate::key_row::{KeyRow, feed_part};
use crate::part_rows::PartRows;
use crate::product::Product;
use std::alloc::{AllocError, Global};
use std::hash::{Hash, Hasher};

// No table has more places: 16 MB.
const MOST_DIGESTS: usize = 1_048_576;

// A table begins with no more places, 16 KB, and grows as texts are met. So who looks at few rows
// pays for few.
const FIRST_DIGESTS: usize = 1_024;

// A table that grows has so many times the places that it had.
const GROWTH: usize = 8;

// A row that was seen, a part of its key that is a text, and the digest of the text.
#[derive(Clone, Copy, Drop)]
pub(crate) struct SeenDigest {
    pub(crate) row: u32,
    pub(crate) part: u32,
    pub(crate) digest: u64,
}

// For each place the row whose part, of a code of a dictionary, fell there last. A code of a column
// has a place of its own where there are places for all. Else a product tells its place, and the
// table may forget a row. Who asks looks whether that row has the same code, in a part of the same
// column.
#[derive(Drop)]
pub(crate) struct Digests {
    alloc: Global,
    product: Product,
    columns: usize,
    most: usize,
    taken: usize,
    pub(crate) texts: Vec<SeenDigest>,
}

// Places that know no digest.
fn free_places(alloc: Global, count: usize) -> Result<Vec<SeenDigest>, AllocError>
    ensures { IfOk result (λ texts. All (λ (at : SeenDigest). 2 ^ 32 ≤ at.row + 1) texts.items) }
{
    let none = SeenDigest {
        row: u32::MAX,
        part: 0,
        digest: 0,
    };
    Ok(vec![in alloc; none; count]?)
}

impl Digests {
    // A table without a place.
    pub(crate) fn none(alloc: Global) -> Digests
        ensures { result.texts.items ≡ [] }
    {
        Digests {
            alloc,
            product: Product::one(),
            columns: 1,
            most: 0,
            taken: 0,
            texts: Vec::new(alloc),
        }
    }

    // A table that grows to a place of 16 bytes for each of so many codes in each of so many
    // columns, or to as many places as a table has at most.
    pub(crate) fn new(
        alloc: Global,
        hashing: &BucketHash,
        columns: usize,
        codes: usize,
    ) -> Result<Digests, AllocError>
        ensures { IfOk result
            (λ digests. All (λ (at : SeenDigest). 2 ^ 32 ≤ at.row + 1) digests.texts.items) }
    {
        if codes == 0 {
            return Ok(Digests::none(alloc));
        }
        let wanted = columns.min(MOST_DIGESTS) * codes.min(MOST_DIGESTS);
        let most = wanted.min(MOST_DIGESTS).next_power_of_two();
        let places = most.min(FIRST_DIGESTS);
        Ok(Digests {
            alloc,
            product: Product::of_hasher(hashing.begun, places - 1),
            columns,
            most,
            taken: 0,
            texts: free_places(alloc, places)?,
        })
    }

    // Makes more places where half of them were taken. They know nothing yet. Where memory is
    // refused, there are none from then on.
    fn make_room(&mut self, hashing: &BucketHash)
        ensures { (digests : ℕ → ℕ → Option ℕ) (count : ℕ) → count < 2 ^ 32 →
            AreDigests digests count self.old.texts.items →
            AreDigests digests count self.new.texts.items }
    {
        let places = self.texts.len();
        if places == 0 || places >= self.most || self.taken <= places / 2 {
            return;
        }
        let more = self.most.min(GROWTH * places);
        self.taken = 0;
        self.texts = Vec::new(self.alloc);
        if let Ok(texts) = free_places(self.alloc, more) {
            self.product = Product::of_hasher(hashing.begun, more - 1);
            self.texts = texts;
        }
    }

    // The hash of a row's key; none where a part of it is null. The text of a code that was seen is
    // not looked at.
    pub(crate) fn hash<R: PartRows>(
        &mut self,
        hashing: &BucketHash,
        rows: &R,
        row: usize,
        at: &KeyRow<'_>,
    ) -> Option<u64>
        requires row { row < R.count rows.now }
        requires few { R.count rows.now < 2 ^ 32 }
        requires at { IsKeyRow at.now }
        requires parts { length at.now.key.now ≡ R.parts rows.now }
        requires key { R.key rows.now row ≡ row_key at.now }
        requires seen { AreDigests (key_digest (parted.Hashed hashing.now) (R.key rows.now))
            (R.count rows.now) self.old.texts.items }
        ensures hash { result ≡ hash_of hashing.now.begun (row_key at.now) }
        ensures seen { AreDigests (key_digest (parted.Hashed hashing.now) (R.key rows.now))
            (R.count rows.now) self.new.texts.items }
    {
        if self.texts.is_empty() || at.key.len() == 1 {
            return at.hash_from(hashing.begun);
        }
        let mut hasher = hashing.begun;
        for part in 0..at.key.len() {
            let fed = match self.digest(hashing, rows, row, part) {
                Some(digest) => {
                    digest.hash(&mut hasher);
                    true
                }
                None => feed_part(hashing.begun, &mut hasher, at.part(part)),
            };
            if !fed {
                return None;
            }
        }
        Some(hasher.finish())
    }

    // The digest of a part of a row's key, where it has a code.
    fn digest<R: PartRows>(
        &mut self,
        hashing: &BucketHash,
        rows: &R,
        row: usize,
        part: usize,
    ) -> Option<u64>
        requires row { row < R.count rows.now }
        requires few { R.count rows.now < 2 ^ 32 }
        requires part { part < R.parts rows.now }
        requires seen { AreDigests (key_digest (parted.Hashed hashing.now) (R.key rows.now))
            (R.count rows.now) self.old.texts.items }
        ensures digest { IfSome result
            (λ digest. key_digest (parted.Hashed hashing.now) (R.key rows.now) row part
            ≡ Some digest) }
        ensures seen { AreDigests (key_digest (parted.Hashed hashing.now) (R.key rows.now))
            (R.count rows.now) self.new.texts.items }
    {
        let Some(code) = rows.part_code(row, part) else {
            return None;
        };
        let column = rows.part_column(part);
        let place = self.place(code, column);
        if let Some(digest) = self.digest_at(rows, place, row, part) {
            return Some(digest);
        }
        let found = hashing.digest(rows.part(row, part));
        if let Some(digest) = found {
            self.make_room(hashing);
            self.keep(self.place(code, column), row, part, digest);
        }
        found
    }

    // The place of a column's code: one of its own where there are enough. No contract rests on it.
    fn place(&self, code: i128, column: usize) -> usize {
        let number = code
            .wrapping_mul(self.columns as i128)
            .wrapping_add(column as i128);
        match usize::try_from(number) {
            Ok(place) if place < self.texts.len() => place,
            _ => self.product.at(number),
        }
    }

    // The digest of a part of a row's key, where the row at a place has the same code, in a part of
    // the same column.
    fn digest_at<R: PartRows>(&self, rows: &R, place: usize, row: usize, part: usize) -> Option<u64>
        requires row { row < R.count rows.now }
        requires part { part < R.parts rows.now }
        ensures { (buckets : BucketsAt) → AreDigests (key_digest buckets (R.key rows.now))
            (R.count rows.now) self.now.texts.items →
            IfSome result (λ digest. key_digest buckets (R.key rows.now) row part ≡ Some digest) }
    {
        if place >= self.texts.len() {
            return None;
        }
        let seen = self.texts[place];
        let other = seen.row as usize;
        if other < rows.row_count()
            && rows.is_one_column(part, seen.part as usize)
            && rows.have_part_code(other, row, part)
        {
            Some(seen.digest)
        } else {
            None
        }
    }

    // Keeps the digest of a part of a row's key at a place, in the stead of what was there.
    fn keep(&mut self, place: usize, row: usize, part: usize, digest: u64)
        requires row { row < 2 ^ 32 }
        ensures { (digests : ℕ → ℕ → Option ℕ) (count : ℕ) → digests row part ≡ Some digest →
            AreDigests digests count self.old.texts.items →
            AreDigests digests count self.new.texts.items }
    {
        let Ok(number) = u32::try_from(part) else {
            return;
        };
        if place < self.texts.len() {
            self.taken = self.taken.saturating_add(1);
            self.texts[place] = SeenDigest {
                row: row as u32,
                part: number,
                digest,
            };
        }
    }
}
