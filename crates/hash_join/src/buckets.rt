//! How keys are parted into buckets.

ghost use Rattle.std.specs.Prelude.{◌≡◌, ◌≤◌, ◌<◌, ◌^◌, IfSome, length};
ghost use Rattle.scan_base.specs.Value.{value_of};
ghost use Rattle.hash_join.specs.declared.buckets.Buckets.TheVariants as parted;
ghost use Rattle.hash_join.specs.Hashes.{last_of, bucket_of, digest_of, hashed_bucket, key_digest};
ghost use Rattle.hash_join.specs.KeyRows.{row_key, IsKeyRow};
ghost use Rattle.hash_join.specs.RowCache.{AreDigests};

use crate::digests::Digests;
use crate::key_row::{KeyRow, text_digest};
use crate::part_rows::PartRows;
use crate::product::Product;
use crate::ranks::Ranks;
use scan_base::ValueRef;
use std::hash::DefaultHasher;

// Buckets by the last bits, which the mask has, of a hash that begins with the hasher.
#[derive(Clone, Copy, Drop)]
pub(crate) struct BucketHash {
    pub(crate) begun: DefaultHasher,
    pub(crate) mask: usize,
}

// How keys are parted into buckets.
#[derive(Drop)]
pub(crate) enum Buckets {
    Hashed(BucketHash),
    Multiplied(Product),
    Ranked(Ranks),
}

impl Buckets {
    // The number of the last bucket.
    pub(crate) fn last(&self) -> usize
        ensures { result ≡ last_of self.now }
    {
        match self {
            Buckets::Hashed(hashing) => hashing.mask,
            Buckets::Multiplied(product) => product.mask,
            Buckets::Ranked(ranks) => ranks.last,
        }
    }

    // The bucket of a row's key; none where a part of it is null.
    pub(crate) fn bucket(&self, row: &KeyRow<'_>) -> Option<usize>
        requires { IsKeyRow row.now }
        ensures bucket { result ≡ bucket_of self.now (row_key row.now) }
        ensures within { IfSome result (λ bucket. bucket ≤ last_of self.now) }
    {
        match self {
            Buckets::Hashed(hashing) => hashing.bucket(row),
            Buckets::Multiplied(product) => product.bucket(row),
            Buckets::Ranked(ranks) => ranks.bucket(row),
        }
    }

    // The same, where digests of texts may be known. The row has this number among all rows.
    pub(crate) fn bucket_by<R: PartRows>(
        &self,
        rows: &R,
        number: usize,
        row: &KeyRow<'_>,
        digests: &mut Digests,
    ) -> Option<usize>
        requires number { number < R.count rows.now }
        requires few { R.count rows.now < 2 ^ 32 }
        requires row { IsKeyRow row.now }
        requires parts { length row.now.key.now ≡ R.parts rows.now }
        requires key { R.key rows.now number ≡ row_key row.now }
        requires seen { AreDigests (key_digest self.now (R.key rows.now))
            (R.count rows.now) digests.old.texts.items }
        ensures bucket { result ≡ bucket_of self.now (row_key row.now) }
        ensures within { IfSome result (λ bucket. bucket ≤ last_of self.now) }
        ensures seen { AreDigests (key_digest self.now (R.key rows.now))
            (R.count rows.now) digests.new.texts.items }
    {
        let Buckets::Hashed(hashing) = self else {
            return self.bucket(row);
        };
        match digests.hash(hashing, rows, number, row) {
            None => None,
            Some(hash) => Some(hash as usize & hashing.mask),
        }
    }
}

impl BucketHash {
    fn bucket(&self, row: &KeyRow<'_>) -> Option<usize>
        requires { IsKeyRow row.now }
        ensures bucket { result ≡ hashed_bucket self.now (row_key row.now) }
        ensures within { IfSome result (λ bucket. bucket ≤ self.now.mask) }
    {
        match row.hash_from(self.begun) {
            None => None,
            Some(hash) => Some(hash as usize & self.mask),
        }
    }

    // The digest of a value that is a text.
    pub(crate) fn digest(&self, value: ValueRef<'_>) -> Option<u64>
        ensures { result ≡ digest_of (parted.Hashed self.now) (value_of value.entry) }
    {
        match value {
            ValueRef::Text(text) => Some(text_digest(self.begun, text)),
            _ => None,
        }
    }
}
