//! The rows of a left batch, none of which is passed over.

ghost use Rattle.std.specs.Prelude.{false, true};
ghost use Rattle.hash_join.specs.declared.number_look.BucketKind.TheVariants as known;
ghost use Rattle.hash_join.specs.Searches.{IsSearch};

use crate::buckets::Buckets;
use crate::digests::Digests;
use crate::key_codes::{any_codes, columns_of, has_codes, most_codes};
use crate::key_row::KeyRow;
use crate::number_look::BucketKind;
use crate::pair_cache::PairCache;
use crate::part_rows::BatchRows;
use crate::row_cache::{BucketRows, CacheSizes, RowCache};
use crate::search::Search;
use crate::sieve::Sieve;
use std::alloc::{AllocError, Global};

// The rows of a left batch, each of which passes.
#[derive(Clone, Copy, Drop)]
pub(crate) struct AllRows<'a> {
    pub(crate) search: Search<'a>,
    ghost whole: { IsSearch search },
}

impl<'a> BucketRows for AllRows<'a> {
    ghost use Rattle.hash_join.specs.Hashes.{last_of};
    ghost use Rattle.hash_join.specs.Searches.{walk_at};
    ghost use Rattle.hash_join.specs.Walks.{bucket_left, digest_left};

    ghost count = { λ rows. rows.search.left.batch.now.rows };

    ghost bucket = { λ rows row. bucket_left (walk_at rows.search row) };

    ghost last = { λ rows. last_of rows.search.rights.now.buckets };

    ghost digest = { λ rows. digest_left (walk_at rows.search 0) };

    fn count(&self) -> usize {
        self.search.left.batch.rows()
    }

    fn code(&self, row: usize) -> Option<i128> {
        self.search.left_row(row).code()
    }

    fn have_one_code(&self, row: usize, other: usize) -> bool {
        self.search.left_row(row).has_code_of(other)
    }

    fn bucket(&self, row: usize, digests: &mut Digests) -> Option<usize> {
        let left = KeyRow {
            batch: self.search.left.batch,
            key: self.search.left.key,
            row,
        };
        let rows = BatchRows { at: left };
        let buckets = &self.search.rights.buckets;
        buckets.bucket_by(&rows, row, &left, digests)
    }
}

impl<'a> Sieve for AllRows<'a> {
    ghost use Rattle.hash_join.specs.Hashes.{last_of};
    ghost use Rattle.hash_join.specs.Searches.{first_right, walk_at};
    ghost use Rattle.hash_join.specs.Walks.{bucket_left, digest_left};

    ghost count = { λ rows. rows.search.left.batch.now.rows };

    ghost passes = { λ _ _. true };

    ghost told = { λ _ _. known.Nothing };

    ghost head = { λ rows row. first_right rows.search row };

    ghost own = { λ _. false };

    ghost bucket = { λ rows row. bucket_left (walk_at rows.search row) };

    ghost last = { λ rows. last_of rows.search.rights.now.buckets };

    ghost digest = { λ rows. digest_left (walk_at rows.search 0) };

    fn passes(&self, _row: usize) -> bool {
        true
    }

    fn word(&self, _from: usize, rows: usize) -> u64 {
        if rows == 64 {
            u64::MAX
        } else {
            (1 << rows) - 1
        }
    }

    fn tell(&self, _row: usize) -> BucketKind {
        BucketKind::Nothing
    }

    fn seen_rows(&self, alloc: Global) -> Result<RowCache, AllocError> {
        let Buckets::Hashed(hashing) = &self.search.rights.buckets else {
            return Ok(RowCache::none(alloc));
        };
        let (batch, key) = (self.search.left.batch, self.search.left.key);
        let rows = batch.rows();
        let wanted = CacheSizes {
            rows: if has_codes(batch, key) { rows } else { 0 },
            columns: columns_of(key),
            codes: most_codes(batch, key).min(rows),
        };
        RowCache::new(alloc, hashing, wanted)
    }

    fn compared(&self, alloc: Global) -> PairCache {
        let (batch, key) = (self.search.left.batch, self.search.left.key);
        match &self.search.rights.buckets {
            Buckets::Hashed(hashing) if any_codes(batch, key) => {
                PairCache::new(alloc, hashing, batch.rows())
            }
            _ => PairCache::none(alloc),
        }
    }

    fn head(&self, row: usize, seen: &mut RowCache) -> u32 {
        match seen.bucket(self, row) {
            None => self.search.rights.places.len() as u32,
            Some(bucket) => self.search.chains.heads[bucket],
        }
    }

    fn is_own(&self) -> bool {
        false
    }
}
