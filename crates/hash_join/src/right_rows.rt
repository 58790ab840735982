//! The rows of a right side, whose keys have buckets.

ghost use Rattle.std.specs.Prelude.{length};
ghost use Rattle.hash_join.specs.Hashes.{last_of};
ghost use Rattle.hash_join.specs.Rights.{bucket_at, digest_at, key_at, AreRights};

use crate::digests::Digests;
use crate::part_rows::{PartRows, are_one_column};
use crate::rights::Rights;
use crate::row_cache::BucketRows;
use scan_base::ValueRef;

// The rows of a right side by their numbers.
#[derive(Clone, Copy, Drop)]
pub(crate) struct RightRows<'a> {
    pub(crate) rights: &'a Rights,
    ghost whole: { AreRights rights.now },
}

impl<'a> BucketRows for RightRows<'a> {
    ghost count = { λ rows. length rows.rights.now.places.items };

    ghost bucket = { λ rows number. bucket_at rows.rights.now number };

    ghost last = { λ rows. last_of rows.rights.now.buckets };

    ghost digest = { λ rows. digest_at rows.rights.now };

    fn count(&self) -> usize {
        self.rights.places.len()
    }

    fn code(&self, row: usize) -> Option<i128> {
        self.rights.key_row(row).code()
    }

    fn have_one_code(&self, row: usize, other: usize) -> bool {
        self.rights.have_one_code(row, other)
    }

    fn bucket(&self, row: usize, digests: &mut Digests) -> Option<usize> {
        let right = self.rights.key_row(row);
        self.rights.buckets.bucket_by(self, row, &right, digests)
    }
}

impl<'a> PartRows for RightRows<'a> {
    ghost count = { λ rows. length rows.rights.now.places.items };

    ghost parts = { λ rows. length rows.rights.now.key.items };

    ghost key = { λ rows. key_at rows.rights.now };

    fn row_count(&self) -> usize {
        self.rights.places.len()
    }

    fn part_count(&self) -> usize {
        self.rights.key.len()
    }

    fn batch_number(&self, row: usize) -> usize {
        self.rights.places[row].0 as usize
    }

    fn part(&self, row: usize, part: usize) -> ValueRef<'_> {
        self.rights.key_row(row).part(part)
    }

    fn part_column(&self, part: usize) -> usize {
        self.rights.key[part]
    }

    fn is_one_column(&self, part: usize, other: usize) -> bool {
        are_one_column(self.rights.key.as_slice(), part, other)
    }

    fn part_code(&self, row: usize, part: usize) -> Option<i128> {
        self.rights.key_row(row).part_code(part)
    }

    fn have_part_code(&self, row: usize, other: usize, part: usize) -> bool {
        self.rights.have_part_code(row, other, part)
    }
}
