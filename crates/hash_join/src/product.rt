//! Buckets by a product of the number that is the key.

ghost use Rattle.std.specs.Prelude.{◌≡◌, ◌≤◌, ◌<◌, IfSome};

use crate::key_row::KeyRow;
use scan_base::HashSeed;
use std::hash::{BuildHasher, DefaultHasher, Hasher};

// Buckets by the first bits of a sum: of the products of a number's halves with two secret numbers.
// Keys that are no number share the first.
#[derive(Clone, Copy, Drop)]
pub(crate) struct Product {
    pub(crate) odd: u64,
    pub(crate) high: u64,
    pub(crate) shift: u32,
    pub(crate) mask: usize,
    ghost small: { shift < 64 },
}

impl Product {
    ghost use Rattle.hash_join.specs.Hashes.{product_at, product_bucket};
    ghost use Rattle.hash_join.specs.KeyRows.{row_key, IsKeyRow};

    // As many buckets as the bits of the mask name, by a product with what the seed hides.
    pub(crate) fn new(seed: HashSeed, mask: usize) -> Product
        ensures { result.mask ≡ mask }
    {
        Product::of_hasher(seed.build_hasher(), mask)
    }

    // The same, with what a hasher hides that has taken in the seed.
    pub(crate) fn of_hasher(hasher: DefaultHasher, mask: usize) -> Product
        ensures { result.mask ≡ mask }
    {
        let mut second = hasher;
        second.write_u8(1);
        Product {
            odd: hasher.finish() | 1,
            high: second.finish() | 1,
            shift: mask.leading_zeros().min(63),
            mask,
        }
    }

    // One bucket.
    pub(crate) fn one() -> Product {
        Product {
            odd: 1,
            high: 1,
            shift: 63,
            mask: 0,
        }
    }

    // The bucket of a row's key; none where a part of it is null.
    #[tactic(auto, using(crate::proofs::EqualKeys::number_known))]
    pub(crate) fn bucket(&self, row: &KeyRow<'_>) -> Option<usize>
        requires { IsKeyRow row.now }
        ensures bucket { result ≡ product_bucket self.now (row_key row.now) }
        ensures within { IfSome result (λ bucket. bucket ≤ self.now.mask) }
    {
        match row.number() {
            Some(number) => Some(self.at(number)),
            None if row.has_null() => None,
            None => Some(0),
        }
    }

    // The bucket of a number.
    pub(crate) fn at(&self, number: i128) -> usize
        ensures place { result ≡ product_at self.now number }
        ensures within { result ≤ self.now.mask }
    {
        let bits = number.cast_unsigned();
        let low = (bits % (1 << 64)) as u64;
        let high = (bits >> 64) as u64;
        let sum = low
            .wrapping_mul(self.odd)
            .wrapping_add(high.wrapping_mul(self.high));
        (sum >> self.shift) as usize & self.mask
    }
}
