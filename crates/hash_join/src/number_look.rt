//! What one look at the right side tells of a number.

ghost use Rattle.std.specs.Prelude.{◌≡◌, ◌+◌, ℕ, ℤ, Bool, get_or, length, nat_lt, true};
ghost use Rattle.hash_join.specs.declared.number_look.BucketKind.{BucketKind as ToldOf};

use crate::product::Product;
use crate::ranks::Ranks;

// What is known of the bucket of a key.
#[derive(Clone, Copy, Drop)]
pub(crate) enum BucketKind {
    Nothing,
    // The bucket, whose right rows may have other keys.
    Shared(usize),
    // The bucket, whose right rows all have this key.
    Own(usize),
}

// What one look tells of a number.
pub(crate) trait Look {
    ghost passes: { Self → ℤ → Bool };

    ghost told: { Self → ℤ → ToldOf };

    ghost head: { Self → ℤ → ℕ };

    ghost own: { Self → Bool };

    // Whether a right row may have the number.
    fn passes(&self, number: i128) -> bool
        ensures { result ≡ passes self.now number };

    // What is known of its bucket.
    fn tell(&self, number: i128) -> BucketKind
        ensures { result ≡ told self.now number };

    // The first row of its bucket's chain, where it passes.
    fn head(&self, number: i128) -> u32
        requires { passes self.now number ≡ true }
        ensures { result ≡ head self.now number };

    // Whether the right rows of a bucket all have the number, where it passes.
    fn is_own(&self) -> bool
        ensures { result ≡ own self.now };
}

// The chains of buckets by ranks.
#[derive(Clone, Copy, Drop)]
pub(crate) struct RankHeads<'a> {
    pub(crate) ranks: &'a Ranks,
    pub(crate) heads: &'a [u32],
    ghost all: { length heads.now ≡ ranks.now.last + 1 },
}

impl<'a> Look for RankHeads<'a> {
    ghost use Rattle.std.specs.Prelude.{Some};
    ghost use Rattle.hash_join.specs.Hashes.{bucket_among, is_key};
    ghost use Rattle.hash_join.specs.Looks.{ranks_told};

    ghost passes = { λ all number. is_key all.ranks.now number };

    ghost told = { λ all number. ranks_told all.ranks.now number };

    ghost head = { λ all number. get_or all.heads.now
        (bucket_among all.ranks.now (Some number)) 0 };

    ghost own = { λ _. true };

    fn passes(&self, number: i128) -> bool {
        self.ranks.is_key(number)
    }

    fn tell(&self, number: i128) -> BucketKind {
        match self.ranks.own_bucket(number) {
            None => BucketKind::Nothing,
            Some(bucket) => BucketKind::Own(bucket),
        }
    }

    fn head(&self, number: i128) -> u32 {
        self.heads[self.ranks.key_bucket(number)]
    }

    fn is_own(&self) -> bool {
        true
    }
}

// The chains of buckets by a product, and how many right rows there are.
#[derive(Clone, Copy, Drop)]
pub(crate) struct ProductHeads<'a> {
    pub(crate) product: Product,
    pub(crate) heads: &'a [u32],
    pub(crate) count: usize,
    ghost all: { length heads.now ≡ product.mask + 1 },
}

impl<'a> Look for ProductHeads<'a> {
    ghost use Rattle.std.specs.Prelude.{false};
    ghost use Rattle.hash_join.specs.declared.number_look.BucketKind.TheVariants as known;
    ghost use Rattle.hash_join.specs.Hashes.{product_at};

    ghost passes = { λ all number. nat_lt (get_or all.heads.now (product_at all.product number) 0)
        all.count };

    ghost told = { λ all number. known.Shared (product_at all.product number) };

    ghost head = { λ all number. get_or all.heads.now (product_at all.product number) 0 };

    ghost own = { λ _. false };

    fn passes(&self, number: i128) -> bool {
        (self.heads[self.product.at(number)] as usize) < self.count
    }

    fn tell(&self, number: i128) -> BucketKind {
        BucketKind::Shared(self.product.at(number))
    }

    fn head(&self, number: i128) -> u32 {
        self.heads[self.product.at(number)]
    }

    fn is_own(&self) -> bool {
        false
    }
}
