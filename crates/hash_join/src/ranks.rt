//! Buckets by the number that is the key.

ghost use Rattle.std.specs.Prelude.{◌≡◌, ◌≤◌, ◌<◌, ◌+◌, ◌*◌, ◌/◌, ◌^◌, All, IfOk, IfSome, IsTrue};
ghost use Rattle.std.specs.Prelude.{Some, count_by, false, get_or, length, nat_lt, true};
ghost use Rattle.hash_join.specs.Ranks.{rank_at, AreCounts};

use crate::key_row::KeyRow;
use crate::marks::Marks;
use crate::numbers::take_numbers;
use crate::spans::Span;
use arrays::Batch;
use bitmap::Bits;
use std::alloc::{AllocError, Global};

// Which numbers of a span are right keys, and for each 64 of them how many right keys are before
// them. Each right key has a bucket by how many are before it; all other keys share the last. The
// bit after the span's is 0: it is that of all other numbers. There are bits up to a whole word.
#[derive(Drop)]
pub(crate) struct Ranks {
    pub(crate) span: Span,
    pub(crate) keys: Bits,
    pub(crate) before: Vec<u32>,
    pub(crate) last: usize,
    ghost all: { length keys ≡ 64 * (span.count / 64 + 1) },
    ghost end: { get_or keys span.count false ≡ false },
    ghost counts: { AreCounts keys before.items },
    ghost some: { last ≡ count_by (λ bit. bit) keys },
}

impl Ranks {
    ghost use Rattle.std.specs.List.{list_all};
    ghost use Rattle.arrays.specs.Batch.{BatchAt};
    ghost use Rattle.hash_join.specs.Hashes.{bucket_among, is_key, number_of, own_bucket};
    ghost use Rattle.hash_join.specs.Hashes.{ranked_bucket};
    ghost use Rattle.hash_join.specs.KeyRows.{row_key, IsKeyRow};

    // The ranks of the keys of these batches among the numbers of a span.
    pub(crate) fn of(
        alloc: Global,
        span: Span,
        batches: &[Batch],
        key: &[usize],
    ) -> Result<Ranks, AllocError>
        requires there { All (λ (batch : BatchAt). IsTrue
            (list_all (λ column. nat_lt column (length batch.columns)) key.now)) batches.now }
        requires single { length key.now ≡ 1 }
        requires few { span.count < 2 ^ 30 }
        ensures { IfOk result (λ ranks. ranks.last < 2 ^ 31) }
    {
        let mut marks = Marks::new(alloc, span)?;
        for batch in batches {
            take_numbers(batch, key, &mut marks);
        }
        let span = marks.span;
        let keys = marks.into_bits()?;
        let before = counts_before(alloc, &keys)?;
        let last = keys.count();
        Ok(Ranks {
            span,
            keys,
            before,
            last,
        })
    }

    // The bucket of a row's key; none where a part of it is null.
    #[tactic(auto, using(crate::proofs::EqualKeys::number_known))]
    pub(crate) fn bucket(&self, row: &KeyRow<'_>) -> Option<usize>
        requires { IsKeyRow row.now }
        ensures bucket { result ≡ ranked_bucket self.now (row_key row.now) }
        ensures within { IfSome result (λ bucket. bucket ≤ self.now.last) }
    {
        match row.number() {
            Some(number) => Some(self.bucket_among(number)),
            None if row.has_null() => None,
            None => Some(self.last),
        }
    }

    // The bucket of a number.
    pub(crate) fn bucket_among(&self, number: i128) -> usize
        ensures bucket { result ≡ bucket_among self.now (Some number) }
        ensures within { result ≤ self.now.last }
    {
        match self.own_bucket(number) {
            None => self.last,
            Some(bucket) => bucket,
        }
    }

    // Whether a number is a right key.
    pub(crate) fn is_key(&self, number: i128) -> bool
        ensures { result ≡ is_key self.now number }
    {
        self.keys.get(self.span.place(number))
    }

    // The bucket of a number that is a right key.
    pub(crate) fn key_bucket(&self, number: i128) -> usize
        requires { is_key self.now number ≡ true }
        ensures bucket { result ≡ bucket_among self.now (Some number) }
        ensures within { result ≤ self.now.last }
    {
        self.rank(self.span.place(number))
    }

    // The bucket of a number, where no other key has it.
    pub(crate) fn own_bucket(&self, number: i128) -> Option<usize>
        ensures bucket { result ≡ own_bucket self.now number }
        ensures within { IfSome result (λ bucket. bucket < self.now.last) }
    {
        if self.is_key(number) {
            Some(self.rank(self.span.place(number)))
        } else {
            None
        }
    }

    // How many right keys are before a place.
    fn rank(&self, place: usize) -> usize
        requires { place ≤ self.now.span.count }
        ensures { result ≡ rank_at self.now.keys place }
    {
        let word = place / 64;
        let below = self.keys.word(64 * word) & ((1 << (place % 64)) - 1);
        self.before[word] as usize + below.count_ones() as usize
    }
}

// For each 64 bits how many of those before them are 1.
fn counts_before(alloc: Global, bits: &Bits) -> Result<Vec<u32>, AllocError>
    requires { length bits.now < 2 ^ 31 }
    ensures { IfOk result (λ before. AreCounts bits.now before.items) }
{
    let words = bits.len() / 64;
    let mut before = Vec::with_capacity(alloc, words + 1)?;
    let mut ones = 0usize;
    for word in 0..words {
        before.push(ones as u32)?;
        ones += bits.count_range(64 * word, 64);
    }
    before.push(ones as u32)?;
    Ok(before)
}
