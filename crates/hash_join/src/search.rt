//! A left batch whose rows look for their partners.

ghost use Rattle.std.specs.Prelude.{◌≡◌, ◌≤◌, ◌<◌, ◌++◌, ◌==◌, [], IfOk, get_or, length, nat_le};
ghost use Rattle.hash_join.specs.declared.buckets.Buckets.TheVariants as parted;
ghost use Rattle.hash_join.specs.Hashes.{last_of};
ghost use Rattle.hash_join.specs.KeyRows.{IsKeyRow};
ghost use Rattle.hash_join.specs.PairCache.{HasCompared};
ghost use Rattle.hash_join.specs.Walks.{pairs_past};
ghost use Rattle.hash_join.specs.Searches.{ahead_of, walk_at, AreHeads, AreKeysOf, IsSearch};
ghost use Rattle.hash_join.specs.Searches.{Passes, Tells, TellsNumbers};

use crate::all_rows::AllRows;
use crate::buckets::Buckets;
use crate::build::{LeftSide, Probe};
use crate::chains::Chains;
use crate::key_row::KeyRow;
use crate::number_look::{BucketKind, Look, ProductHeads, RankHeads};
use crate::pair_cache::PairOutput;
use crate::product::Product;
use crate::ranks::Ranks;
use crate::rights::Rights;
use crate::sieve::{NumberRows, Sieve};
use crate::walk::Walk;
use arrays::{Cells, Integer, Integers, Layout};
use arrow_types::IntegerType;
use std::alloc::{AllocError, Global};
use std::marker::PhantomData;

// A left batch, and the right rows with their chains.
#[derive(Clone, Copy, Drop)]
pub(crate) struct Search<'a> {
    pub(crate) alloc: Global,
    pub(crate) rights: &'a Rights,
    pub(crate) chains: &'a Chains,
    pub(crate) left: LeftSide<'a>,
}

// Left keys that are integers of one column, and what tells of a number.
#[derive(Drop)]
pub(crate) struct NumberKeys<'a, L: Look> {
    pub(crate) cells: Integers<'a>,
    pub(crate) first: usize,
    pub(crate) look: &'a L,
}

impl<'a> Search<'a> {
    // Adds the next pairs until there are `most`, and gives where it stopped: before the last pair
    // only where there are.
    pub(crate) fn push_pairs(
        &self,
        probe: &Probe,
        most: usize,
        made: &mut PairOutput,
    ) -> Result<Probe, AllocError>
        requires whole { IsSearch self.now }
        requires few { length made.old.pairs.items ≤ most }
        ensures given { IfOk result (λ stop. made.new.pairs.items ++ ahead_of self.now stop
            ≡ made.old.pairs.items ++ ahead_of self.now probe.now) }
        ensures few { IfOk result (λ _. length made.new.pairs.items ≤ most) }
        ensures ended { IfOk result
            (λ stop. length made.new.pairs.items < most → ahead_of self.now stop ≡ []) }
    {
        match &self.rights.buckets {
            Buckets::Ranked(ranks) if self.has_one_part() && self.is_empty(ranks.last) => {
                self.push_ranks(ranks, probe, most, made)
            }
            Buckets::Multiplied(product) if self.has_one_part() => {
                self.push_products(*product, probe, most, made)
            }
            _ => self.push_all(probe, most, made),
        }
    }

    // Whether the left key is one column.
    fn has_one_part(&self) -> bool
        ensures { result ≡ (length (self.now).left.key.now == 1) }
    {
        self.left.key.len() == 1
    }

    // Whether the chain of a bucket has no row.
    fn is_empty(&self, bucket: usize) -> bool
        requires whole { IsSearch self.now }
        requires within { bucket ≤ last_of (self.now).rights.now.buckets }
        ensures { result ≡ nat_le (length (self.now).rights.now.places.items)
            (get_or (self.now).chains.now.heads.items bucket 0) }
    {
        self.chains.heads[bucket] as usize >= self.rights.places.len()
    }

    // The same, where each row is looked up.
    fn push_all(
        &self,
        probe: &Probe,
        most: usize,
        made: &mut PairOutput,
    ) -> Result<Probe, AllocError>
        requires whole { IsSearch self.now }
        requires few { length made.old.pairs.items ≤ most }
        ensures given { IfOk result (λ stop. made.new.pairs.items ++ ahead_of self.now stop
            ≡ made.old.pairs.items ++ ahead_of self.now probe.now) }
        ensures few { IfOk result (λ _. length made.new.pairs.items ≤ most) }
        ensures ended { IfOk result
            (λ stop. length made.new.pairs.items < most → ahead_of self.now stop ≡ []) }
    {
        let sieve = AllRows { search: *self };
        self.push_pieces(&sieve, probe, most, made)
    }

    // The same, where the right keys are parted by ranks, the left key is one column, and all right
    // keys have their own bucket.
    fn push_ranks(
        &self,
        ranks: &Ranks,
        probe: &Probe,
        most: usize,
        made: &mut PairOutput,
    ) -> Result<Probe, AllocError>
        requires whole { IsSearch self.now }
        requires parted { (self.now).rights.now.buckets ≡ parted.Ranked ranks.now }
        requires own { length (self.now).rights.now.places.items
            ≤ get_or (self.now).chains.now.heads.items ranks.now.last 0 }
        requires single { length (self.now).left.key.now ≡ 1 }
        requires few { length made.old.pairs.items ≤ most }
        ensures given { IfOk result (λ stop. made.new.pairs.items ++ ahead_of self.now stop
            ≡ made.old.pairs.items ++ ahead_of self.now probe.now) }
        ensures few { IfOk result (λ _. length made.new.pairs.items ≤ most) }
        ensures ended { IfOk result
            (λ stop. length made.new.pairs.items < most → ahead_of self.now stop ≡ []) }
    {
        let heads = RankHeads {
            ranks,
            heads: self.chains.heads.as_slice(),
        };
        self.push_numbers(&heads, probe, most, made)
    }

    // The same, where the right keys are parted by a product, and the left key is one column.
    fn push_products(
        &self,
        product: Product,
        probe: &Probe,
        most: usize,
        made: &mut PairOutput,
    ) -> Result<Probe, AllocError>
        requires whole { IsSearch self.now }
        requires parted { (self.now).rights.now.buckets ≡ parted.Multiplied product }
        requires single { length (self.now).left.key.now ≡ 1 }
        requires few { length made.old.pairs.items ≤ most }
        ensures given { IfOk result (λ stop. made.new.pairs.items ++ ahead_of self.now stop
            ≡ made.old.pairs.items ++ ahead_of self.now probe.now) }
        ensures few { IfOk result (λ _. length made.new.pairs.items ≤ most) }
        ensures ended { IfOk result
            (λ stop. length made.new.pairs.items < most → ahead_of self.now stop ≡ []) }
    {
        let heads = ProductHeads {
            product,
            heads: self.chains.heads.as_slice(),
            count: self.rights.places.len(),
        };
        self.push_numbers(&heads, probe, most, made)
    }

    // The same, where the left key is one column, whose numbers are looked at.
    fn push_numbers<L: Look>(
        &self,
        look: &L,
        probe: &Probe,
        most: usize,
        made: &mut PairOutput,
    ) -> Result<Probe, AllocError>
        requires whole { IsSearch self.now }
        requires look { TellsNumbers self.now (L.passes look.now) (L.told look.now)
            (L.head look.now) (L.own look.now) }
        requires single { length (self.now).left.key.now ≡ 1 }
        requires few { length made.old.pairs.items ≤ most }
        ensures given { IfOk result (λ stop. made.new.pairs.items ++ ahead_of self.now stop
            ≡ made.old.pairs.items ++ ahead_of self.now probe.now) }
        ensures few { IfOk result (λ _. length made.new.pairs.items ≤ most) }
        ensures ended { IfOk result
            (λ stop. length made.new.pairs.items < most → ahead_of self.now stop ≡ []) }
    {
        let column = &self.left.batch.columns()[self.left.key[0]];
        let _count = column.len();
        match column.layout() {
            Layout::Integers(cells) => {
                let keys = NumberKeys {
                    cells,
                    first: column.first(),
                    look,
                };
                self.push_keys(keys, probe, most, made)
            }
            _ => self.push_all(probe, most, made),
        }
    }

    // The same, where the left keys are integers of one column.
    fn push_keys<L: Look>(
        &self,
        keys: NumberKeys<'_, L>,
        probe: &Probe,
        most: usize,
        made: &mut PairOutput,
    ) -> Result<Probe, AllocError>
        requires whole { IsSearch self.now }
        requires keys { AreKeysOf self.now keys.cells keys.first }
        requires look { TellsNumbers self.now (L.passes keys.look.now) (L.told keys.look.now)
            (L.head keys.look.now) (L.own keys.look.now) }
        requires few { length made.old.pairs.items ≤ most }
        ensures given { IfOk result (λ stop. made.new.pairs.items ++ ahead_of self.now stop
            ≡ made.old.pairs.items ++ ahead_of self.now probe.now) }
        ensures few { IfOk result (λ _. length made.new.pairs.items ≤ most) }
        ensures ended { IfOk result
            (λ stop. length made.new.pairs.items < most → ahead_of self.now stop ≡ []) }
    {
        match keys.cells.integer_type() {
            IntegerType::Int8 => self.push_as::<i8, L>(keys, probe, most, made),
            IntegerType::Int16 => self.push_as::<i16, L>(keys, probe, most, made),
            IntegerType::Int32 => self.push_as::<i32, L>(keys, probe, most, made),
            IntegerType::Int64 => self.push_as::<i64, L>(keys, probe, most, made),
            IntegerType::UInt8 => self.push_as::<u8, L>(keys, probe, most, made),
            IntegerType::UInt16 => self.push_as::<u16, L>(keys, probe, most, made),
            IntegerType::UInt32 => self.push_as::<u32, L>(keys, probe, most, made),
            IntegerType::UInt64 => self.push_as::<u64, L>(keys, probe, most, made),
        }
    }

    // The same for integers of a type.
    fn push_as<E: Integer, L: Look>(
        &self,
        keys: NumberKeys<'_, L>,
        probe: &Probe,
        most: usize,
        made: &mut PairOutput,
    ) -> Result<Probe, AllocError>
        requires whole { IsSearch self.now }
        requires keys { AreKeysOf self.now keys.cells keys.first }
        requires look { TellsNumbers self.now (L.passes keys.look.now) (L.told keys.look.now)
            (L.head keys.look.now) (L.own keys.look.now) }
        requires kind { E.KIND ≡ keys.cells.integer }
        requires few { length made.old.pairs.items ≤ most }
        ensures given { IfOk result (λ stop. made.new.pairs.items ++ ahead_of self.now stop
            ≡ made.old.pairs.items ++ ahead_of self.now probe.now) }
        ensures few { IfOk result (λ _. length made.new.pairs.items ≤ most) }
        ensures ended { IfOk result
            (λ stop. length made.new.pairs.items < most → ahead_of self.now stop ≡ []) }
    {
        let sieve: NumberRows<'_, E, L> = NumberRows {
            cells: keys.cells,
            first: keys.first,
            count: self.left.batch.rows(),
            look: keys.look,
            kind: PhantomData,
        };
        self.push_pieces(&sieve, probe, most, made)
    }

    // The same, where rows that a sieve stops join nothing. The row where the probe is may be
    // within its chain; all later ones are at the head of theirs.
    fn push_pieces<S: Sieve>(
        &self,
        sieve: &S,
        probe: &Probe,
        most: usize,
        made: &mut PairOutput,
    ) -> Result<Probe, AllocError>
        requires whole { IsSearch self.now }
        requires all { (self.now).left.batch.now.rows ≤ S.count sieve.now }
        requires sound { Passes self.now (S.passes sieve.now) }
        requires told { Tells self.now (S.told sieve.now) }
        requires heads { AreHeads self.now (S.passes sieve.now) (S.head sieve.now)
            (S.own sieve.now) }
        requires few { length made.old.pairs.items ≤ most }
        ensures given { IfOk result (λ stop. made.new.pairs.items ++ ahead_of self.now stop
            ≡ made.old.pairs.items ++ ahead_of self.now probe.now) }
        ensures few { IfOk result (λ _. length made.new.pairs.items ≤ most) }
        ensures ended { IfOk result
            (λ stop. length made.new.pairs.items < most → ahead_of self.now stop ≡ []) }
    {
        if probe.left >= self.left.batch.rows() {
            return Ok(*probe);
        }
        made.compared = sieve.compared(self.alloc);
        let stop = self.push_row(sieve, probe, most, made)?;
        if stop < self.rights.places.len() {
            return Ok(Probe {
                left: probe.left,
                from: stop,
            });
        }
        self.push_rows(sieve, probe.left + 1, most, made)
    }

    // Adds the pairs of one left row with right rows from one on, until there are `most`, and gives
    // the right row where it stopped: before the last row only where there are.
    fn push_row<S: Sieve>(
        &self,
        sieve: &S,
        probe: &Probe,
        most: usize,
        made: &mut PairOutput,
    ) -> Result<usize, AllocError>
        requires whole { IsSearch self.now }
        requires row { probe.now.left < (self.now).left.batch.now.rows }
        requires all { (self.now).left.batch.now.rows ≤ S.count sieve.now }
        requires sound { Passes self.now (S.passes sieve.now) }
        requires told { Tells self.now (S.told sieve.now) }
        requires few { length made.old.pairs.items ≤ most }
        requires compared { HasCompared (walk_at self.now 0) made.old.compared }
        ensures given { IfOk result
            (λ stop. made.new.pairs.items ++ pairs_past (walk_at self.now probe.now.left) stop
            ≡ made.old.pairs.items ++ pairs_past (walk_at self.now probe.now.left) probe.now.from) }
        ensures few { IfOk result (λ _. length made.new.pairs.items ≤ most) }
        ensures compared { IfOk result (λ _. HasCompared (walk_at self.now 0) made.new.compared) }
        ensures stop { IfOk result (λ stop. stop < length (self.now).rights.now.places.items →
            most ≤ length made.new.pairs.items) }
    {
        if !sieve.passes(probe.left) {
            return Ok(self.rights.places.len());
        }
        let walk = Walk {
            rights: self.rights,
            chains: self.chains,
            left: KeyRow {
                batch: self.left.batch,
                key: self.left.key,
                row: probe.left,
            },
        };
        match sieve.tell(probe.left) {
            BucketKind::Nothing => walk.push_pairs(probe.from, most, made),
            BucketKind::Shared(bucket) => walk.push_bucket(bucket, probe.from, most, made),
            BucketKind::Own(bucket) => walk.push_chain(bucket, probe.from, most, &mut made.pairs),
        }
    }

    // A left row by its key.
    pub(crate) fn left_row(&self, row: usize) -> KeyRow<'_>
        requires whole { IsSearch self.now }
        requires row { row < (self.now).left.batch.now.rows }
        ensures row { IsKeyRow result }
        ensures left { result ≡ (walk_at self.now row).left }
    {
        KeyRow {
            batch: self.left.batch,
            key: self.left.key,
            row,
        }
    }
}
