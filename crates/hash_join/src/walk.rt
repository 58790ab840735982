//! A left row that looks for its partners.

ghost use Rattle.std.specs.Prelude.{◌≡◌, ◌≤◌, ◌<◌, ◌++◌, [], ◌∷◌, IfOk, OnOk, Some, get_or};
ghost use Rattle.std.specs.Prelude.{if◌then◌else◌, length, true};
ghost use Rattle.hash_join.specs.Rights.{place_at};
ghost use Rattle.hash_join.specs.Hashes.{last_of};
ghost use Rattle.hash_join.specs.Chains.{Leads};
ghost use Rattle.hash_join.specs.PairCache.{HasCompared};
ghost use Rattle.hash_join.specs.Walks.{bucket_left, in_chain, joins_at, pair_at, pairs_past};
ghost use Rattle.hash_join.specs.Walks.{IsWalk, JoinsChain};

use crate::chains::Chains;
use crate::key_row::KeyRow;
use crate::pair::Pair;
use crate::pair_cache::{PairCache, PairOutput};
use crate::part_rows::BatchRows;
use crate::right_rows::RightRows;
use crate::rights::Rights;
use std::alloc::AllocError;

// A left row, and the right rows with their chains.
#[derive(Clone, Copy, Drop)]
pub(crate) struct Walk<'a> {
    pub(crate) rights: &'a Rights,
    pub(crate) chains: &'a Chains,
    pub(crate) left: KeyRow<'a>,
}

impl<'a> Walk<'a> {
    // Adds the pairs with right rows from one on, until there are `most`, and gives the right row
    // where it stopped: before the last row only where there are.
    pub(crate) fn push_pairs(
        &self,
        from: usize,
        most: usize,
        made: &mut PairOutput,
    ) -> Result<usize, AllocError>
        requires whole { IsWalk self.now }
        requires few { length made.old.pairs.items ≤ most }
        requires compared { HasCompared self.now made.old.compared }
        ensures given { IfOk result (λ stop. made.new.pairs.items ++ pairs_past self.now stop
            ≡ made.old.pairs.items ++ pairs_past self.now from) }
        ensures few { IfOk result (λ _. length made.new.pairs.items ≤ most) }
        ensures compared { IfOk result (λ _. HasCompared self.now made.new.compared) }
        ensures stop { IfOk result (λ stop. stop < length (self.now).rights.now.places.items →
            most ≤ length made.new.pairs.items) }
    {
        match self.rights.buckets.bucket(&self.left) {
            None => Ok(self.rights.places.len()),
            Some(bucket) => self.push_bucket(bucket, from, most, made),
        }
    }

    // The same, where the left row has this bucket.
    pub(crate) fn push_bucket(
        &self,
        bucket: usize,
        from: usize,
        most: usize,
        made: &mut PairOutput,
    ) -> Result<usize, AllocError>
        requires whole { IsWalk self.now }
        requires bucket { bucket_left self.now ≡ Some bucket }
        requires within { bucket ≤ last_of (self.now).rights.now.buckets }
        requires few { length made.old.pairs.items ≤ most }
        requires compared { HasCompared self.now made.old.compared }
        ensures given { IfOk result (λ stop. made.new.pairs.items ++ pairs_past self.now stop
            ≡ made.old.pairs.items ++ pairs_past self.now from) }
        ensures few { IfOk result (λ _. length made.new.pairs.items ≤ most) }
        ensures compared { IfOk result (λ _. HasCompared self.now made.new.compared) }
        ensures stop { IfOk result (λ stop. stop < length (self.now).rights.now.places.items →
            most ≤ length made.new.pairs.items) }
    {
        self.follow(self.first_in(bucket, from), most, made)
    }

    // The first right row from one on that stands in the left row's chain. Where a walk has
    // stopped, that is the row itself.
    fn first_in(&self, bucket: usize, from: usize) -> usize
        requires whole { IsWalk self.now }
        requires bucket { bucket_left self.now ≡ Some bucket }
        requires within { bucket ≤ last_of (self.now).rights.now.buckets }
        ensures { Leads (in_chain self.now)
            (length (self.now).rights.now.places.items) from result }
    {
        if from == 0 {
            return self.chains.heads[bucket] as usize;
        }
        let mut at = from;
        'rows: while at < self.rights.places.len() && !self.stands_in(bucket, at) {
            at += 1;
        }
        at
    }

    // Whether a right row stands in the chain of a bucket.
    fn stands_in(&self, bucket: usize, at: usize) -> bool
        requires whole { IsWalk self.now }
        requires bucket { bucket_left self.now ≡ Some bucket }
        requires within { at < length (self.now).rights.now.places.items }
        ensures { result ≡ in_chain self.now at }
    {
        match self.rights.bucket(at) {
            None => false,
            Some(found) => found == bucket,
        }
    }

    // Adds the pairs with the rows of the chain from one of them on, until there are `most`. Where
    // the left row has its own bucket, it joins each of them. Only a copy of the walk is lent where
    // keys are compared, so that this one need not lie in memory.
    pub(crate) fn push_from(
        &self,
        own: bool,
        first: usize,
        most: usize,
        made: &mut PairOutput,
    ) -> Result<usize, AllocError>
        requires whole { IsWalk self.now }
        requires all { own ≡ true → JoinsChain self.now }
        requires there { first < length (self.now).rights.now.places.items →
            in_chain self.now first ≡ true }
        requires few { length made.old.pairs.items ≤ most }
        requires compared { HasCompared self.now made.old.compared }
        ensures given { IfOk result (λ stop. made.new.pairs.items ++ pairs_past self.now stop
            ≡ made.old.pairs.items ++ pairs_past self.now first) }
        ensures few { IfOk result (λ _. length made.new.pairs.items ≤ most) }
        ensures compared { IfOk result (λ _. HasCompared self.now made.new.compared) }
        ensures stop { IfOk result (λ stop. stop < length (self.now).rights.now.places.items →
            most ≤ length made.new.pairs.items) }
    {
        if own {
            self.take_chain(first, most, &mut made.pairs)
        } else {
            let walk = *self;
            walk.follow(first, most, made)
        }
    }

    // Adds the pairs with the rows of the chain from one of them on, where the two join, until
    // there are `most`. Of right rows one after another with the same key only the first is
    // compared.
    fn follow(&self, first: usize, most: usize, made: &mut PairOutput) -> Result<usize, AllocError>
        requires whole { IsWalk self.now }
        requires there { first < length (self.now).rights.now.places.items →
            in_chain self.now first ≡ true }
        requires few { length made.old.pairs.items ≤ most }
        requires compared { HasCompared self.now made.old.compared }
        ensures given { IfOk result (λ stop. made.new.pairs.items ++ pairs_past self.now stop
            ≡ made.old.pairs.items ++ pairs_past self.now first) }
        ensures few { IfOk result (λ _. length made.new.pairs.items ≤ most) }
        ensures compared { IfOk result (λ _. HasCompared self.now made.new.compared) }
        ensures stop { IfOk result (λ stop. stop < length (self.now).rights.now.places.items →
            most ≤ length made.new.pairs.items) }
    {
        let mut at = first;
        let mut joins = self.joins(at, &mut made.compared);
        'chain: while at < self.rights.places.len() && made.pairs.len() < most {
            self.push_pair(joins, at, &mut made.pairs)?;
            let next = self.chains.links[at] as usize;
            joins = self.joins_next(joins, at, next, &mut made.compared);
            at = next;
        }
        Ok(at)
    }

    // The same as `push_pairs`, where the left row joins each row of its chain.
    pub(crate) fn push_chain(
        &self,
        bucket: usize,
        from: usize,
        most: usize,
        pairs: &mut Vec<Pair>,
    ) -> Result<usize, AllocError>
        requires whole { IsWalk self.now }
        requires bucket { bucket_left self.now ≡ Some bucket }
        requires within { bucket ≤ last_of (self.now).rights.now.buckets }
        requires all { JoinsChain self.now }
        requires few { length pairs.old.items ≤ most }
        ensures given { IfOk result (λ stop. pairs.new.items ++ pairs_past self.now stop
            ≡ pairs.old.items ++ pairs_past self.now from) }
        ensures few { IfOk result (λ _. length pairs.new.items ≤ most) }
        ensures stop { IfOk result (λ stop. stop < length (self.now).rights.now.places.items →
            most ≤ length pairs.new.items) }
    {
        self.take_chain(self.first_in(bucket, from), most, pairs)
    }

    // Adds the pairs with the rows of the chain from one of them on, all of which join, until there
    // are `most`.
    fn take_chain(
        &self,
        first: usize,
        most: usize,
        pairs: &mut Vec<Pair>,
    ) -> Result<usize, AllocError>
        requires whole { IsWalk self.now }
        requires all { JoinsChain self.now }
        requires there { first < length (self.now).rights.now.places.items →
            in_chain self.now first ≡ true }
        requires few { length pairs.old.items ≤ most }
        ensures given { IfOk result (λ stop. pairs.new.items ++ pairs_past self.now stop
            ≡ pairs.old.items ++ pairs_past self.now first) }
        ensures few { IfOk result (λ _. length pairs.new.items ≤ most) }
        ensures stop { IfOk result (λ stop. stop < length (self.now).rights.now.places.items →
            most ≤ length pairs.new.items) }
    {
        let mut at = first;
        'chain: while at < self.rights.places.len() && pairs.len() < most {
            pairs.push(self.pair(at))?;
            at = self.chains.links[at] as usize;
        }
        Ok(at)
    }

    // The pair with a right row.
    fn pair(&self, at: usize) -> Pair
        requires whole { IsWalk self.now }
        requires within { at < length (self.now).rights.now.places.items }
        ensures { result ≡ pair_at self.now (place_at (self.now).rights.now at) }
    {
        let (batch, row) = self.rights.places[at];
        Pair {
            left: self.left.row as u32,
            batch,
            row,
        }
    }

    // Whether the left row joins a right row; never one that is not there.
    fn joins(&self, at: usize, compared: &mut PairCache) -> bool
        requires whole { IsWalk self.now }
        requires compared { HasCompared self.now compared.old }
        ensures joins { at < length (self.now).rights.now.places.items →
            result ≡ joins_at self.now (place_at (self.now).rights.now at) }
        ensures compared { HasCompared self.now compared.new }
    {
        at < self.rights.places.len() && self.joins_row(at, compared)
    }

    // Whether the left row joins a right row that is there. Texts are compared where they lie if
    // the table is to have no place.
    fn joins_row(&self, at: usize, compared: &mut PairCache) -> bool
        requires whole { IsWalk self.now }
        requires within { at < length (self.now).rights.now.places.items }
        requires compared { HasCompared self.now compared.old }
        ensures joins { result ≡ joins_at self.now (place_at (self.now).rights.now at) }
        ensures compared { HasCompared self.now compared.new }
    {
        if compared.places == 0 {
            return self.left.joins(&self.rights.key_row(at));
        }
        let lefts = BatchRows { at: self.left };
        let rights = RightRows {
            rights: self.rights,
        };
        compared.keys_join(&lefts, &rights, self.left.row, at)
    }

    // Whether the left row joins the next right row of a chain, where it is known whether it joins
    // this one. The values of a next row that has the same key are not compared.
    fn joins_next(&self, joins: bool, at: usize, next: usize, compared: &mut PairCache) -> bool
        requires whole { IsWalk self.now }
        requires within { at < length (self.now).rights.now.places.items }
        requires next { next ≡ get_or (self.now).chains.now.links.items at next }
        requires told { joins ≡ joins_at self.now (place_at (self.now).rights.now at) }
        requires compared { HasCompared self.now compared.old }
        ensures joins { next < length (self.now).rights.now.places.items →
            result ≡ joins_at self.now (place_at (self.now).rights.now next) }
        ensures compared { HasCompared self.now compared.new }
    {
        if next >= self.rights.places.len() {
            return false;
        }
        if self.chains.repeats[at] {
            joins
        } else {
            self.joins_row(next, compared)
        }
    }

    // Adds the pair with a right row, where the two join.
    fn push_pair(&self, joins: bool, at: usize, pairs: &mut Vec<Pair>) -> Result<(), AllocError>
        requires whole { IsWalk self.now }
        requires within { at < length (self.now).rights.now.places.items }
        requires told { joins ≡ joins_at self.now (place_at (self.now).rights.now at) }
        ensures { OnOk result (pairs.new.items ≡ pairs.old.items
            ++ (if joins_at self.now (place_at (self.now).rights.now at)
            then pair_at self.now (place_at (self.now).rights.now at) ∷ [] else [])) }
    {
        if joins {
            pairs.push(self.pair(at))?;
        }
        Ok(())
    }
}
