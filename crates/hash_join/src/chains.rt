//! Chains of the right rows whose keys are of one bucket.

ghost use Rattle.std.specs.Prelude.{◌≡◌, ◌+◌, ◌≤◌, ◌<◌, IfOk, OnOk, false, length, replicate};
ghost use Rattle.hash_join.specs.Rights.{AreRights};
ghost use Rattle.hash_join.specs.Chains.{AreRepeats, HasChains};
ghost use Rattle.hash_join.specs.RowCache.{AreOpen, AreOpenRepeats};
ghost use Rattle.work_watch.specs.WatchedWork.{ToldAtLeast};

use crate::pair_cache::PairCache;
use crate::right_rows::RightRows;
use crate::rights::Rights;
use crate::row_cache::RowCache;
use std::alloc::{AllocError, Global};
use work_watch::pace::{LEAST_PIECE_ROWS, MOST_PIECE_ROWS};
use work_watch::{Watches, tell};

// How many rows are linked, or looked at, before who watches is told of them, where a row counts as
// so many.
fn piece_rows(weight: usize) -> usize
    requires { 1 ≤ weight }
    ensures some { 1 ≤ result }
    ensures few { result ≤ 65536 }
{
    (MOST_PIECE_ROWS / weight).max(LEAST_PIECE_ROWS)
}

// As how many rows so many count, where one counts as so many.
fn weighted_rows(rows: usize, weight: usize) -> usize
    requires { 1 ≤ weight }
    ensures { rows ≤ result }
{
    rows.saturating_mul(weight)
}

// For each bucket the first row of its chain, and for each row the next of its chain, in rising
// order; the number of rows where there is none. A row with a null in its key stands in no chain.
// For each row also whether the next of its chain surely has the same key, so that who walks along
// compares no values there.
pub(crate) struct Chains {
    pub(crate) heads: Vec<u32>,
    pub(crate) links: Vec<u32>,
    pub(crate) repeats: Vec<bool>,
}

// Written out, so that dropping it is one call (docs/DECISIONS.md).
impl Drop for Chains {
    fn drop(self) {
        let Chains {
            heads: _,
            links: _,
            repeats: _,
        } = self;
    }
}

impl Chains {
    // The chains of all rows, watched.
    pub(crate) fn new<W: Watches>(
        alloc: Global,
        rights: &Rights,
        watch: &mut W,
    ) -> Result<Chains, AllocError>
        requires whole { AreRights rights.now }
        requires ready { W.ready watch.old }
        ensures chains { IfOk result (λ chains. HasChains rights.now chains) }
        ensures ready { OnOk result (W.ready watch.new) }
        ensures watched { W.watched watch.old watch.new }
        ensures told { OnOk result
            (ToldAtLeast W.told (length rights.now.places.items) watch.old watch.new) }
    {
        let mut chains = OpenChains::new(alloc, rights)?;
        chains.link_all(rights, watch)?;
        let OpenChains {
            heads,
            links,
            seen: _,
        } = chains;
        let repeats = repeats_of(alloc, rights, &links, watch)?;
        Ok(Chains {
            heads,
            links,
            repeats,
        })
    }
}

// For each row whether the one that its link names surely has the same key, watched. Only keys that
// are hashed are looked at: those of numbers are soon compared.
fn repeats_of<W: Watches>(
    alloc: Global,
    rights: &Rights,
    links: &[u32],
    watch: &mut W,
) -> Result<Vec<bool>, AllocError>
    requires whole { AreRights rights.now }
    requires all { length links.now ≡ length rights.now.places.items }
    requires ready { W.ready watch.old }
    ensures repeats { IfOk result (λ repeats. AreRepeats rights.now links.now repeats.items) }
    ensures ready { OnOk result (W.ready watch.new) }
    ensures watched { W.watched watch.old watch.new }
    ensures told { OnOk result (ToldAtLeast W.told 0 watch.old watch.new) }
{
    let mut open = OpenRepeats {
        repeats: no_repeats(alloc, rights.places.len())?,
        compared: rights.compared(alloc),
    };
    if rights.are_hashed() {
        open.look_at_all(rights, links, watch)?;
    }
    let OpenRepeats {
        repeats,
        compared: _,
    } = open;
    Ok(repeats)
}

// So many that say no.
fn no_repeats(alloc: Global, count: usize) -> Result<Vec<bool>, AllocError>
    ensures { IfOk result (λ repeats. repeats.items ≡ replicate count false) }
{
    let repeats = vec![in alloc; false; count]?;
    Ok(repeats)
}

// Chains of the rows from one on, and the buckets of rows that were seen.
#[derive(Drop)]
struct OpenChains {
    heads: Vec<u32>,
    links: Vec<u32>,
    seen: RowCache,
}

impl OpenChains {
    // Chains without a row yet.
    fn new(alloc: Global, rights: &Rights) -> Result<OpenChains, AllocError>
        requires { AreRights rights.now }
        ensures { IfOk result
            (λ chains. AreOpen rights.now chains (length rights.now.places.items)) }
    {
        let rows = rights.places.len();
        let mut heads = Vec::new(alloc);
        heads.resize(rights.buckets.last() + 1, rows as u32)?;
        let mut links = Vec::new(alloc);
        links.resize(rows, 0u32)?;
        let seen = rights.seen_rows(alloc)?;
        Ok(OpenChains { heads, links, seen })
    }

    // Links all rows, from the last one down, so that each chain rises. After each piece of them
    // who watches may end it.
    fn link_all<W: Watches>(&mut self, rights: &Rights, watch: &mut W) -> Result<(), AllocError>
        requires whole { AreRights rights.now }
        requires none { AreOpen rights.now self.old (length rights.now.places.items) }
        requires ready { W.ready watch.old }
        ensures linked { OnOk result (AreOpen rights.now self.new 0) }
        ensures ready { OnOk result (W.ready watch.new) }
        ensures watched { W.watched watch.old watch.new }
        ensures told { OnOk result
            (ToldAtLeast W.told (length rights.now.places.items) watch.old watch.new) }
    {
        let weight = rights.weight();
        let piece = piece_rows(weight);
        let mut from = rights.places.len();
        while from > 0 {
            let to = from;
            from = to.saturating_sub(piece);
            self.link_rows(rights, from, to);
            tell(watch, weighted_rows(to - from, weight))?;
        }
        Ok(())
    }

    // Links the rows from one up to, not with, another, of which the last is linked first.
    fn link_rows(&mut self, rights: &Rights, from: usize, to: usize)
        requires whole { AreRights rights.now }
        requires ordered { from ≤ to }
        requires within { to ≤ length rights.now.places.items }
        requires linked { AreOpen rights.now self.old to }
        ensures { AreOpen rights.now self.new from }
    {
        for row in (from..to).rev() {
            self.link_row(rights, row);
        }
    }

    // Links a row, where it has a bucket, before those after it.
    fn link_row(&mut self, rights: &Rights, row: usize)
        requires whole { AreRights rights.now }
        requires linked { AreOpen rights.now self.old (row + 1) }
        requires within { row < length rights.now.places.items }
        ensures { AreOpen rights.now self.new row }
    {
        let rows = RightRows { rights };
        if let Some(bucket) = self.seen.bucket(&rows, row) {
            self.links[row] = self.heads[bucket];
            self.heads[bucket] = row as u32;
        }
    }
}

// Which rows were found to have the key of the next of their chain, and what was compared for that.
#[derive(Drop)]
struct OpenRepeats {
    repeats: Vec<bool>,
    compared: PairCache,
}

impl OpenRepeats {
    // Looks at all rows. After each piece of them who watches may end it.
    fn look_at_all<W: Watches>(
        &mut self,
        rights: &Rights,
        links: &[u32],
        watch: &mut W,
    ) -> Result<(), AllocError>
        requires whole { AreRights rights.now }
        requires all { length links.now ≡ length rights.now.places.items }
        requires repeats { AreOpenRepeats rights.now links.now self.old }
        requires ready { W.ready watch.old }
        ensures repeats { AreOpenRepeats rights.now links.now self.new }
        ensures ready { OnOk result (W.ready watch.new) }
        ensures watched { W.watched watch.old watch.new }
        ensures told { OnOk result
            (ToldAtLeast W.told (length rights.now.places.items) watch.old watch.new) }
    {
        let weight = rights.weight();
        let piece = piece_rows(weight);
        let rows = rights.places.len();
        let mut to = 0;
        while to < rows {
            let from = to;
            to = rows.min(from + piece);
            self.look_at_rows(rights, links, from, to);
            tell(watch, weighted_rows(to - from, weight))?;
        }
        Ok(())
    }

    // Looks at the rows from one up to, not with, another.
    fn look_at_rows(&mut self, rights: &Rights, links: &[u32], from: usize, to: usize)
        requires whole { AreRights rights.now }
        requires all { length links.now ≡ length rights.now.places.items }
        requires within { to ≤ length rights.now.places.items }
        requires repeats { AreOpenRepeats rights.now links.now self.old }
        ensures { AreOpenRepeats rights.now links.now self.new }
    {
        for row in from..to {
            self.repeats[row] = rights.is_repeat(row, links[row] as usize, &mut self.compared);
        }
    }
}
