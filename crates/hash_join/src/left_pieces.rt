//! Left rows that look for their partners, piece by piece.

ghost use Rattle.std.specs.Prelude.{◌≡◌, ◌≤◌, ◌<◌, ◌+◌, ◌-◌, ◌++◌, ◌^◌, [], All, IfOk, OnOk};
ghost use Rattle.std.specs.Prelude.{length, map, take, true};
ghost use Rattle.std.specs.List.{filter, range_with_len};
ghost use Rattle.hash_join.specs.Searches.{ahead_of, probe_at, start_at, first_left, walk_at};
ghost use Rattle.hash_join.specs.Searches.{AreHeads, AreStarts, IsSearch, Passes};
ghost use Rattle.hash_join.specs.PairCache.{HasCompared};
ghost use Rattle.hash_join.specs.RowCache.{AreKept};
ghost use Rattle.hash_join.specs.Words.{set_bits};

use crate::build::Probe;
use crate::key_row::KeyRow;
use crate::pair_cache::PairOutput;
use crate::row_cache::RowCache;
use crate::search::Search;
use crate::sieve::Sieve;
use crate::walk::Walk;
use std::alloc::AllocError;

// No piece has more rows. Those that pass are kept, then the heads of their chains are found, and
// last their pairs. Each step is a loop of its own, so that its reads of memory do not wait for one
// another.
const PIECE_ROWS: usize = 4_096;

// So many rows make the first piece of a call, and each further one has twice as many as the one
// before. A call may end in any piece, and the next one looks for the heads of the rows after
// again.
const FIRST_ROWS: usize = 64;

// A left row, and the first right row of its chain: the number of right rows where it has none.
#[derive(Clone, Copy, Drop)]
pub(crate) struct Start {
    pub(crate) left: u32,
    pub(crate) head: u32,
}

// Left rows that may join, up to the end of a piece, and whether each joins all rows of its chain.
#[derive(Clone, Copy, Drop)]
pub(crate) struct LeftPiece<'a> {
    pub(crate) starts: &'a [Start],
    pub(crate) own: bool,
    pub(crate) to: usize,
}

// So many rows are looked at with no write in between: a word has a bit for each of them.
const LOOKED_ROWS: usize = 64;

// Writes the rows whose bits in a word are 1, counted from one on, after so many others, and gives
// how many they are with these.
fn keep_rows(from: usize, word: u64, kept: &mut [u32], count: usize) -> usize
    requires small { All (λ row. row < 2 ^ 32) (set_bits 64 from word) }
    requires room { count + length (set_bits 64 from word) ≤ length kept.old }
    ensures count { result ≡ count + length (set_bits 64 from word) }
    ensures long { length kept.new ≡ length kept.old }
    ensures kept { take result kept.new ≡ take count kept.old ++ set_bits 64 from word }
{
    let mut next = count;
    let mut left = word;
    'bits: while left != 0 {
        kept[next] = (from + left.trailing_zeros() as usize) as u32;
        next += 1;
        left = left & (left - 1);
    }
    next
}

// Writes the rows from one up to, not with, another that pass, one after another, and gives how
// many they are.
fn keep_passing<S: Sieve>(sieve: &S, from: usize, to: usize, kept: &mut [u32]) -> usize
    requires ordered { from ≤ to }
    requires within { to ≤ S.count sieve.now }
    requires small { to ≤ 2 ^ 32 }
    requires room { to ≤ from + length kept.old }
    ensures few { result ≤ length kept.new }
    ensures long { length kept.new ≡ length kept.old }
    ensures kept { take result kept.new
        ≡ filter (S.passes sieve.now) (range_with_len from (to - from)) }
{
    let (mut count, mut at) = (0, from);
    'looks: while at < to {
        let rows = LOOKED_ROWS.min(to - at);
        count = keep_rows(at, sieve.word(at, rows), kept, count);
        at += rows;
    }
    count
}

// Puts rows, with the heads of their chains, in place of what was there.
fn find_heads<S: Sieve>(
    sieve: &S,
    rows: &[u32],
    seen: &mut RowCache,
    starts: &mut Vec<Start>,
) -> Result<(), AllocError>
    requires rows { All (λ row. row < S.count sieve.now) rows.now }
    requires passes { All (λ row. S.passes sieve.now row ≡ true) rows.now }
    requires seen { AreKept (S.bucket sieve.now) (S.last sieve.now) (S.count sieve.now)
        (S.digest sieve.now) seen.old }
    ensures starts { OnOk result (starts.new.items ≡ map (start_at (S.head sieve.now)) rows.now) }
    ensures seen { AreKept (S.bucket sieve.now) (S.last sieve.now) (S.count sieve.now)
        (S.digest sieve.now) seen.new }
{
    starts.clear();
    for row in rows {
        let left = *row;
        let head = sieve.head(left as usize, seen);
        starts.push(Start { left, head })?;
    }
    Ok(())
}

impl<'a> Search<'a> {
    // Adds the pairs of the rows from one on until there are `most`, and gives where it stopped:
    // before the last pair only where there are. Rows that do not pass join nothing.
    pub(crate) fn push_rows<S: Sieve>(
        &self,
        sieve: &S,
        from: usize,
        most: usize,
        made: &mut PairOutput,
    ) -> Result<Probe, AllocError>
        requires whole { IsSearch self.now }
        requires row { from ≤ (self.now).left.batch.now.rows }
        requires all { (self.now).left.batch.now.rows ≤ S.count sieve.now }
        requires sound { Passes self.now (S.passes sieve.now) }
        requires heads { AreHeads self.now (S.passes sieve.now) (S.head sieve.now)
            (S.own sieve.now) }
        requires few { length made.old.pairs.items ≤ most }
        requires compared { HasCompared (walk_at self.now 0) made.old.compared }
        ensures given { IfOk result (λ stop. made.new.pairs.items ++ ahead_of self.now stop
            ≡ made.old.pairs.items ++ ahead_of self.now (probe_at from 0)) }
        ensures few { IfOk result (λ _. length made.new.pairs.items ≤ most) }
        ensures ended { IfOk result
            (λ stop. length made.new.pairs.items < most → ahead_of self.now stop ≡ []) }
    {
        let rows = self.left.batch.rows();
        let room = (rows - from).min(PIECE_ROWS);
        let mut kept = Vec::new(self.alloc);
        kept.resize(room, 0u32)?;
        let mut starts = Vec::with_capacity(self.alloc, room)?;
        let mut seen = sieve.seen_rows(self.alloc)?;
        let mut at = Probe {
            left: from,
            from: 0,
        };
        let mut next = FIRST_ROWS;
        'pieces: while at.left < rows {
            let to = rows.min(at.left + next);
            let count = keep_passing(sieve, at.left, to, &mut kept);
            find_heads(sieve, &kept[..count], &mut seen, &mut starts)?;
            next = PIECE_ROWS.min(2 * next);
            let piece = LeftPiece {
                starts: starts.as_slice(),
                own: sieve.is_own(),
                to,
            };
            at = self.push_piece(&piece, most, made)?;
            if made.pairs.len() >= most {
                return Ok(at);
            }
        }
        Ok(at)
    }

    // Adds the pairs of the rows of a piece until there are `most`, and gives where it stopped:
    // before the end of the piece only where there are.
    fn push_piece(
        &self,
        piece: &LeftPiece<'_>,
        most: usize,
        made: &mut PairOutput,
    ) -> Result<Probe, AllocError>
        requires whole { IsSearch self.now }
        requires starts { AreStarts self.now piece.now.own piece.now.to piece.now.starts.now }
        requires few { length made.old.pairs.items ≤ most }
        requires compared { HasCompared (walk_at self.now 0) made.old.compared }
        ensures given { IfOk result (λ stop. made.new.pairs.items ++ ahead_of self.now stop
            ≡ made.old.pairs.items
            ++ ahead_of self.now (probe_at (first_left piece.now.to piece.now.starts.now) 0)) }
        ensures few { IfOk result (λ _. length made.new.pairs.items ≤ most) }
        ensures compared { IfOk result (λ _. HasCompared (walk_at self.now 0) made.new.compared) }
        ensures ended { IfOk result
            (λ stop. length made.new.pairs.items < most → stop ≡ probe_at piece.now.to 0) }
    {
        for start in piece.starts {
            let left = start.left as usize;
            let walk = Walk {
                rights: self.rights,
                chains: self.chains,
                left: KeyRow {
                    batch: self.left.batch,
                    key: self.left.key,
                    row: left,
                },
            };
            let stop = walk.push_from(piece.own, start.head as usize, most, made)?;
            if stop < self.rights.places.len() {
                return Ok(Probe { left, from: stop });
            }
        }
        Ok(Probe {
            left: piece.to,
            from: 0,
        })
    }
}
