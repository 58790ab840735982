//! How a seat rests, for others to see.

ghost use Rattle.std.specs.Prelude.{◌≡◌, length, MatchBool};
ghost use Rattle.version_cell.specs.Rests.{rest_at};
ghost use Rattle.version_cell.specs.SignedEntries.{own, GoesOn};

use crate::book::History;
use crate::times::Times;
use std::marker::Model;

/// What a seat of a cell had seen, made and asked when it held the cell's lock last: a value
/// without a brand and without memory. Nothing is put through it. Contracts see it as the book of
/// its cell, the number of the seat, the log that it has seen, with the seat of each entry, the
/// entries that were made through it, and how often it asked.
#[derive(Drop)]
pub struct Rest {
    seat: u64,
    history: History,
    asks: Times,
}

impl Model for Rest {
    ghost use Rattle.version_cell.specs.Rests.{RestAt, rest_at};

    ghost Value = { RestAt };

    ghost view = { λ r. rest_at r.history.seen.book r.seat r.history.seen.log r.asks.times };
}

impl Rest {
    // How a seat rests that has seen this log and made just the entries of its number.
    pub(crate) fn new(seat: u64, history: History, asks: Times) -> Rest
        ensures { result ≡ rest_at history.seen.book seat history.seen.log asks.times }
    {
        Rest {
            seat,
            history,
            asks,
        }
    }

    /// A copy. It takes no memory.
    pub fn again(&self) -> Rest
        ensures { result ≡ self.now }
    {
        Rest {
            seat: self.seat,
            history: self.history.again(),
            asks: self.asks.again(),
        }
    }

    /// The number of the seat.
    pub fn number(&self) -> u64
        ensures { result ≡ self.now.seat }
    {
        self.seat
    }

    /// How many entries the log has that it has seen.
    pub fn len(&self) -> u64
        ensures { result ≡ length self.now.log }
    {
        self.history.len()
    }

    /// What was made through the seat is just what the log that it has seen has of its number.
    pub fn exact(&self)
        ensures { self.now.made ≡ own self.now.seat self.now.log }
    {
        let _ = &self.history;
    }

    /// Whether the other, of the same cell, had seen no fewer entries. Its log then begins with
    /// this one's, and else this one's with its.
    pub fn begins(&self, other: &Rest) -> bool
        requires { other.now.book ≡ self.now.book }
        ensures { MatchBool result (GoesOn self.now.log other.now.log)
            (GoesOn other.now.log self.now.log) }
    {
        self.history.begins(&other.history)
    }
}
