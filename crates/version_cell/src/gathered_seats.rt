//! Seats that are done with, as one.

ghost use Rattle.std.specs.Prelude.{◌≡◌, ◌+◌, ◌∷◌, [], length};
ghost use Rattle.version_log.specs.Log.{Begins};
ghost use Rattle.version_cell.specs.Seats.{gathered_seats_at};
ghost use Rattle.version_cell.specs.Shares.{shares_at};
ghost use Rattle.version_cell.specs.SignedEntries.{log_of, part_at};

use crate::book::{CellName, History};
use crate::made_entries::MadeEntries;
use crate::maker::Maker;
use crate::scanner::Scanner;
use crate::tally::Shares;
use std::marker::Model;
use std::mem;
use std::snapshot::Snapshot;

// Seats one by one: the number of each, and the entries that were made through it, with their
// places in the log. Contracts alone see them, by snapshots, which take no memory.
#[derive(Drop)]
pub(crate) struct Parts {
    before: Option<Snapshot<Parts>>,
    seat: u64,
    made: Snapshot<MadeEntries>,
}

impl Model for Parts {
    ghost use Rattle.version_cell.specs.SignedEntries.{PartsAt, one_before};

    ghost Value = { PartsAt };

    ghost size = { λ parts. parts.steps };

    ghost view = { λ p. one_before (λ before. before.value) p.before p.seat p.made.value.entries };
}

impl Parts {
    // No seat.
    fn none() -> Snapshot<Parts>
        ensures { result.value.parts ≡ [] }
    {
        Snapshot::of(&Parts {
            before: None,
            seat: 0,
            made: MadeEntries::none(),
        })
    }

    // One seat more, before the others.
    fn with(before: Snapshot<Parts>, seat: u64, made: Snapshot<MadeEntries>) -> Snapshot<Parts>
        ensures { result.value.parts ≡ part_at seat made.value.entries ∷ before.value.parts }
    {
        Snapshot::of(&Parts {
            before: Some(before),
            seat,
            made,
        })
    }
}

/// Seats that are done with. Contracts see it as a log that goes on from all that these had seen,
/// how many they are, how many entries were made through them, and which were made through each,
/// with their places in the log.
#[derive(Drop)]
pub struct GatheredSeats<C: CellName> {
    pub(crate) history: History,
    pub(crate) shares: Shares<C>,
    pub(crate) parts: Snapshot<Parts>,
}

impl<C: CellName> Model for GatheredSeats<C> {
    ghost use Rattle.std.specs.Prelude.{◌≡◌, length};
    ghost use Rattle.version_cell.specs.Seats.{GatheredSeatsAt, gathered_seats_at};
    ghost use Rattle.version_cell.specs.SignedEntries.{log_of, made_by_all, made_by_each, powers};
    ghost use Rattle.version_cell.specs.SignedEntries.{seats_of, AreAmong};

    ghost Value = { GatheredSeatsAt };

    ghost view = { λ g. gathered_seats_at
        (log_of g.history.seen.log) g.shares.seats g.shares.entries
        (made_by_each g.parts.value.parts) };

    ghost invariant = { λ g. (g.history.seen.book ≡ C.book)
        × (g.shares.seats ≡ length g.parts.value.parts)
        × (g.shares.entries ≡ made_by_all g.parts.value.parts)
        × (g.shares.numbers ≡ powers (seats_of g.parts.value.parts))
        × AreAmong g.parts.value.parts g.history.seen.log };
}

impl<C: CellName> GatheredSeats<C> {
    // No seat, with a log that was reached.
    pub(crate) fn new(history: History, none: Shares<C>) -> GatheredSeats<C>
        requires book { history.seen.book ≡ C.book }
        requires none { none ≡ shares_at 0 0 0 0 }
        ensures { result ≡ gathered_seats_at (log_of history.seen.log) 0 0 [] }
    {
        GatheredSeats {
            history,
            shares: none,
            parts: Parts::none(),
        }
    }

    /// Takes in a seat.
    pub fn take(&mut self, seat: Scanner<C>)
        ensures log { Begins self.old.log self.new.log }
        ensures seen { Begins seat.log self.new.log }
        ensures seats { self.new.seats ≡ self.old.seats + 1 }
        ensures made { self.new.made ≡ self.old.made + length seat.made }
        ensures each { self.new.each ≡ seat.made ∷ self.old.each }
    {
        self.take_maker(seat.into_maker());
    }

    // Takes in the maker of a seat.
    fn take_maker(&mut self, maker: Maker<C>)
        ensures log { Begins self.old.log self.new.log }
        ensures seen { Begins (log_of maker.seen) self.new.log }
        ensures rest { self.new ≡ gathered_seats_at self.new.log (self.old.seats + 1)
            (self.old.made + length maker.made) (maker.made ∷ self.old.each) }
    {
        let Maker {
            seat,
            history,
            made,
            count: _,
            asked: _,
            shares,
        } = maker;
        let before = mem::replace(&mut self.parts, Parts::none());
        self.history = self.history.longer(&history);
        self.parts = Parts::with(before, seat, made);
        self.shares.merge(shares);
    }
}
