//! The part of a seat through which entries are made.

ghost use Rattle.std.specs.Prelude.{◌≡◌, ◌≤◌, ◌+◌, ◌^◌, ◌++◌, ◌∷◌, [], length};
ghost use Rattle.version_cell.specs.Rests.{rest_at};
ghost use Rattle.version_cell.specs.Shares.{shares_at};
ghost use Rattle.version_cell.specs.SignedEntries.{own, signed, maker_at, GoesOn, Learns};

use crate::book::{CellName, History};
use crate::made_entries::MadeEntries;
use crate::seat_rest::Rest;
use crate::tally::{Shares, Tally};
use crate::times::Times;
use std::marker::Model;
use std::{mem, snapshot};
use version_log::Entry;

// Who makes entries. Contracts see it as the number of its seat, the log that it has seen, with the
// seat of each entry, the entries that it made, each with its place in the log, and how often it
// asked.
#[derive(Drop)]
pub(crate) struct Maker<C: CellName> {
    pub(crate) seat: u64,
    pub(crate) history: History,
    pub(crate) made: snapshot::Snapshot<MadeEntries>,
    // How many these are.
    pub(crate) count: u64,
    // How often it asked, for others to see.
    pub(crate) asked: Times,
    // Each of these entries is counted in them, and each ask.
    pub(crate) shares: Shares<C>,
}

impl<C: CellName> Model for Maker<C> {
    ghost use Rattle.std.specs.Prelude.{◌≡◌, ◌^◌, length};
    ghost use Rattle.version_cell.specs.Shares.{shares_at};
    ghost use Rattle.version_cell.specs.SignedEntries.{IsAmong, MakerAt, maker_at, own};

    ghost Value = { MakerAt };

    ghost view = { λ m. maker_at m.seat m.history.seen.log m.made.value.entries m.shares.asks };

    ghost invariant = { λ m. (m.history.seen.book ≡ C.book)
        × (m.shares ≡ shares_at 1 (length m.made.value.entries) m.shares.asks (2 ^ m.seat))
        × IsAmong m.made.value.entries (own m.seat m.history.seen.log)
        × (m.count ≡ length m.made.value.entries) × (m.asked.times ≡ m.shares.asks) };
}

impl<C: CellName> Maker<C> {
    // The maker of a seat with this number, which has seen this log.
    #[tactic(auto, using(crate::proofs::Merging::none_among))]
    pub(crate) fn new(seat: u64, history: History, shares: Shares<C>) -> Maker<C>
        requires book { history.seen.book ≡ C.book }
        requires shares { shares ≡ shares_at 1 0 0 (2 ^ seat) }
        ensures { result ≡ maker_at seat history.seen.log [] 0 }
    {
        Maker {
            seat,
            history,
            made: MadeEntries::none(),
            count: 0,
            asked: Times::none(),
            shares,
        }
    }

    pub(crate) fn seat(&self) -> u64
        ensures { result ≡ self.now.seat }
    {
        self.seat
    }

    // How many entries it made.
    pub(crate) fn count(&self) -> u64
        ensures { result ≡ length self.now.made }
    {
        self.count
    }

    pub(crate) fn history(&self) -> &History
        ensures log { result.now.seen.log ≡ self.now.seen }
        ensures book { result.now.seen.book ≡ C.book }
    {
        &self.history
    }

    // It sees a log that goes on from what it had seen.
    #[tactic(auto, using(crate::proofs::Parts::among_on))]
    pub(crate) fn see(&mut self, told: &History)
        requires book { told.now.seen.book ≡ C.book }
        requires on { GoesOn self.old.seen told.now.seen.log }
        ensures { self.new ≡ maker_at self.old.seat told.now.seen.log self.old.made self.old.asks }
    {
        self.history = told.again();
    }

    // It sees no less than this log, and no more than this and what it had seen.
    pub(crate) fn learn(&mut self, told: &History)
        requires { told.now.seen.book ≡ C.book }
        ensures { Learns self.old told.now.seen.log self.old.asks self.new }
    {
        if self.history().begins(told) {
            self.see(told);
        }
    }

    // It learns, and that is counted.
    pub(crate) fn ask(&mut self, tally: &mut Tally<C>, told: &History)
        requires { told.now.seen.book ≡ C.book }
        ensures learns { Learns self.old told.now.seen.log (self.old.asks + 1) self.new }
        ensures tally { tally.new ≡ tally.old }
    {
        self.learn(told);
        tally.ask(&mut self.shares);
        self.asked.raise();
    }

    // How its seat rests, where it made as many entries as the log that it has seen has of its
    // number. These are then the same.
    #[tactic(auto, using(crate::proofs::Merging::among_whole))]
    pub(crate) fn rest(&self) -> Rest
        requires { length self.now.made ≡ length (own self.now.seat self.now.seen) }
        ensures rest { result ≡ rest_at C.book self.now.seat self.now.seen self.now.asks }
        ensures made { result.made ≡ self.now.made }
    {
        Rest::new(self.seat, self.history.again(), self.asked.again())
    }

    // It made the entry that stands after what it had seen, at that place, and that is counted.
    #[tactic(auto, using(crate::proofs::Parts::among_made))]
    pub(crate) fn make(&mut self, tally: &mut Tally<C>, told: &History, entry: &Entry)
        requires book { told.now.seen.book ≡ C.book }
        requires few { length told.now.seen.log ≤ 2 ^ 62 }
        requires behind { told.now.seen.log ≡ self.old.seen ++ signed self.old.seat entry.now ∷ [] }
        ensures tally { tally.new ≡ tally.old + 1 }
        ensures made { self.new ≡ maker_at self.old.seat told.now.seen.log
            (self.old.made ++ (length self.old.seen, entry.now) ∷ []) self.old.asks }
    {
        let place = self.history.len();
        self.history = told.again();
        let before = mem::replace(&mut self.made, MadeEntries::none());
        self.made = MadeEntries::with(before, place, entry);
        self.count += 1;
        tally.count(&mut self.shares);
    }
}
