//! What is counted of all seats of a cell: the entries that were made, and how often the putter was
//! asked. Each seat has a share of each count. A third ledger keeps the numbers of seats apart.

ghost use Rattle.std.specs.Prelude.{◌≡◌, ◌<◌, ◌+◌, ◌-◌, ◌^◌};
ghost use Rattle.version_cell.specs.Blanks.{most_seats};
ghost use Rattle.version_cell.specs.Shares.{cutter_at, shares_at};

use crate::book::CellName;
use std::marker::{Model, PhantomData};
use std::sync::ledger::{Blank, Book, Ledger, Share};

/// The ledger in which a cell's asks are counted.
pub struct AskLedger<C> {
    of: PhantomData<C>,
}

impl<C: CellName> Ledger for AskLedger<C> {
    ghost name = { C.asks };

    ghost parts = { C.parts };
}

/// The ledger of the numbers of a cell's seats: the share of a seat has 2 to its number.
pub struct SeatLedger<C> {
    of: PhantomData<C>,
}

impl<C: CellName> Ledger for SeatLedger<C> {
    ghost name = { C.numbers };

    ghost parts = { C.parts };
}

// Shares of a seat, or of several, in the three ledgers. They have no bytes.
#[derive(Drop)]
pub(crate) struct Shares<C: CellName> {
    entries: Share<C>,
    asks: Share<AskLedger<C>>,
    numbers: Share<SeatLedger<C>>,
}

impl<C: CellName> Model for Shares<C> {
    ghost use Rattle.std.specs.Prelude.{◌≡◌};
    ghost use Rattle.version_cell.specs.Shares.{SharesAt, shares_at};

    ghost Value = { SharesAt };

    ghost view = { λ s. shares_at s.entries.parts s.entries.amount s.asks.amount s.numbers.amount };

    ghost invariant = { λ s. (s.asks.parts ≡ s.entries.parts)
        × (s.numbers.parts ≡ s.entries.parts) };
}

impl<C: CellName> Shares<C> {
    // With the shares of others.
    pub(crate) fn merge(&mut self, other: Shares<C>)
        ensures { self.new
            ≡ shares_at (self.old.seats + other.seats) (self.old.entries + other.entries)
            (self.old.asks + other.asks) (self.old.numbers + other.numbers) }
    {
        let Shares {
            entries,
            asks,
            numbers,
        } = other;
        self.entries.merge(entries);
        self.asks.merge(asks);
        self.numbers.merge(numbers);
    }

    // Those of one seat, of which nothing is counted yet.
    fn split(&mut self, number: u64) -> Shares<C>
        requires some { 0 < self.old.seats }
        requires none { self.old ≡ shares_at self.old.seats 0 0 number }
        ensures one { result ≡ shares_at 1 0 0 number }
        ensures rest { self.new ≡ shares_at (self.old.seats - 1) 0 0 0 }
    {
        Shares {
            entries: self.entries.split_off(1, 0),
            asks: self.asks.split_off(1, 0),
            numbers: self.numbers.split_off(1, number),
        }
    }
}

/// The ledgers of a cell that has no name yet.
#[derive(Drop)]
pub struct Ledgers {
    pub entries: Blank,
    pub asks: Blank,
    pub numbers: Blank,
}

impl Ledgers {
    /// Those of a cell with so many seats.
    pub fn new(seats: u64) -> Ledgers
        ensures { (result.entries.parts ≡ seats) × (result.asks.parts ≡ seats)
            × (result.numbers.parts ≡ seats) }
    {
        Ledgers {
            entries: Blank::new(seats),
            asks: Blank::new(seats),
            numbers: Blank::new(seats),
        }
    }
}

// What the shares of seats are cut from, in the order of their numbers.
#[derive(Drop)]
pub(crate) struct Cutter<C: CellName> {
    entries: Book<C>,
    asks: Book<AskLedger<C>>,
    numbers: Book<SeatLedger<C>>,
    rest: Shares<C>,
    next: u64,
}

impl<C: CellName> Model for Cutter<C> {
    ghost use Rattle.std.specs.Prelude.{◌≡◌, ◌+◌, ◌^◌};
    ghost use Rattle.version_cell.specs.Shares.{CutterAt, cutter_at, shares_at};

    ghost Value = { CutterAt };

    ghost view = { λ c. cutter_at c.next c.rest.seats };

    ghost invariant = { λ c. (c.rest ≡ shares_at c.rest.seats 0 0 0) × (c.entries.total ≡ 0)
        × (c.numbers.total + 1 ≡ 2 ^ c.next) × (c.next + c.rest.seats ≡ C.parts) };
}

impl<C: CellName> Cutter<C> {
    pub(crate) fn new(ledgers: Ledgers) -> Cutter<C>
        requires entries { (ledgers.entries.name ≡ C.name) × (ledgers.entries.parts ≡ C.parts) }
        requires asks { (ledgers.asks.name ≡ C.asks) × (ledgers.asks.parts ≡ C.parts) }
        requires numbers { (ledgers.numbers.name ≡ C.numbers) × (ledgers.numbers.parts ≡ C.parts) }
        ensures { result ≡ cutter_at 0 C.parts }
    {
        let Ledgers {
            entries,
            asks,
            numbers,
        } = ledgers;
        let (entries, of_entries) = entries.open::<C>();
        let (asks, of_asks) = asks.open::<AskLedger<C>>();
        let (numbers, of_numbers) = numbers.open::<SeatLedger<C>>();
        Cutter {
            entries,
            asks,
            numbers,
            rest: Shares {
                entries: of_entries,
                asks: of_asks,
                numbers: of_numbers,
            },
            next: 0,
        }
    }

    // The shares of the next seat.
    #[tactic(auto, using(crate::proofs::Numbers::doubled))]
    pub(crate) fn cut(&mut self) -> Shares<C>
        requires few { self.old.next < most_seats }
        requires some { 0 < self.old.left }
        ensures one { result ≡ shares_at 1 0 0 (2 ^ self.old.next) }
        ensures rest { (self.new.next ≡ self.old.next + 1) × (self.new.left + 1 ≡ self.old.left) }
    {
        let number = power_of(self.next);
        self.numbers.add(&mut self.rest.numbers, number);
        self.next += 1;
        self.rest.split(number)
    }

    // The count, where each seat has its shares.
    pub(crate) fn close(self) -> Tally<C>
        requires { self.left ≡ 0 }
        ensures { result ≡ 0 }
    {
        let Cutter {
            entries,
            asks,
            numbers,
            rest,
            next: _,
        } = self;
        Tally {
            entries,
            asks,
            numbers,
            none: rest,
        }
    }
}

// 2 to the number of a seat.
#[tactic(auto, using(std::proofs::lemmas::Nat::pow_below))]
fn power_of(number: u64) -> u64
    requires { number < most_seats }
    ensures { result ≡ 2 ^ number }
{
    1 << number
}

// What is counted of all seats. Contracts see it as the number of entries that were made through
// them. It has no bytes.
#[derive(Drop)]
pub(crate) struct Tally<C: CellName> {
    entries: Book<C>,
    asks: Book<AskLedger<C>>,
    numbers: Book<SeatLedger<C>>,
    none: Shares<C>,
}

impl<C: CellName> Model for Tally<C> {
    ghost use Rattle.std.specs.Prelude.{◌≡◌, ◌+◌, ◌^◌, ℕ};
    ghost use Rattle.version_cell.specs.Shares.{shares_at};

    ghost Value = { ℕ };

    ghost view = { λ t. t.entries.total };

    ghost invariant = { λ t. (t.none ≡ shares_at 0 0 0 0) × (t.numbers.total + 1 ≡ 2 ^ C.parts) };
}

impl<C: CellName> Tally<C> {
    // One entry more was made through the seat with these shares.
    pub(crate) fn count(&mut self, shares: &mut Shares<C>)
        requires { 0 < shares.old.seats }
        ensures total { self.new ≡ self.old + 1 }
        ensures shares { shares.new ≡ shares_at shares.old.seats
            (shares.old.entries + 1) shares.old.asks shares.old.numbers }
    {
        self.entries.add(&mut shares.entries, 1);
    }

    // The seat with these shares asks once more.
    pub(crate) fn ask(&mut self, shares: &mut Shares<C>)
        requires { 0 < shares.old.seats }
        ensures same { self.new ≡ self.old }
        ensures shares { shares.new ≡ shares_at shares.old.seats shares.old.entries
            (shares.old.asks + 1) shares.old.numbers }
    {
        self.asks.add(&mut shares.asks, 1);
    }

    // The shares of no seat.
    pub(crate) fn none(&mut self) -> Shares<C>
        ensures none { result ≡ shares_at 0 0 0 0 }
        ensures same { self.new ≡ self.old }
    {
        let Shares {
            entries,
            asks,
            numbers,
        } = &mut self.none;
        Shares {
            entries: entries.empty(),
            asks: asks.empty(),
            numbers: numbers.empty(),
        }
    }

    // The shares of all seats have the whole count, and the numbers of these are the first ones.
    pub(crate) fn audit(&mut self, all: &mut Shares<C>)
        requires { all.old.seats ≡ C.parts }
        ensures whole { all.old.entries ≡ self.old }
        ensures numbers { all.old.numbers + 1 ≡ 2 ^ C.parts }
        ensures same { (self.new ≡ self.old) × (all.new ≡ all.old) }
    {
        self.entries.audit(&mut all.entries);
        self.numbers.audit(&mut all.numbers);
    }
}
