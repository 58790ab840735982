//! The turns, and who draws them.

ghost use Rattle.std.specs.Prelude.{◌≡◌, ◌+◌, ◌-◌, ◌<◌, ◌≤◌, ◌==◌, IfOk, MatchBool};
ghost use Rattle.connection_turns.specs.Drawers.{turns_at, drawer_at};
ghost use Rattle.connection_turns.specs.Rules.{one_if};

use crate::rule::{
    DrawTurn, DrawerTally, Key, ReadWhole, ReadWord, ReturnPart, SplitPart, TurnLaw,
};
use atomic_table::{Seat, Table};
use std::alloc::{AllocError, Global};
use std::marker::Model;
use std::sync::Wait;

/// The turns that are left. Contracts see which word it is, how many turns there were at first, and
/// in how many parts they may be drawn.
#[derive(Drop)]
pub struct Turns {
    table: Table<(), DrawerTally, Key, TurnLaw, Global>,
    most: u64,
}

impl Model for Turns {
    ghost use Rattle.std.specs.Prelude.{◌≡◌, ◌+◌};
    ghost use Rattle.connection_turns.specs.Drawers.{TurnsAt, turns_at};

    ghost Value = { TurnsAt };

    ghost view = { λ t. turns_at t.table.shared.table_id t.most (t.table.shared.key.drawers + 1) };

    ghost invariant = { λ t. (t.table.shared.table_id.words ≡ 1)
        × (t.table.shared.key.most ≡ t.most) };
}

/// One of those that draw. Contracts see its word, its parts, how many turns it drew, and how often
/// it was told that none is left.
#[derive(Drop)]
pub struct Drawer {
    seat: Seat<(), DrawerTally>,
}

impl Model for Drawer {
    ghost use Rattle.std.specs.Prelude.{◌≡◌, []};
    ghost use Rattle.connection_turns.specs.Drawers.{DrawerAt, drawer_at};

    ghost Value = { DrawerAt };

    ghost view = { λ d. drawer_at d.seat.table_id d.seat.me.0.parts d.seat.me.0.drawn
        d.seat.me.0.ended };

    ghost invariant = { λ d. d.seat.me.1 ≡ [] };
}

/// So many turns, for so many drawers next to the first one.
///
/// # Errors
///
/// `AllocError` where memory is refused.
pub fn open(alloc: Global, most: u64, drawers: usize) -> Result<(Turns, Drawer), AllocError>
    ensures turns { IfOk result (λ pair. pair.0 ≡ turns_at pair.0.name most (drawers + 1)) }
    ensures drawer { IfOk result (λ pair. pair.1 ≡ drawer_at pair.0.name (drawers + 1) 0 0) }
{
    let (table, seat) = Table::of_words(alloc, &[most], &Key { most, drawers })?;
    Ok((Turns { table, most }, Drawer { seat }))
}

impl Turns {
    /// A turn, if one is left. It asks again where another drawer was first.
    pub fn draw(&self, rt: &impl Wait, mine: &mut Drawer) -> bool
        requires name { mine.old.name ≡ self.now.name }
        requires part { 0 < mine.old.parts }
        ensures same { (mine.new.name ≡ mine.old.name) × (mine.new.parts ≡ mine.old.parts) }
        ensures turn { MatchBool result
            ((mine.new.drawn ≡ mine.old.drawn + 1) × (mine.new.ended ≡ mine.old.ended))
            ((mine.new.drawn ≡ mine.old.drawn) × (mine.new.ended ≡ mine.old.ended + 1)) }
    {
        for _ in rt.forever() {
            let left = self.look(mine);
            if left == 0 {
                return false;
            }
            if self.take_one(mine, left) {
                return true;
            }
        }
        unreachable!()
    }

    // How many are left. None is an end.
    fn look(&self, mine: &mut Drawer) -> u64
        requires name { mine.old.name ≡ self.now.name }
        requires part { 0 < mine.old.parts }
        ensures { mine.new ≡ drawer_at mine.old.name mine.old.parts mine.old.drawn
            (mine.old.ended + one_if (result == 0)) }
    {
        self.table.shared.load::<ReadWord>(&mut mine.seat, 0)
    }

    // Whether one of so many turns was taken. It was not where another number is left.
    fn take_one(&self, mine: &mut Drawer, left: u64) -> bool
        requires name { mine.old.name ≡ self.now.name }
        requires part { 0 < mine.old.parts }
        requires left { 0 < left }
        ensures { mine.new ≡ drawer_at mine.old.name mine.old.parts
            (mine.old.drawn + one_if result) mine.old.ended }
    {
        let shared = &self.table.shared;
        shared.compare_exchange::<DrawTurn>(&mut mine.seat, 0, left, left - 1) == left
    }

    /// A second drawer, with one part.
    pub fn cut(&self, mine: &mut Drawer) -> Drawer
        requires name { mine.old.name ≡ self.now.name }
        requires part { 1 < mine.old.parts }
        ensures mine { mine.new
            ≡ drawer_at mine.old.name (mine.old.parts - 1) mine.old.drawn mine.old.ended }
        ensures other { result ≡ drawer_at mine.old.name 1 0 0 }
    {
        let seat = self.table.shared.split_seat::<SplitPart>(&mut mine.seat);
        Drawer { seat }
    }

    /// Takes a drawer back.
    pub fn take_back(&self, mine: &mut Drawer, other: Drawer)
        requires mine { mine.old.name ≡ self.now.name }
        requires other { other.name ≡ self.now.name }
        ensures { mine.new ≡ drawer_at mine.old.name (mine.old.parts + other.parts)
            (mine.old.drawn + other.drawn) (mine.old.ended + other.ended) }
    {
        let Drawer { seat } = other;
        self.table
            .shared
            .join_seat::<ReturnPart>(&mut mine.seat, seat);
    }

    /// With every part, no more was drawn than there was, and all of it if ever none was left. It
    /// exchanges the number of turns for itself, which changes nothing.
    pub fn learn(&self, mine: &mut Drawer)
        requires name { mine.old.name ≡ self.now.name }
        requires parts { mine.old.parts ≡ self.now.parts }
        ensures same { mine.new ≡ mine.old }
        ensures most { mine.old.drawn ≤ self.now.most }
        ensures ended { 0 < mine.old.ended → mine.old.drawn ≡ self.now.most }
    {
        let shared = &self.table.shared;
        shared.compare_exchange::<ReadWhole>(&mut mine.seat, 0, self.most, self.most);
    }
}
