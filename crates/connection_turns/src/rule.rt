// The rule of the word, and what each step tells the thread that makes it.

use atomic_table::{Join, Play, Split, TableRule};

// What a drawer knows: its parts, how many turns it drew, and how often it was told that none is
// left. No value of it is made.
pub struct DrawerTally {
    pub parts: u64,
    pub drawn: u64,
    pub ended: u64,
}

// The turns there were at first, and the drawers there may be next to the first one.
#[derive(Clone, Copy)]
pub struct Key {
    pub most: u64,
    pub drawers: usize,
}

pub struct TurnLaw;

impl TableRule<(), DrawerTally, Key> for TurnLaw {
    ghost use Rattle.std.specs.Prelude.{◌+◌};
    ghost use Rattle.connection_turns.specs.Rules.{drawer_tally, IsKept};

    ghost holds = { λ key s. IsKept key s };

    ghost first = { λ key. drawer_tally (key.drawers + 1) 0 0 };
}

// The word is read: 0 is an end.
pub struct ReadWord;

impl Play<(), DrawerTally> for ReadWord {
    ghost use Rattle.connection_turns.specs.Rules.{Looked};

    ghost then = { Looked };
}

// A turn is taken from the word, unless another was first.
pub struct DrawTurn;

impl Play<(), DrawerTally> for DrawTurn {
    ghost use Rattle.connection_turns.specs.Rules.{Drew};

    ghost then = { Drew };
}

// With every part, the word tells what was drawn.
pub struct ReadWhole;

impl Play<(), DrawerTally> for ReadWhole {
    ghost use Rattle.connection_turns.specs.Rules.{Learnt};

    ghost then = { Learnt };
}

// One part goes to a new drawer.
pub struct SplitPart;

impl Split<DrawerTally> for SplitPart {
    ghost use Rattle.std.specs.Prelude.{◌-◌};
    ghost use Rattle.connection_turns.specs.Rules.{drawer_tally};

    ghost left = { λ v. drawer_tally (v.parts - 1) v.drawn v.ended };

    ghost right = { λ _. drawer_tally 1 0 0 };
}

// A drawer is taken in.
pub struct ReturnPart;

impl Join<DrawerTally> for ReturnPart {
    ghost use Rattle.std.specs.Prelude.{◌+◌};
    ghost use Rattle.connection_turns.specs.Rules.{drawer_tally};

    ghost both = { λ v w. drawer_tally (v.parts + w.parts) (v.drawn + w.drawn)
        (v.ended + w.ended) };

    ghost spent = { drawer_tally 0 0 0 };
}
