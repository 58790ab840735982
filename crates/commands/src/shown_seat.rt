//! What a listener is shown of a seat.

ghost use Rattle.std.specs.Prelude.{◌≡◌, length};

use command_ends::SeatView;
use std::marker::Model;
use version_cell::Rest;

/// A seat of a server's cell, as a listener is shown it. Contracts see it as the cell tells of it:
/// the book of the cell, the number of the seat, the log that it has seen, with the seat of each
/// entry, what was made through it, and how often it asked.
#[derive(Drop)]
pub struct ShownSeat {
    rest: Rest,
}

impl Model for ShownSeat {
    ghost use Rattle.version_cell.specs.Rests.{RestAt};

    ghost Value = { RestAt };

    ghost view = { λ shown. shown.rest };
}

impl ShownSeat {
    /// What the cell told when the seat asked.
    pub fn new(rest: Rest) -> ShownSeat
        ensures { result ≡ rest }
    {
        ShownSeat { rest }
    }

    /// How many entries it has seen.
    pub fn len(&self) -> u64
        ensures { result ≡ length self.now.log }
    {
        self.rest.len()
    }
}

impl SeatView for ShownSeat {
    ghost use Rattle.std.specs.Prelude.{◌≡◌};
    ghost use Rattle.version_cell.specs.SignedEntries.{own, GoesOn};
    ghost use Rattle.commands.specs.ShownSeat.{HasLearnt, IsNewSeat};

    ghost is_new = { IsNewSeat };

    ghost learns = { HasLearnt };

    ghost is_beside = { λ one other. other.book ≡ one.book };

    ghost begins = { λ one other. GoesOn one.log other.log };

    ghost is_exact = { λ shown. shown.made ≡ own shown.seat shown.log };

    fn again(&self) -> ShownSeat {
        ShownSeat {
            rest: self.rest.again(),
        }
    }

    fn tell_exact(&self) {
        self.rest.exact();
    }

    fn sees_no_more(&self, other: &ShownSeat) -> bool {
        self.rest.begins(&other.rest)
    }
}
