//! What the listeners of a server were shown.

ghost use Rattle.std.specs.Prelude.{◌≡◌, ◌++◌, ◌∷◌, [], length, IfSome};
ghost use Rattle.version_cell.specs.SignedEntries.{GoesOn};
ghost use Rattle.server_cases.specs.History.{log_in, SawOne};

use command_ends::SeatView;
use commands::shown_seat::ShownSeat;
use std::marker::{Brand, Model, PhantomData};
use std::snapshot::Snapshot;

/// Which cell the seats are of. Each call picks it.
pub(crate) trait BookName {
    ghost use Rattle.logbook.specs.Pages.{Book};

    ghost book: { Book };
}

impl BookName for Brand {
    ghost book = { record { number = 0; log_name = 0; cells_name = 0 } };
}

// Seats in order, as they were shown. Contracts alone see them, and they take no memory.
#[derive(Drop)]
struct Seats {
    before: Option<Snapshot<Seats>>,
    last: Option<Snapshot<ShownSeat>>,
}

impl Model for Seats {
    ghost use Rattle.server_cases.specs.History.{ShownAt, seats_of};

    ghost Value = { ShownAt };

    ghost size = { λ seats. seats.steps };

    ghost view = { λ s. seats_of (λ before. before.value) (λ last. last.value) s.before s.last };
}

impl Seats {
    // None.
    fn none() -> Seats
        ensures { result.seats ≡ [] }
    {
        Seats {
            before: None,
            last: None,
        }
    }

    // One more.
    fn push(&mut self, seat: &ShownSeat)
        ensures { self.new.seats ≡ self.old.seats ++ seat.now ∷ [] }
    {
        *self = Seats {
            before: Some(Snapshot::of(self)),
            last: Some(Snapshot::of(seat)),
        };
    }
}

/// The seats of one cell that were shown, by whichever listener. Contracts see the longest log, and
/// all seats as they were shown. Whatever is shown, all that these have seen is of that one log,
/// and each made just what the log that it saw has of it.
#[derive(Drop)]
pub(crate) struct History<C: BookName> {
    longest: Option<ShownSeat>,
    shown: Seats,
    of: PhantomData<C>,
}

impl<C: BookName> Model for History<C> {
    ghost use Rattle.std.specs.Prelude.{◌≡◌, IfSome};
    ghost use Rattle.server_cases.specs.History.{HistoryAt, log_in, SawOne};

    ghost Value = { HistoryAt };

    ghost view = { λ h. record { log = log_in h.longest; shown = h.shown.seats } };

    ghost invariant = { λ h. IfSome h.longest (λ longest. longest.book ≡ C.book)
        × SawOne (log_in h.longest) h.shown.seats };
}

impl<C: BookName> History<C> {
    /// Nothing was shown.
    pub(crate) fn new() -> History<C>
        ensures { result.shown ≡ [] }
    {
        History {
            longest: None,
            shown: Seats::none(),
            of: PhantomData,
        }
    }

    /// How many entries the one log has, so far as it was shown.
    pub(crate) fn entries(&self) -> u64
        ensures { result ≡ length self.now.log }
    {
        match &self.longest {
            None => 0,
            Some(seat) => seat.len(),
        }
    }

    /// A seat is shown.
    #[tactic(auto, using(crate::proofs::Going::saw_all))]
    pub(crate) fn add(&mut self, seat: &ShownSeat)
        requires { seat.now.book ≡ C.book }
        ensures shown { self.new.shown ≡ self.old.shown ++ seat.now ∷ [] }
        ensures on { GoesOn self.old.log self.new.log }
    {
        seat.tell_exact();
        let longest = self.longest.take();
        self.longest = Some(longer::<C>(longest, seat));
        self.shown.push(seat);
    }
}

// The longer of what was the longest and of what is shown.
#[tactic(auto, using(crate::proofs::Going::goes_on_self, crate::proofs::Going::goes_on_none))]
fn longer<C: BookName>(longest: Option<ShownSeat>, seat: &ShownSeat) -> ShownSeat
    requires one { IfSome longest (λ longest. longest.book ≡ C.book) }
    requires book { seat.now.book ≡ C.book }
    ensures book { result.book ≡ C.book }
    ensures on { GoesOn (log_in longest) result.log }
    ensures all { GoesOn seat.now.log result.log }
{
    match longest {
        None => seat.again(),
        Some(longest) => {
            if longest.sees_no_more(seat) {
                seat.again()
            } else {
                longest
            }
        }
    }
}
