//! The morsels of a stream as work.

use fetch_stream::{MorselParcels, Morsels};
use scan_workers::Work;
use std::alloc::Global;

// The morsels of a stream, each of which is answered by its payloads. A worker chooses the first
// rows of one, and then makes some payloads ahead, turn by turn.
#[derive(Drop)]
pub(crate) struct MorselWork<'s> {
    pub(crate) morsels: Morsels<'s>,
}

impl<'s> Work for MorselWork<'s> {
    type Answer = MorselParcels<'s>;

    ghost use Rattle.std.specs.Prelude.{◌≡◌, length};
    ghost use Rattle.fetch_stream.specs.Morsels.{morsel_stream};

    ghost ready = { λ _. Unit {0} };

    ghost count = { λ w. length w.morsels.rows };

    ghost answers = { λ w number answer. answer ≡ morsel_stream w.morsels number };

    fn count(&self) -> usize {
        self.morsels.count()
    }

    fn chooses_first(&self) -> bool {
        true
    }

    fn answer(&self, alloc: Global, morsel: usize) -> MorselParcels<'s> {
        let mut ahead = self.morsels.ahead(alloc, morsel);
        ahead.choose(alloc);
        ahead
    }

    fn go_on(&self, alloc: Global, answer: &mut MorselParcels<'s>) -> bool {
        answer.go_on(alloc, self.morsels.turns_ahead())
    }
}
