//! The payloads of one morsel.

use fetch_stream::{MorselParcels, Parcel};
use row_sources::{Patience, Turn};
use scan_base::Fault;
use std::alloc::Global;

// The payloads of one morsel, one at a time, and how many rows they have.
pub(crate) trait Part: Drop {
    ghost use Rattle.std.specs.Prelude.{◌≡◌, ◌≤◌, ◌+◌, length};
    ghost use Rattle.fetch_stream.specs.Streams.{StreamAt, GivesTurn};

    // What is still to come of it.
    ghost stream: { Self → StreamAt };

    // A turn to the next parcel.
    fn turn(&mut self, alloc: Global, patience: Patience) -> Result<Turn<Parcel>, Fault>
        ensures { GivesTurn patience (stream self.old) result (stream self.new) };

    // How many rows were given.
    fn given(&self) -> usize
        ensures { result ≡ (stream self.now).given };

    // How many rows were taken of its scan.
    fn taken(&self) -> usize
        ensures given { (stream self.now).given ≤ result }
        ensures there { result ≤ (stream self.now).given + length (stream self.now).left };
}

impl<'s> Part for MorselParcels<'s> {
    ghost stream = { λ s. s };

    fn turn(&mut self, alloc: Global, patience: Patience) -> Result<Turn<Parcel>, Fault> {
        MorselParcels::turn(self, alloc, patience)
    }

    fn given(&self) -> usize {
        MorselParcels::given(self)
    }

    fn taken(&self) -> usize {
        MorselParcels::taken(self)
    }
}
