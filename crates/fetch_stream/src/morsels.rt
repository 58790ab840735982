//! The morsels of a stream.

ghost use Rattle.std.specs.Prelude.{◌≡◌, ◌<◌, IfOk, length, ℕ};
ghost use Rattle.fetch_stream.specs.Morsels.{GivesSchema, behind_schema, morsel_stream};
ghost use Rattle.fetch_stream.specs.inside.MadeAhead.{FallsInto, morsels_at};
ghost use Rattle.scan_exec.specs.Morsels.{morsel_rows};

use crate::message::{WriteContext, schema_payload};
use crate::morsel_parcels::{MorselParcels, made_ahead};
use crate::payload::Payload;
use crate::source::Source;
use crate::stream::FetchStream;
use arrays::Batch;
use scan_base::{Fault, HashSeed};
use scan_exec::Scan;
use std::alloc::{AllocError, Global};
use std::marker::Model;

/// The morsels of a stream of which no row was given. The payloads of each can be made apart from
/// those of the others, also by several threads. After the payload of the schema, those of all
/// morsels in order are what the stream gives, as long as it has no more rows than an answer may:
/// who reads them counts their rows. A contract sees the schema, whether a payload has said it, and
/// the rows of each morsel.
pub struct Morsels<'s> {
    scan: &'s Scan,
    count: usize,
    begun: bool,
    making: MakingMorsels,
}

// What the hashes of texts begin with, and how many turns of a morsel's stream are one turn of
// making ahead.
#[derive(Clone, Copy, Drop)]
pub(crate) struct MakingMorsels {
    pub(crate) seed: HashSeed,
    pub(crate) turns: usize,
}

impl<'s> Model for Morsels<'s> {
    ghost use Rattle.fetch_stream.specs.Morsels.{MorselsAt};
    ghost use Rattle.fetch_stream.specs.inside.MadeAhead.{FallsInto, morsels_at};

    ghost Value = { MorselsAt };

    ghost view = { λ m. morsels_at m.scan.now m.count m.begun };

    ghost invariant = { λ m. FallsInto m.scan.now m.count };
}

// Written out, so that dropping it is one call (docs/DECISIONS.md).
impl<'s> Drop for Morsels<'s> {
    fn drop(self) {
        let Morsels {
            scan: _,
            count: _,
            begun: _,
            making: _,
        } = self;
    }
}

impl<'s> Morsels<'s> {
    // The morsels of a scan that falls into so many, of whose schema a payload has told or not.
    pub(crate) fn new(
        scan: &'s Scan,
        count: usize,
        begun: bool,
        making: MakingMorsels,
    ) -> Morsels<'s>
        requires { FallsInto scan.now count }
        ensures { result ≡ morsels_at scan.now count begun }
    {
        Morsels {
            scan,
            count,
            begun,
            making,
        }
    }

    /// How many there are.
    pub fn count(&self) -> usize
        ensures { result ≡ length self.now.rows }
    {
        self.count
    }

    /// Whether a payload of the stream has said its schema.
    pub fn begun(&self) -> bool
        ensures { result ≡ self.now.begun }
    {
        self.begun
    }

    /// How many turns of a morsel's stream are one turn of making ahead (`MorselParcels::go_on`):
    /// fewer where the filters compare much. Contracts say nothing of it.
    pub fn turns_ahead(&self) -> usize {
        self.making.turns
    }

    /// The payload of the schema.
    ///
    /// # Errors
    ///
    /// F21 (`Fault::OutOfMemory`) where memory is refused.
    pub fn first_payload(&self, alloc: Global) -> Result<Payload, Fault>
        ensures { GivesSchema self.now.schema result }
    {
        Ok(schema_payload(alloc, self.scan.schema())?)
    }

    /// A morsel, counted from 0, as a stream of its own, after the payload of the schema. Its
    /// payloads are made when they are asked for, or ahead (`MorselParcels::go_on`). What refuses
    /// it, as memory that is refused here, is answered by it.
    pub fn ahead(&self, alloc: Global, number: usize) -> MorselParcels<'s>
        requires { number < length self.now.rows }
        ensures { result ≡ morsel_stream self.now number }
    {
        let scan = self.scan;
        let writing = WriteContext {
            alloc,
            seed: self.making.seed,
        };
        let rest = morsel_rest(writing, scan, number);
        made_ahead(alloc, scan, number, rest)
    }
}

// The stream of a morsel of a scan, before its first row.
fn morsel_rest(writing: WriteContext, scan: &Scan, number: usize) -> Result<FetchStream, AllocError>
    requires falls { (count : ℕ) × FallsInto scan.now count × (number < count) }
    ensures { IfOk result
        (λ stream. stream.stream ≡ behind_schema scan.now.schema (morsel_rows scan.now number)) }
{
    let WriteContext { alloc, seed } = writing;
    let morsel = scan.morsel(alloc, number)?;
    let nothing = Batch::new(Vec::new(alloc), 0);
    let stream = FetchStream::of(seed, nothing, Source::Scanned(morsel));
    Ok(stream.behind_schema())
}
