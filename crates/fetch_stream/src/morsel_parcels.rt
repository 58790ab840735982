//! Payloads of a morsel, some of which are made ahead.

ghost use Rattle.std.specs.Prelude.{◌≡◌, ◌≤◌, ◌+◌, ℕ, IfOk, List, [], Some, length};
ghost use Rattle.arrow_types.specs.declared.schema.Schema.{Schema};
ghost use Rattle.table_versions.specs.Table.{Row};
ghost use Rattle.scan_exec.specs.Morsels.{morsel_rows};
ghost use Rattle.fetch_stream.specs.Morsels.{behind_schema};
ghost use Rattle.fetch_stream.specs.Streams.{GivesTurn};
ghost use Rattle.fetch_stream.specs.inside.MadeAhead.{AreAhead, GivesMade, MakesNext};

use crate::ahead_parcel::AheadParcel;
use crate::parcel::Parcel;
use crate::stream::FetchStream;
use row_sources::{Patience, Turn, given};
use scan_base::Fault;
use scan_exec::Scan;
use std::alloc::{AllocError, Global};
use std::collections::VecDeque;
use std::marker::Model;
use work_watch::pace::MOST_PIECE_ROWS;

// How many parcels are made ahead, and how many bytes they have, before no more are.
const MOST_MADE: usize = 16;

const MOST_MADE_BYTES: usize = 8_388_608;

// So many turns of a stream, and the patience of each.
#[derive(Drop)]
struct Turns {
    alloc: Global,
    patience: Patience,
    most: usize,
}

/// The parcels of a morsel: those that were made ahead, and after them the others, each of which is
/// made when it is asked for. A contract sees a stream that has begun: it says no schema.
pub struct MorselParcels<'s> {
    scan: &'s Scan,
    number: usize,
    given: usize,
    taken: usize,
    refused: Option<Fault>,
    made: VecDeque<AheadParcel>,
    // How many bytes the parcels have that were made ahead.
    bytes: usize,
    // Nothing where memory was refused for it.
    rest: Option<FetchStream>,
}

impl<'s> Model for MorselParcels<'s> {
    ghost use Rattle.std.specs.Prelude.{◌≡◌, ◌≤◌, true, None, drop, length};
    ghost use Rattle.scan_exec.specs.Morsels.{morsel_rows};
    ghost use Rattle.fetch_stream.specs.Streams.{StreamAt};
    ghost use Rattle.fetch_stream.specs.inside.MadeAhead.{AreAhead};

    ghost Value = { StreamAt };

    ghost view = { λ a. record {
      schema = a.scan.now.schema;
      begun = true;
      left = drop a.given (morsel_rows a.scan.now a.number);
      given = a.given;
      refused = a.refused;
    } };

    ghost invariant = { λ a. (a.given ≤ a.taken)
        × (a.taken ≤ length (morsel_rows a.scan.now a.number)) × (a.refused ≡ None →
        AreAhead a.scan.now.schema (morsel_rows a.scan.now a.number) a.given a.made.items a.rest) };
}

// Written out, so that dropping it is one call (docs/DECISIONS.md).
impl<'s> Drop for MorselParcels<'s> {
    fn drop(self) {
        let MorselParcels {
            scan: _,
            number: _,
            given: _,
            taken: _,
            refused: _,
            made: _,
            bytes: _,
            rest: _,
        } = self;
    }
}

impl<'s> MorselParcels<'s> {
    /// How many rows were given.
    pub fn given(&self) -> usize
        ensures { result ≡ self.now.given }
    {
        self.given
    }

    /// How many rows were taken of the morsel's scan: those that were given, and after them the
    /// others of the batch of which the last parcel is a part.
    pub fn taken(&self) -> usize
        ensures given { self.now.given ≤ result }
        ensures there { result ≤ self.now.given + length self.now.left }
    {
        self.taken
    }

    /// A turn to the next parcel. `Turn::Working` where none of the rows is given that the turn
    /// looked at: then the same is still to come, and the next turn goes on after them.
    ///
    /// # Errors
    ///
    /// F20 (`Fault::ResultTooLarge`) where the morsel has more than 67,108,864 rows; F21
    /// (`Fault::OutOfMemory`) where memory is refused, or was when parcels were made ahead. What
    /// refuses it is answered from then on.
    pub fn turn(&mut self, alloc: Global, patience: Patience) -> Result<Turn<Parcel>, Fault>
        ensures { GivesTurn patience self.old result self.new }
    {
        if let Some(fault) = self.refused {
            return Err(fault);
        }
        match turn_of_made(alloc, patience, &mut self.made, &mut self.rest) {
            Ok(Turn::Given(made)) => {
                self.given = made.given;
                self.taken = made.taken;
                Ok(Turn::Given(made.parcel))
            }
            Ok(Turn::Working) => Ok(Turn::Working),
            Ok(Turn::End) => Ok(Turn::End),
            Err(fault) => {
                self.refused = Some(fault);
                Err(fault)
            }
        }
    }

    /// Chooses the rows of the first parcel, which is not made yet. The same is still to come.
    pub fn choose(&mut self, alloc: Global)
        ensures { self.new ≡ self.old }
    {
        let turns = Turns {
            alloc,
            patience: Patience::Choice,
            most: 1,
        };
        make_more(&turns, &mut self.made, &mut self.bytes, &mut self.rest);
    }

    /// Makes parcels ahead for so many turns of the stream at most (`Morsels::turns_ahead`), until
    /// there are 16 or they have 8,388,608 bytes. A turn looks at 65,536 rows, and the rest of a
    /// piece. Whether there is more to be made ahead then. The same is still to come. What refuses
    /// a parcel is answered after those that were made before.
    pub fn go_on(&mut self, alloc: Global, turns: usize) -> bool
        ensures { self.new ≡ self.old }
    {
        let turns = Turns {
            alloc,
            patience: Patience::Rows(MOST_PIECE_ROWS),
            most: turns,
        };
        make_more(&turns, &mut self.made, &mut self.bytes, &mut self.rest)
    }
}

// A turn to the next parcel: the first one that was made ahead, or else that of the rest.
fn turn_of_made(
    alloc: Global,
    patience: Patience,
    made: &mut VecDeque<AheadParcel>,
    rest: &mut Option<FetchStream>,
) -> Result<Turn<AheadParcel>, Fault>
    ensures { (schema : Schema) (rows : List Row) (given : ℕ) →
        AreAhead schema rows given made.old.items rest.old →
        GivesMade patience schema rows given result made.new.items rest.new }
{
    if let Some(first) = made.pop_front() {
        return Ok(Turn::Given(first));
    }
    match rest {
        Some(stream) => make_next(alloc, patience, stream),
        None => Err(Fault::OutOfMemory),
    }
}

// A turn to the next parcel of a stream, with how many rows are given with it, and taken.
fn make_next(
    alloc: Global,
    patience: Patience,
    stream: &mut FetchStream,
) -> Result<Turn<AheadParcel>, Fault>
    ensures { MakesNext patience stream.old.stream result stream.new.stream }
{
    let parcel = given!(stream.turn(alloc, patience)?);
    let (given, taken) = (stream.given(), stream.taken());
    Ok(Turn::Given(AheadParcel {
        parcel,
        given,
        taken,
    }))
}

// Makes parcels of a stream ahead for so many turns, as many as there is room for. Whether there is
// more to be made ahead then.
fn make_ahead(
    turns: &Turns,
    made: &mut VecDeque<AheadParcel>,
    bytes: &mut usize,
    rest: &mut FetchStream,
) -> bool
    ensures { (schema : Schema) (rows : List Row) (given : ℕ) →
        AreAhead schema rows given made.old.items (Some rest.old) →
        AreAhead schema rows given made.new.items (Some rest.new) }
{
    let mut left = turns.most;
    while left > 0 && made.len() < made.capacity() && *bytes < MOST_MADE_BYTES {
        left -= 1;
        match make_next(turns.alloc, turns.patience, rest) {
            Ok(Turn::Given(next)) => {
                *bytes = bytes.saturating_add(next.parcel.len());
                made.push_back_reserved(next);
            }
            Ok(Turn::Working) => {}
            Ok(Turn::End) => return false,
            Err(_) => return false,
        }
    }
    left == 0
}

// The same, where there is memory for the rest.
fn make_more(
    turns: &Turns,
    made: &mut VecDeque<AheadParcel>,
    bytes: &mut usize,
    rest: &mut Option<FetchStream>,
) -> bool
    ensures { (schema : Schema) (rows : List Row) (given : ℕ) →
        AreAhead schema rows given made.old.items rest.old →
        AreAhead schema rows given made.new.items rest.new }
{
    match rest {
        Some(stream) => make_ahead(turns, made, bytes, stream),
        None => false,
    }
}

// Room for the parcels that are made ahead, or none where memory is refused for it.
fn room_ahead(alloc: Global) -> VecDeque<AheadParcel>
    ensures { result.items ≡ [] }
{
    match VecDeque::with_capacity(alloc, MOST_MADE) {
        Ok(room) => room,
        Err(_) => VecDeque::new(alloc),
    }
}

// The parcels of a morsel of a scan, whose stream is this, before its first row.
pub(crate) fn made_ahead<'s>(
    alloc: Global,
    scan: &'s Scan,
    number: usize,
    stream: Result<FetchStream, AllocError>,
) -> MorselParcels<'s>
    requires { IfOk stream
        (λ stream. stream.stream ≡ behind_schema scan.now.schema (morsel_rows scan.now number)) }
    ensures { result ≡ behind_schema scan.now.schema (morsel_rows scan.now number) }
{
    let made = room_ahead(alloc);
    MorselParcels {
        scan,
        number,
        given: 0,
        taken: 0,
        refused: None,
        made,
        bytes: 0,
        rest: stream.ok(),
    }
}
