//! How a cell is made.

ghost use Rattle.std.specs.Prelude.{◌≡◌, ◌≤◌, ◌<◌, [], length, drop, All, IfOk, IfErr, IfSome};
ghost use Rattle.std.specs.Arc.{arc_value};
ghost use Rattle.scan_base.specs.declared.fault.Fault.TheVariants.{OutOfMemory};
ghost use Rattle.version_cell.specs.Blanks.{IsNamed, most_seats};
ghost use Rattle.version_cell.specs.Counts.{Counted};
ghost use Rattle.version_cell.specs.Seats.{seat, IsNumbered};
ghost use Rattle.version_cell.specs.Shares.{cutter_at};
ghost use Rattle.version_cell.specs.SignedEntries.{log_of};
ghost use Rattle.version_log.specs.Versions.{IsIndexOf};

use crate::book::{CellName, History, UnnamedBook};
use crate::cell_rule::{Publish, Store};
use crate::maker::Maker;
use crate::publisher::{CellWriter, Publisher};
use crate::putter::Putter;
use crate::scanner::Scanner;
use crate::tally::{Cutter, Ledgers};
use scan_base::{Fault, HashSeed};
use std::alloc::{AllocError, Global};
use std::marker::Model;
use std::sync::{Arc, Wait};
use version_log::VersionIndex;

/// A cell of version 0 alone, which has no name yet. Contracts see it as the book of its log, the
/// ledgers of its entries, of its asks and of the numbers of its seats, and how many seats it will
/// have.
#[derive(Drop)]
pub struct Blank {
    opened: UnnamedBook,
    ledgers: Ledgers,
    seats: usize,
    index: Arc<VersionIndex>,
}

impl Model for Blank {
    ghost use Rattle.std.specs.Prelude.{◌≡◌, ◌≤◌, ◌<◌, []};
    ghost use Rattle.std.specs.Arc.{arc_value};
    ghost use Rattle.version_cell.specs.Blanks.{BlankAt, most_seats};
    ghost use Rattle.version_log.specs.Versions.{IsIndexOf};

    ghost Value = { BlankAt };

    ghost view = { λ b. record {
      book = b.opened;
      ledger = b.ledgers.entries.name;
      asks = b.ledgers.asks.name;
      numbers = b.ledgers.numbers.name;
      seats = b.seats;
    } };

    ghost invariant = { λ b. (0 < b.seats) × (b.seats ≤ most_seats)
        × (b.ledgers.entries.parts ≡ b.seats)
        × (b.ledgers.asks.parts ≡ b.seats) × (b.ledgers.numbers.parts ≡ b.seats)
        × IsIndexOf (arc_value b.index) [] };
}

/// A cell with so many seats, whose log stands in this book. Hashes of the values of its versions
/// begin with the seed.
///
/// # Errors
///
/// F21 (`Fault::OutOfMemory`) where memory is refused.
pub fn open(
    alloc: Global,
    seed: HashSeed,
    seats: usize,
    opened: UnnamedBook,
) -> Result<Blank, Fault>
    requires { (0 < seats) × (seats ≤ most_seats) }
    ensures ok { IfOk result (λ blank. (blank.seats ≡ seats) × (blank.book ≡ opened)) }
    ensures err { IfErr result (λ fault. fault ≡ OutOfMemory) }
{
    let index = VersionIndex::new(alloc, seed)?;
    Ok(Blank {
        opened,
        ledgers: Ledgers::new(seats as u64),
        seats,
        index: Arc::new(alloc, index)?,
    })
}

impl Blank {
    /// The putter and the seats of the cell, which C names from now on.
    ///
    /// # Errors
    ///
    /// F21 (`Fault::OutOfMemory`) where memory is refused, or a seat.
    pub fn named<C: CellName, R: Wait + Drop>(
        self,
        alloc: Global,
        rt: R,
    ) -> Result<(Putter<C, R>, Vec<Scanner<C>>), Fault>
        requires { IsNamed self C.book C.name C.parts C.asks C.numbers }
        ensures ok { IfOk result (λ cell. (cell.0 ≡ []) × (length cell.1.items ≡ self.seats)
            × All (λ scanner. scanner ≡ seat scanner.number [] [] 0 []) cell.1.items) }
        ensures numbers { IfOk result (λ cell. IsNumbered 0 cell.1.items) }
        ensures err { IfErr result (λ fault. fault ≡ OutOfMemory) }
    {
        let Blank {
            opened,
            ledgers,
            seats,
            index,
        } = self;
        let counts = zeros(alloc, seats)?;
        let (head, history) = opened.into_parts();
        let mut cutter = Cutter::<C>::new(ledgers);
        let store = Store::new(index, history.again());
        let Some(writer) = first_writer::<C>(alloc, store, seats) else {
            return Err(Fault::OutOfMemory);
        };
        let Some(writer) = with_room(&rt, writer) else {
            return Err(Fault::OutOfMemory);
        };
        match seat_all(alloc, &writer, &history, &mut cutter, seats) {
            Some(scanners) => {
                let publisher = Publisher::new(head, writer, rt);
                Ok((Putter::new(publisher, cutter.close(), counts), scanners))
            }
            None => {
                drop(writer.take(&rt));
                Err(Fault::OutOfMemory)
            }
        }
    }
}

// So many zeros: each seat has no entry in a log that has none.
fn zeros(alloc: Global, count: usize) -> Result<Vec<u64>, AllocError>
    ensures { IfOk result (λ zeros. Counted zeros.items []) }
{
    let mut zeros = Vec::new(alloc);
    for _ in 0..count {
        zeros.push(0)?;
    }
    Ok(zeros)
}

// A writer that shows this store.
fn first_writer<C: CellName>(alloc: Global, store: Store, seats: usize) -> Option<CellWriter<C>>
    requires seats { (0 < seats) × (seats ≤ most_seats) }
    requires book { store.history.seen.book ≡ C.book }
    ensures shown { IfSome result (λ writer. writer.desk.shown.value.history.seen
        ≡ store.history.seen) }
    ensures pending { IfSome result (λ writer. drop writer.behind writer.log.items ≡ []) }
{
    let second = store.again().ok()?;
    CellWriter::<C>::new(alloc, store, second, seats).ok()
}

// The writer after one publish of what it shows, which leaves room for the next.
fn with_room<C: CellName, R: Wait>(rt: &R, writer: CellWriter<C>) -> Option<CellWriter<C>>
    requires book { writer.desk.shown.value.history.seen.book ≡ C.book }
    requires pending { drop writer.behind writer.log.items ≡ [] }
    ensures { IfSome result (λ next. next.desk.shown.value.history.seen
        ≡ writer.desk.shown.value.history.seen) }
{
    let mut writer = writer;
    let added = match writer.published().again() {
        Ok(store) => writer.append(store).is_ok(),
        Err(_) => false,
    };
    if !added {
        drop(writer.take(rt));
        return None;
    }
    let (writer, done) = writer.publish_as::<Publish, R>(rt);
    if done.is_err() {
        drop(writer.take(rt));
        return None;
    }
    Some(writer)
}

// So many seats of what the writer shows, with the first numbers, and shares of each.
fn seat_all<C: CellName>(
    alloc: Global,
    writer: &CellWriter<C>,
    history: &History,
    cutter: &mut Cutter<C>,
    seats: usize,
) -> Option<Vec<Scanner<C>>>
    requires book { history.now.seen.book ≡ C.book }
    requires few { seats ≤ most_seats }
    requires cutter { cutter.old ≡ cutter_at 0 seats }
    ensures all { IfSome result (λ all. (length all.items ≡ seats)
        × All (λ scanner. scanner ≡ seat scanner.number (log_of history.now.seen.log) [] 0 [])
        all.items) }
    ensures numbers { IfSome result (λ all. IsNumbered 0 all.items) }
    ensures left { IfSome result (λ _. cutter.new.left ≡ 0) }
{
    let mut scanners = Vec::new(alloc);
    for number in 0..seats {
        let maker = Maker::new(number as u64, history.again(), cutter.cut());
        scanners.push(Scanner::new(writer, maker)?).ok()?;
    }
    Some(scanners)
}
