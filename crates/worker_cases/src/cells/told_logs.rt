//! What one seat tells another, and what all have seen in the end.

ghost use Rattle.std.specs.Prelude.{◌≡◌};
ghost use Rattle.version_cell.specs.Blanks.{IsNamed};

use crate::cells::rows::{put_through, rows_of};
use scan_base::{Fault, HashSeed, Text};
use std::alloc::Global;
use std::sync::Wait;
use version_cell::{Blank, Brand, CellName, Scanner, SharedPutter, UnnamedBook, open};

// How many puts a seat has seen or was told of.
fn told_of<C: CellName>(seat: &Scanner<C>) -> u64 {
    seat.tell().number()
}

// Tells one seat what another has seen.
fn tell<C: CellName>(ahead: &Scanner<C>, behind: &mut Scanner<C>) {
    let told = ahead.tell();
    behind.learn(&told);
}

/// A put is made through one of two seats, and the other is told of it: the put's number, of how
/// many puts each seat was told before, of how many the other was told then, and how many there are
/// in all.
pub fn one_seat_tells_another<R: Wait>(
    rt: &R,
    alloc: Global,
    seed: HashSeed,
) -> Result<String, Fault> {
    let blank = open(alloc, seed, 2, UnnamedBook::new())?;
    told_by_another::<Brand, R>(rt, alloc, blank)
}

fn told_by_another<C: CellName, R: Wait>(
    rt: &R,
    alloc: Global,
    blank: Blank,
) -> Result<String, Fault>
    requires cell { IsNamed blank C.book C.name C.parts C.asks C.numbers }
    requires seats { blank.seats ≡ 2 }
{
    let (putter, mut seats) = blank.named::<C, &R>(alloc, rt)?;
    let mut shared = SharedPutter::new(putter);
    let (Some(mut ahead), Some(mut behind)) = (seats.pop(), seats.pop()) else {
        return Ok(String::from_str(alloc, "fewer seats")?);
    };
    let put = put_through(rt, alloc, &shared, &mut ahead);
    let (told, before) = (told_of(&ahead), told_of(&behind));
    tell(&ahead, &mut behind);
    let learnt = told_of(&behind);
    let mut all = shared.gather();
    all.take(ahead);
    all.take(behind);
    let whole = shared.whole_log(rt, all).number();
    Ok(format!(in alloc; "{} {told} {before} {learnt} {whole}", put?)?)
}

/// One of two seats holds version 1, while an expiry through the other drops it: the floor, the
/// fault of a look at that version, how many rows the one that is held has, and how many puts there
/// are in all.
pub fn one_seat_holds_what_expires<R: Wait>(
    rt: &R,
    alloc: Global,
    seed: HashSeed,
) -> Result<String, Fault> {
    let blank = open(alloc, seed, 2, UnnamedBook::new())?;
    held_beside::<Brand, R>(rt, alloc, blank)
}

fn held_beside<C: CellName, R: Wait>(rt: &R, alloc: Global, blank: Blank) -> Result<String, Fault>
    requires cell { IsNamed blank C.book C.name C.parts C.asks C.numbers }
    requires seats { blank.seats ≡ 2 }
{
    let table = Text::new(alloc, "t")?;
    let (putter, mut seats) = blank.named::<C, &R>(alloc, rt)?;
    let mut shared = SharedPutter::new(putter);
    let (Some(mut writer), Some(mut holder)) = (seats.pop(), seats.pop()) else {
        return Ok(String::from_str(alloc, "fewer seats")?);
    };
    let first = put_through(rt, alloc, &shared, &mut writer);
    let second = put_through(rt, alloc, &shared, &mut writer);
    let held = holder.at(1);
    let floor = shared.expire(rt, alloc, &mut writer, 2);
    let gone = holder.at(1).err();
    let mut all = shared.gather();
    all.take(writer);
    all.take(holder);
    let whole = shared.whole_log(rt, all).number();
    let (_, _, held, floor) = (first?, second?, held?, floor?);
    Ok(format!(in alloc; "{floor} {gone:?} {} {whole}", rows_of(&held, &table))?)
}
