//! A cell that several threads share.

ghost use Rattle.version_cell.specs.Blanks.{IsNamed};

use crate::cells::rows::{put_one, put_through, rows_of};
use scan_base::{Fault, HashSeed, Text};
use std::alloc::{AllocError, Global};
use std::sync::Wait;
use std::sync::atomic::{AtomicU64, Ordering};
use std::thread;
use std::thread::Threads;
use version_cell::{
    Blank, Brand, CellName, Putter, Scanner, SharedPutter, Told, UnnamedBook, open,
};

// What is done with a seat, in a thread of its own.
trait Job<C: CellName> {
    fn work(&self, seat: &mut Scanner<C>);
}

// Works with each of two seats at once.
fn work_at_once<C, J, T>(rt: &T, job: &J, seats: &mut [Scanner<C>])
where
    C: CellName + Send + Sync,
    J: Job<C> + Sync,
    T: Threads + Sync,
{
    let each = |_place: usize, seat: &mut Scanner<C>| job.work(seat);
    thread::for_each_mut(rt, seats, 2, &each);
}

// The number of the newest version, if it has as many rows as its number.
fn look<C: CellName>(seat: &mut Scanner<C>, table: &Text) -> Option<u64> {
    let version = seat.current().ok()?;
    let number = version.number();
    if rows_of(&version, table) == number {
        Some(number)
    } else {
        None
    }
}

// 1,000 looks. It tells whether each was right, and no number was below the one before.
fn look_many<C: CellName>(seat: &mut Scanner<C>, table: &Text) -> bool {
    let mut last = 0;
    for _ in 0..1_000 {
        match look(seat, table) {
            Some(number) if last <= number => last = number,
            _ => return false,
        }
    }
    true
}

// 1,000 looks of each seat, and for how many seats all were right.
#[derive(Drop)]
struct SeatLooks {
    table: Text,
    right: AtomicU64,
}

impl<C: CellName> Job<C> for SeatLooks {
    fn work(&self, seat: &mut Scanner<C>) {
        let right = u64::from(look_many(seat, &self.table));
        self.right.fetch_add(right, Ordering::SeqCst);
    }
}

// What is done in a thread of its own next to that.
trait Puts {
    // It tells how many puts were right, up to the first that was not.
    fn put_all(&mut self) -> u64;
}

// 1,000 puts of one row each.
#[derive(Drop)]
struct ManyPuts<C: CellName, R: Wait + Drop> {
    alloc: Global,
    putter: Putter<C, R>,
}

impl<C: CellName, R: Wait + Drop> Puts for ManyPuts<C, R> {
    // A put is right that has its number.
    fn put_all(&mut self) -> u64 {
        for before in 0..1_000 {
            match put_one(self.alloc, &mut self.putter) {
                Ok(number) if number == before + 1 => {}
                _ => return before,
            }
        }
        1_000
    }
}

// Puts, next to the work with each seat in threads of their own. It tells how many puts were right.
fn put_beside<C, J, P, T>(rt: &T, puts: &mut P, job: &J, seats: &mut [Scanner<C>]) -> u64
where
    C: CellName + Send + Sync,
    J: Job<C> + Sync,
    P: Puts,
    T: Threads + Sync,
{
    let (_, right) = thread::join(rt, || work_at_once(rt, job, seats), || puts.put_all());
    right
}

// How many rows the version of a number has, for a seat.
fn rows_at<C: CellName>(seat: &mut Scanner<C>, number: u64, table: &Text) -> u64 {
    match seat.at(number) {
        Ok(version) => rows_of(&version, table),
        Err(_) => 0,
    }
}

// The newest version that a seat sees while nobody told it of the puts, and how many rows it finds
// in version 500 once it learnt what was told.
fn sees<C: CellName>(seat: &mut Scanner<C>, told: &Told<C>, table: &Text) -> (u64, u64) {
    let newest = look(seat, table).unwrap_or(0);
    seat.learn(told);
    (newest, rows_at(seat, 500, table))
}

// The same of each seat.
fn see_all<C: CellName>(
    alloc: Global,
    seats: &mut [Scanner<C>],
    told: &Told<C>,
    table: &Text,
) -> Result<String, AllocError> {
    let mut all = String::new(alloc);
    for seat in seats {
        let (newest, rows) = sees(seat, told, table);
        let one = format!(in alloc; ", {newest} {rows}")?;
        all.push_str(&one)?;
    }
    Ok(all)
}

/// One thread puts 1,000 times, while two look 1,000 times each: how many puts were right, of how
/// many seats all looks were, of how many puts the putter tells, and what each seat then sees.
pub fn two_look_while_one_puts<R: Threads + Wait + Sync>(
    rt: &R,
    alloc: Global,
    seed: HashSeed,
) -> Result<String, Fault> {
    let blank = open(alloc, seed, 2, UnnamedBook::new())?;
    looked_at_by_two::<Brand, R>(rt, alloc, blank)
}

fn looked_at_by_two<C: CellName + Send + Sync, R: Threads + Wait + Sync>(
    rt: &R,
    alloc: Global,
    blank: Blank,
) -> Result<String, Fault>
    requires { IsNamed blank C.book C.name C.parts C.asks C.numbers }
{
    let looking = SeatLooks {
        table: Text::new(alloc, "t")?,
        right: AtomicU64::new(0),
    };
    let (putter, mut seats) = blank.named::<C, &R>(alloc, rt)?;
    let mut puts = ManyPuts { alloc, putter };
    let put = put_beside(rt, &mut puts, &looking, seats.as_mut_slice());
    let told = puts.putter.tell();
    let seen = see_all(alloc, seats.as_mut_slice(), &told, &looking.table)?;
    let looked = looking.right.load(Ordering::SeqCst);
    Ok(format!(in alloc; "{put} {looked} {}{seen}", told.number())?)
}

/// Two threads put by one lock, and each then sees its own put: the sum of the puts' numbers, and
/// how many puts were seen.
pub fn two_put_by_one_lock<R: Threads + Wait + Sync>(
    rt: &R,
    alloc: Global,
    seed: HashSeed,
) -> Result<String, Fault> {
    let blank = open(alloc, seed, 2, UnnamedBook::new())?;
    put_by_two::<Brand, R>(rt, alloc, blank)
}

// A put, and a look after it: the puts' numbers added up, and how many were seen by their seats.
#[derive(Drop)]
struct PutAndLook<'a, C: CellName, R: Wait> {
    rt: &'a R,
    alloc: Global,
    shared: SharedPutter<C, &'a R>,
    table: Text,
    numbers: AtomicU64,
    seen: AtomicU64,
}

impl<'a, C: CellName, R: Wait> Job<C> for PutAndLook<'a, C, R> {
    fn work(&self, seat: &mut Scanner<C>) {
        let number = put_through(self.rt, self.alloc, &self.shared, seat).unwrap_or(0);
        let newest = look(seat, &self.table).unwrap_or(0);
        self.numbers.fetch_add(number, Ordering::SeqCst);
        let sees = u64::from(0 < number && number <= newest);
        self.seen.fetch_add(sees, Ordering::SeqCst);
    }
}

fn put_by_two<C: CellName + Send + Sync, R: Threads + Wait + Sync>(
    rt: &R,
    alloc: Global,
    blank: Blank,
) -> Result<String, Fault>
    requires { IsNamed blank C.book C.name C.parts C.asks C.numbers }
{
    let table = Text::new(alloc, "t")?;
    let (putter, mut seats) = blank.named::<C, &R>(alloc, rt)?;
    let putting = PutAndLook {
        rt,
        alloc,
        shared: SharedPutter::new(putter),
        table,
        numbers: AtomicU64::new(0),
        seen: AtomicU64::new(0),
    };
    work_at_once(rt, &putting, seats.as_mut_slice());
    let numbers = putting.numbers.load(Ordering::SeqCst);
    let seen = putting.seen.load(Ordering::SeqCst);
    Ok(format!(in alloc; "{numbers} {seen}")?)
}
