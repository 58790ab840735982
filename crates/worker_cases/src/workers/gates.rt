//! Gates that show that workers are at work at once, and that each morsel passes one.

use crate::workers::all_answers::answers_of;
use crate::workers::numbers::Numbers;
use scan_workers::{Gate, run};
use std::alloc::{AllocError, Global};
use std::sync::Wait;
use std::sync::atomic::{AtomicBool, AtomicU64, Ordering};
use std::thread;
use std::thread::Threads;
use std::time::{Clock, Duration};

/// It holds one morsel until a later one entered, but no longer than 10,000 turns of a millisecond.
#[derive(Drop)]
pub struct HoldsOne<'a, R: Clock> {
    rt: &'a R,
    held: usize,
    // Whether a later one entered.
    entered: AtomicBool,
    // Whether the held one went on because of it.
    opened: AtomicBool,
}

impl<'a, R: Clock> HoldsOne<'a, R> {
    /// It holds this morsel.
    pub fn new(rt: &'a R, held: usize) -> HoldsOne<'a, R> {
        HoldsOne {
            rt,
            held,
            entered: AtomicBool::new(false),
            opened: AtomicBool::new(false),
        }
    }

    /// Whether the held morsel goes on because a later one entered, within 10,000 turns of a
    /// millisecond.
    pub fn opens(&self) -> bool {
        for _ in 0..10_000u32 {
            if self.opened.load(Ordering::SeqCst) {
                return true;
            }
            thread::sleep(self.rt, Duration::from_millis(1));
        }
        false
    }
}

impl<'a, R: Clock> Gate for HoldsOne<'a, R> {
    fn enter(&self, morsel: usize) {
        if morsel > self.held {
            self.entered.store(true, Ordering::SeqCst);
        }
        if morsel != self.held {
            return;
        }
        for _ in 0..10_000u32 {
            if self.entered.load(Ordering::SeqCst) {
                self.opened.store(true, Ordering::SeqCst);
                return;
            }
            thread::sleep(self.rt, Duration::from_millis(1));
        }
    }
}

/// Two workers answer eight morsels while morsel 0 is held: whether it was let go by a later one,
/// and the answers.
pub fn a_held_worker_holds_no_other<R: Threads + Wait + Clock + Sync>(
    rt: &R,
    alloc: Global,
) -> Result<String, AllocError> {
    let gate = HoldsOne::new(rt, 0);
    let answers = answers_of(rt, alloc, &Numbers::new(8), 2, &gate)?;
    format!(in alloc; "{}{answers}", gate.opened.load(Ordering::SeqCst))
}

// It holds each morsel until so many entered, but no longer than 10,000 turns of a millisecond.
#[derive(Drop)]
struct HoldsUntil<'a, R: Clock> {
    rt: &'a R,
    wanted: u64,
    // How many morsels entered.
    entered: AtomicU64,
    // How many went on because so many entered.
    opened: AtomicU64,
}

impl<'a, R: Clock> Gate for HoldsUntil<'a, R> {
    fn enter(&self, _morsel: usize) {
        self.entered.fetch_add(1, Ordering::SeqCst);
        for _ in 0..10_000u32 {
            if self.entered.load(Ordering::SeqCst) >= self.wanted {
                self.opened.fetch_add(1, Ordering::SeqCst);
                return;
            }
            thread::sleep(self.rt, Duration::from_millis(1));
        }
    }
}

// Whether so many workers enter before one goes on. No worker enters twice before.
fn all_enter<R: Threads + Wait + Clock + Sync>(
    rt: &R,
    alloc: Global,
    workers: usize,
    chooses_first: bool,
) -> Result<bool, AllocError> {
    let gate = HoldsUntil {
        rt,
        wanted: workers as u64,
        entered: AtomicU64::new(0),
        opened: AtomicU64::new(0),
    };
    let work = Numbers::of_kind(50, chooses_first);
    let answers = run(rt, alloc, &work, workers, &gate)?;
    Ok(answers.len() == 50 && gate.opened.load(Ordering::SeqCst) == 50)
}

/// For how many numbers of workers, of 1 to 16, so many morsels are at work at once: where none is
/// chosen first, and where all are.
pub fn all_workers_are_at_work_at_once<R: Threads + Wait + Clock + Sync>(
    rt: &R,
    alloc: Global,
) -> Result<String, AllocError> {
    let (mut made, mut chosen) = (0u32, 0u32);
    for workers in 1..17 {
        if all_enter(rt, alloc, workers, false)? {
            made = made.saturating_add(1);
        }
        if all_enter(rt, alloc, workers, true)? {
            chosen = chosen.saturating_add(1);
        }
    }
    format!(in alloc; "{made} {chosen}")
}

// It marks each of 50 morsels.
#[derive(Drop)]
struct Marks {
    marked: AtomicU64,
    // How many entered.
    entered: AtomicU64,
}

impl Gate for Marks {
    fn enter(&self, morsel: usize) {
        self.marked.fetch_or(1 << (morsel % 64), Ordering::SeqCst);
        self.entered.fetch_add(1, Ordering::SeqCst);
    }
}

// Whether each of 50 morsels passes the gate once.
fn each_enters<R: Threads + Wait + Sync>(
    rt: &R,
    alloc: Global,
    workers: usize,
    chooses_first: bool,
) -> Result<bool, AllocError> {
    let gate = Marks {
        marked: AtomicU64::new(0),
        entered: AtomicU64::new(0),
    };
    run(
        rt,
        alloc,
        &Numbers::of_kind(50, chooses_first),
        workers,
        &gate,
    )?;
    let marked = gate.marked.load(Ordering::SeqCst);
    Ok(marked == (1 << 50) - 1 && gate.entered.load(Ordering::SeqCst) == 50)
}

/// For how many numbers of workers, of 1 to 16, each morsel passes the gate once: where none is
/// chosen first, and where all are.
pub fn each_morsel_passes_the_gate_once<R: Threads + Wait + Sync>(
    rt: &R,
    alloc: Global,
) -> Result<String, AllocError> {
    let (mut made, mut chosen) = (0u32, 0u32);
    for workers in 1..17 {
        if each_enters(rt, alloc, workers, false)? {
            made = made.saturating_add(1);
        }
        if each_enters(rt, alloc, workers, true)? {
            chosen = chosen.saturating_add(1);
        }
    }
    format!(in alloc; "{made} {chosen}")
}
