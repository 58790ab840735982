//! How many answers there are at once.

use scan_workers::{Answers, NoGate, Reads, Work, in_order};
use std::alloc::{AllocError, Global};
use std::sync::Wait;
use std::sync::atomic::{AtomicU64, Ordering};
use std::thread::Threads;

// How many answers were begun, with how many the reader is done, and how many there were at most
// between.
#[derive(Drop)]
struct Counts {
    begun: AtomicU64,
    done: AtomicU64,
    most: AtomicU64,
}

impl Counts {
    // None is begun yet.
    fn new() -> Counts {
        Counts {
            begun: AtomicU64::new(0),
            done: AtomicU64::new(0),
            most: AtomicU64::new(0),
        }
    }

    // One more is begun.
    fn begin(&self) {
        let begun = self.begun.fetch_add(1, Ordering::SeqCst).saturating_add(1);
        let held = begun.saturating_sub(self.done.load(Ordering::SeqCst));
        self.most.fetch_max(held, Ordering::SeqCst);
    }

    // The reader is done with one more, after a while.
    fn end(&self) {
        for _ in 0..1_000u32 {
            self.begun.load(Ordering::SeqCst);
        }
        self.done.fetch_add(1, Ordering::SeqCst);
    }
}

// What is counted of morsels that are chosen, and of answers that are made.
#[derive(Drop)]
struct MorselCounts {
    chosen: Counts,
    made: Counts,
}

// 200 morsels. Each is counted as it is chosen, and as it is made: at once, or later where it is
// chosen first.
#[derive(Drop)]
struct CountedWork<'a> {
    held: &'a MorselCounts,
    chooses_first: bool,
}

// The answer to a morsel tells whether it is made, and not chosen alone.
impl<'a> Work for CountedWork<'a> {
    type Answer = bool;

    ghost ready = { λ _. Unit {0} };

    ghost count = { λ _. 200 };

    ghost answers = { λ _ _ _. Unit {0} };

    fn count(&self) -> usize {
        200
    }

    fn chooses_first(&self) -> bool {
        self.chooses_first
    }

    fn answer(&self, _alloc: Global, _morsel: usize) -> bool {
        self.held.chosen.begin();
        if !self.chooses_first {
            self.held.made.begin();
        }
        !self.chooses_first
    }

    fn go_on(&self, _alloc: Global, made: &mut bool) -> bool {
        if !*made {
            self.held.made.begin();
        }
        *made = true;
        false
    }
}

// It takes its time over each answer, so that others go ahead. One that was chosen alone it makes
// itself.
#[derive(Drop)]
struct SlowWork<'a> {
    held: &'a MorselCounts,
}

impl<'a> Reads<bool> for SlowWork<'a> {
    type Out = ();

    ghost takes = { λ _ _ _. Unit {0} };

    ghost reads = { λ _ _ _ _ _. Unit {0} };

    fn read<P: Answers<bool>>(&mut self, answers: &mut P) {
        while let Some(made) = answers.next() {
            if !made {
                self.held.made.begin();
            }
            self.held.made.end();
            self.held.chosen.end();
        }
    }
}

// So many answers are made at once at most, and so many morsels chosen.
#[derive(Drop)]
struct MostCounts {
    chosen: u64,
    made: u64,
}

// How many morsels so many workers chose at once at most, and how many answers they made.
fn most_of<R: Threads + Wait + Sync>(
    rt: &R,
    alloc: Global,
    workers: usize,
    chooses_first: bool,
) -> Result<MostCounts, AllocError> {
    let held = MorselCounts {
        chosen: Counts::new(),
        made: Counts::new(),
    };
    let mut reader = SlowWork { held: &held };
    let work = CountedWork {
        held: &held,
        chooses_first,
    };
    in_order(rt, alloc, &work, workers, &NoGate, &mut reader)?;
    Ok(MostCounts {
        chosen: held.chosen.most.load(Ordering::SeqCst),
        made: held.made.most.load(Ordering::SeqCst),
    })
}

/// For how many numbers of workers, of 1 to 16, no more answers were there at once than workers,
/// with the one that is read.
pub fn at_most_as_many_as_workers<R: Threads + Wait + Sync>(
    rt: &R,
    alloc: Global,
) -> Result<String, AllocError> {
    let mut within = 0u32;
    for workers in 1..17 {
        let most = most_of(rt, alloc, workers, false)?;
        if 0 < most.made && most.made <= workers as u64 {
            within = within.saturating_add(1);
        }
    }
    format!(in alloc; "{within}")
}

/// For how many numbers of workers, of 1 to 16, that is so where a morsel is chosen before its
/// answer is made, and no more than three times as many were chosen as there are workers: those
/// that are made or there, and twice as many.
pub fn at_most_three_times_as_many_are_chosen<R: Threads + Wait + Sync>(
    rt: &R,
    alloc: Global,
) -> Result<String, AllocError> {
    let mut within = 0u32;
    for workers in 1..17 {
        let most = most_of(rt, alloc, workers, true)?;
        let few = most.made <= workers as u64 && most.chosen <= 3 * workers as u64;
        if 0 < most.chosen && few {
            within = within.saturating_add(1);
        }
    }
    format!(in alloc; "{within}")
}
