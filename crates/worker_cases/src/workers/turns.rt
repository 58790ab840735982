//! Answers that are made in turns.

use scan_workers::{Answers, NextAnswer, NoGate, Reads, Work, in_order};
use std::alloc::{AllocError, Global};
use std::sync::Wait;
use std::sync::atomic::{AtomicU64, Ordering};
use std::thread;
use std::thread::Threads;
use std::time::{Clock, Duration};

// The answer to a morsel: its number, and how many turns it still takes.
#[derive(Drop)]
struct MorselTurns {
    number: usize,
    left: usize,
}

// 50 morsels, each of which takes three turns. The first one may take turns without end.
#[derive(Drop)]
struct InTurns {
    endless: bool,
    begun: AtomicU64,
}

impl InTurns {
    fn new(endless: bool) -> InTurns {
        InTurns {
            endless,
            begun: AtomicU64::new(0),
        }
    }
}

impl Work for InTurns {
    type Answer = MorselTurns;

    ghost use Rattle.std.specs.Prelude.{◌≡◌};

    ghost ready = { λ _. Unit {0} };

    ghost count = { λ _. 50 };

    ghost answers = { λ _ n a. a.number ≡ n };

    fn count(&self) -> usize {
        50
    }

    // All is made in turns.
    fn chooses_first(&self) -> bool {
        true
    }

    fn answer(&self, _alloc: Global, morsel: usize) -> MorselTurns {
        self.begun.fetch_add(1, Ordering::SeqCst);
        MorselTurns {
            number: morsel,
            left: 3,
        }
    }

    fn go_on(&self, _alloc: Global, answer: &mut MorselTurns) -> bool {
        answer.left = answer.left.saturating_sub(1);
        self.endless && answer.number == 0 || answer.left > 0
    }
}

// It reads turn by turn, and counts the answers that come in order.
#[derive(Drop)]
struct ByTurns {
    read: usize,
}

impl ByTurns {
    // Counts an answer, if it is that of the next morsel.
    fn count(&mut self, made: &MorselTurns) {
        if made.number == self.read {
            self.read = self.read.saturating_add(1);
        }
    }
}

impl Reads<MorselTurns> for ByTurns {
    type Out = bool;

    ghost takes = { λ _ _ _. Unit {0} };

    ghost reads = { λ _ _ _ _ _. Unit {0} };

    // Whether it came to the end.
    fn read<P: Answers<MorselTurns>>(&mut self, answers: &mut P) -> bool {
        for _ in 0..u64::MAX {
            match answers.turn() {
                NextAnswer::Given(made) => self.count(&made),
                NextAnswer::Going => {}
                NextAnswer::End => return true,
            }
        }
        false
    }
}

// So many turns the reader takes: more than there may be of the morsels that are begun next to one
// without end. So it waits for that one too.
const TURNS: u32 = 200;

// It waits until another worker has begun a morsel, and takes its turns.
#[derive(Drop)]
struct ManyTurns<'a, R: Clock> {
    rt: &'a R,
    begun: &'a AtomicU64,
}

impl<'a, R: Clock> ManyTurns<'a, R> {
    // Waits for another worker, but no longer than 10,000 times a millisecond.
    fn wait(&self) {
        for _ in 0..10_000u32 {
            if self.begun.load(Ordering::SeqCst) > 0 {
                return;
            }
            thread::sleep(self.rt, Duration::from_millis(1));
        }
    }
}

impl<'a, R: Clock> Reads<MorselTurns> for ManyTurns<'a, R> {
    type Out = bool;

    ghost takes = { λ _ _ _. Unit {0} };

    ghost reads = { λ _ _ _ _ _. Unit {0} };

    // Whether each turn was over before the answer was there.
    fn read<P: Answers<MorselTurns>>(&mut self, answers: &mut P) -> bool {
        self.wait();
        for _ in 0..TURNS {
            if !matches!(answers.turn(), NextAnswer::Going) {
                return false;
            }
        }
        true
    }
}

/// For how many numbers of workers, of 1 to 16, all answers come in their order where each takes
/// three turns and is read by turns.
pub fn answers_come_in_turns<R: Threads + Wait + Sync>(
    rt: &R,
    alloc: Global,
) -> Result<String, AllocError> {
    let mut whole = 0u32;
    for workers in 1..17 {
        let mut reader = ByTurns { read: 0 };
        let work = InTurns::new(false);
        let ended = in_order(rt, alloc, &work, workers, &NoGate, &mut reader)?;
        if ended && reader.read == 50 {
            whole = whole.saturating_add(1);
        }
    }
    format!(in alloc; "{whole}")
}

/// For how many numbers of workers, of 2 to 16, 200 turns of the reader are over before an answer
/// whose turns have no end, and the workers stop when it reads no more.
pub fn workers_stop_between_turns<R: Threads + Wait + Clock + Sync>(
    rt: &R,
    alloc: Global,
) -> Result<String, AllocError> {
    let mut stopped = 0u32;
    for workers in 2..17 {
        let work = InTurns::new(true);
        let mut reader = ManyTurns {
            rt,
            begun: &work.begun,
        };
        if in_order(rt, alloc, &work, workers, &NoGate, &mut reader)? {
            stopped = stopped.saturating_add(1);
        }
    }
    format!(in alloc; "{stopped}")
}
