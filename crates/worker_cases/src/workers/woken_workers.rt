//! Workers that sleep, and are woken.

use crate::workers::gates::HoldsOne;
use crate::workers::numbers::Numbers;
use scan_workers::{Answers, Reads, in_order};
use std::alloc::{AllocError, Global};
use std::sync::Wait;
use std::thread;
use std::thread::Threads;
use std::time::{Clock, Duration};

// It reads an answer, and leaves the workers time to fall asleep. Then it reads two more, and asks
// for none until the gate opens.
#[derive(Drop)]
struct LetsThemSleep<'a, R: Clock> {
    rt: &'a R,
    gate: &'a HoldsOne<'a, R>,
}

impl<'a, R: Clock> Reads<Result<Vec<usize>, AllocError>> for LetsThemSleep<'a, R> {
    type Out = bool;

    ghost takes = { λ _ _ _. Unit {0} };

    ghost reads = { λ _ _ _ _ _. Unit {0} };

    fn read<P: Answers<Result<Vec<usize>, AllocError>>>(&mut self, answers: &mut P) -> bool {
        let _first = answers.next();
        thread::sleep(self.rt, Duration::from_millis(50));
        let _second = answers.next();
        let _third = answers.next();
        self.gate.opens()
    }
}

// Whether workers that sleep begin two morsels, for which the reader made room. The first is held
// until the second is begun.
fn are_woken<R: Threads + Wait + Clock + Sync>(
    rt: &R,
    alloc: Global,
    workers: usize,
) -> Result<bool, AllocError> {
    let gate = HoldsOne::new(rt, workers);
    let mut reader = LetsThemSleep { rt, gate: &gate };
    in_order(rt, alloc, &Numbers::new(50), workers, &gate, &mut reader)
}

/// For how many numbers of workers, of 2 to 16, workers that sleep are woken as soon as the reader
/// makes room for more morsels.
pub fn workers_are_woken<R: Threads + Wait + Clock + Sync>(
    rt: &R,
    alloc: Global,
) -> Result<String, AllocError> {
    let mut woken = 0u32;
    for workers in 2..17 {
        if are_woken(rt, alloc, workers)? {
            woken = woken.saturating_add(1);
        }
    }
    format!(in alloc; "{woken}")
}
