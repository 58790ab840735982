//! A reader that stops at the first refusal.

use crate::workers::numbers::Numbers;
use scan_workers::{Answers, NoGate, Reads, in_order};
use std::alloc::{AllocError, Global};
use std::sync::Wait;
use std::thread::Threads;

// It reads up to the first refusal, and counts the answers before it.
#[derive(Drop)]
struct UpToRefusal {
    read: u32,
}

impl Reads<Result<Vec<usize>, AllocError>> for UpToRefusal {
    type Out = Result<(), AllocError>;

    ghost takes = { λ _ _ _. Unit {0} };

    ghost reads = { λ _ _ _ _ _. Unit {0} };

    fn read<P: Answers<Result<Vec<usize>, AllocError>>>(
        &mut self,
        answers: &mut P,
    ) -> Result<(), AllocError> {
        while let Some(answer) = answers.next() {
            let _numbers = answer?;
            self.read = self.read.saturating_add(1);
        }
        Ok(())
    }
}

// How many answers to 50 morsels are read, and whether the reader came to the end. One morsel may
// ask for too much.
fn read_up_to<R: Threads + Wait + Sync>(
    rt: &R,
    alloc: Global,
    greedy: usize,
    workers: usize,
) -> Result<(u32, bool), AllocError> {
    let mut reader = UpToRefusal { read: 0 };
    let work = Numbers::with_greedy(50, greedy);
    let ended = in_order(rt, alloc, &work, workers, &NoGate, &mut reader)?;
    Ok((reader.read, ended.is_ok()))
}

/// For how many numbers of workers, of 1 to 16, exactly the answers before morsel 20 are read where
/// that one is refused, and all 50 in the next call, where none is.
pub fn stops_at_a_refusal<R: Threads + Wait + Sync>(
    rt: &R,
    alloc: Global,
) -> Result<String, AllocError> {
    let (mut stopped, mut whole) = (0u32, 0u32);
    for workers in 1..17 {
        if read_up_to(rt, alloc, 20, workers)? == (20, false) {
            stopped = stopped.saturating_add(1);
        }
        if read_up_to(rt, alloc, 50, workers)? == (50, true) {
            whole = whole.saturating_add(1);
        }
    }
    format!(in alloc; "{stopped} {whole}")
}
