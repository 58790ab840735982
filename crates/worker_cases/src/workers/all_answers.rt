//! All answers at once.

use crate::workers::numbers::Numbers;
use scan_workers::{Gate, NoGate, run};
use std::alloc::{AllocError, Global};
use std::sync::Wait;
use std::sync::atomic::Ordering;
use std::thread::Threads;

/// The answers in their order, each after a blank.
pub fn answers_of<R: Threads + Wait + Sync, G: Gate + Sync>(
    rt: &R,
    alloc: Global,
    work: &Numbers,
    workers: usize,
    gate: &G,
) -> Result<String, AllocError> {
    let mut all = String::new(alloc);
    for answer in run(rt, alloc, work, workers, gate)? {
        let one = match answer {
            Ok(numbers) => format!(in alloc; " {numbers:?}")?,
            Err(_) => String::from_str(alloc, " refused")?,
        };
        all.push_str(&one)?;
    }
    Ok(all)
}

// The answers for several numbers of workers.
fn for_each_number<R: Threads + Wait + Sync>(
    rt: &R,
    alloc: Global,
    work: &Numbers,
    numbers: &[usize],
) -> Result<String, AllocError> {
    let mut all = String::new(alloc);
    for workers in numbers {
        let answers = answers_of(rt, alloc, work, *workers, &NoGate)?;
        let one = format!(in alloc; "{workers}:{answers}; ")?;
        all.push_str(&one)?;
    }
    Ok(all)
}

/// The answers where there is no morsel, and how many were begun.
pub fn no_morsel<R: Threads + Wait + Sync>(rt: &R, alloc: Global) -> Result<String, AllocError> {
    let work = Numbers::new(0);
    let all = for_each_number(rt, alloc, &work, &[0, 1, 2, 4, 8, 16])?;
    format!(in alloc; "{all}{} begun", work.begun.load(Ordering::SeqCst))
}

/// The answers to three morsels, and how many were begun for all numbers of workers together.
pub fn three_morsels<R: Threads + Wait + Sync>(
    rt: &R,
    alloc: Global,
) -> Result<String, AllocError> {
    let work = Numbers::new(3);
    let all = for_each_number(rt, alloc, &work, &[1, 2, 4, 8])?;
    format!(in alloc; "{all}{} begun", work.begun.load(Ordering::SeqCst))
}

// Whether so many workers answer so many morsels, all and in their order.
fn is_whole<R: Threads + Wait + Sync>(
    rt: &R,
    alloc: Global,
    count: usize,
    workers: usize,
) -> Result<bool, AllocError> {
    let work = Numbers::new(count);
    let answers = run(rt, alloc, &work, workers, &NoGate)?;
    let mut whole = answers.len() == count;
    let mut wanted = 0usize;
    for answer in answers {
        whole = whole && answer?.as_slice() == [wanted].as_slice();
        wanted = wanted.saturating_add(1);
    }
    Ok(whole)
}

/// For how many numbers of workers, of 1 to 16, a thousand morsels are answered in their order.
pub fn many_morsels<R: Threads + Wait + Sync>(rt: &R, alloc: Global) -> Result<String, AllocError> {
    let mut whole = 0u32;
    for workers in 1..17 {
        if is_whole(rt, alloc, 1_000, workers)? {
            whole = whole.saturating_add(1);
        }
    }
    format!(in alloc; "{whole}")
}

/// The same, where the morsel in the middle asks for more memory than there is.
pub fn one_growth_is_refused<R: Threads + Wait + Sync>(
    rt: &R,
    alloc: Global,
) -> Result<String, AllocError> {
    let work = Numbers::with_greedy(3, 1);
    let all = for_each_number(rt, alloc, &work, &[1, 2, 4, 8])?;
    format!(in alloc; "{all}{} begun", work.begun.load(Ordering::SeqCst))
}

/// Whether a call is refused that has more workers than there is memory for their answers, and how
/// many morsels were begun.
pub fn a_call_is_refused<R: Threads + Wait + Sync>(
    rt: &R,
    alloc: Global,
) -> Result<String, AllocError> {
    let work = Numbers::new(3);
    let refused = run(rt, alloc, &work, 1 << 50, &NoGate).is_err();
    format!(in alloc; "{refused} {}", work.begun.load(Ordering::SeqCst))
}
