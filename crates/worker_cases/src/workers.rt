//! What workers answer.

mod all_answers;
mod gates;
mod numbers;
mod stopped_reader;
mod turns;
mod window;
mod woken_workers;

use std::alloc::{AllocError, Global};
use std::io;
use std::io::Print;
use std::sync::Wait;
use std::thread::Threads;
use std::time::Clock;

// Prints the line of a case: its name, and what came.
fn show(rt: &impl Print, name: &str, came: Result<String, AllocError>) -> io::Result<()> {
    match came {
        Ok(came) => println!(rt; "{name}: {came}"),
        Err(_) => println!(rt; "{name}: refused"),
    }
}

/// Prints a line for each case.
pub fn print<R: Clock + Print + Sync + Threads + Wait>(rt: &R, alloc: Global) -> io::Result<()> {
    show(rt, "no_morsel", all_answers::no_morsel(rt, alloc))?;
    show(rt, "three_morsels", all_answers::three_morsels(rt, alloc))?;
    show(rt, "many_morsels", all_answers::many_morsels(rt, alloc))?;
    show(
        rt,
        "one_growth_is_refused",
        all_answers::one_growth_is_refused(rt, alloc),
    )?;
    show(
        rt,
        "a_call_is_refused",
        all_answers::a_call_is_refused(rt, alloc),
    )?;
    show(
        rt,
        "a_held_worker_holds_no_other",
        gates::a_held_worker_holds_no_other(rt, alloc),
    )?;
    show(
        rt,
        "all_workers_are_at_work_at_once",
        gates::all_workers_are_at_work_at_once(rt, alloc),
    )?;
    show(
        rt,
        "each_morsel_passes_the_gate_once",
        gates::each_morsel_passes_the_gate_once(rt, alloc),
    )?;
    show(
        rt,
        "stops_at_a_refusal",
        stopped_reader::stops_at_a_refusal(rt, alloc),
    )?;
    show(
        rt,
        "at_most_as_many_as_workers",
        window::at_most_as_many_as_workers(rt, alloc),
    )?;
    show(
        rt,
        "at_most_three_times_as_many_are_chosen",
        window::at_most_three_times_as_many_are_chosen(rt, alloc),
    )?;
    show(
        rt,
        "answers_come_in_turns",
        turns::answers_come_in_turns(rt, alloc),
    )?;
    show(
        rt,
        "workers_stop_between_turns",
        turns::workers_stop_between_turns(rt, alloc),
    )?;
    show(
        rt,
        "workers_are_woken",
        woken_workers::workers_are_woken(rt, alloc),
    )
}
