//! Workers that claim morsels by one word, and whose answers are read in the order of the morsels.
#![tactic(auto)]

mod claims;
mod collect;
mod crew;
mod exchange;
mod morsel_answer;
mod morsel_ring;
mod morsel_work;
mod pull;
mod slots;
mod window;

pub use crate::collect::run;
pub use crate::crew::in_order;
pub use crate::morsel_work::{Answers, Gate, NextAnswer, NoGate, Reads, Work};
