//! Who watches long work, how often, and what a row of it costs.
#![tactic(auto)]

pub mod pace;
pub mod watch;
mod weight;

pub use crate::watch::{NoWatch, Watches, tell};
pub use crate::weight::comparisons_in;
