//! The parts of an answer: how rows are cut into ranges, and the handles that tickets carry.
#![tactic(auto)]

pub mod handle;
pub mod laws;
pub mod ranges;

pub use crate::handle::{Handle, read_handle, write_handle};
pub use crate::ranges::{Range, Ranges, split};
