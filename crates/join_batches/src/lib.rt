//! Joined rows, batch by batch.
#![tactic(auto)]

mod batch_sides;
pub mod joiner;
mod left_pairs;
mod placed_pairs;

pub use crate::joiner::{JoinSide, JoinSides, Joiner, SeededSides};
