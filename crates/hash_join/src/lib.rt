//! Joins of batches by equal keys: pairs of rows in the order of nested loops.
#![tactic(auto)]

mod all_rows;
mod buckets;
pub mod build;
mod chains;
mod digests;
mod key_codes;
mod key_element;
mod key_row;
mod left_pieces;
mod marks;
mod number_look;
mod numbers;
pub mod pair;
mod pair_cache;
mod part_rows;
mod product;
mod ranks;
mod right_rows;
mod rights;
mod row_cache;
mod search;
mod sieve;
mod spans;
mod walk;

pub use crate::build::{Build, LeftSide, Probe, RightSide};
pub use crate::pair::Pair;
