//! What a batch may hold: the possible truths of a predicate, from the least and the greatest value
//! and the nulls of each column; and the batches of a table that are opened for a predicate.
#![tactic(auto)]

mod class_range;
mod compare;
mod conjuncts;
pub mod laws;
pub mod opened_batches;
mod place_filter;
pub mod possible_truths;
pub mod predicate_truths;
mod scan_columns;
mod text_standing;
pub mod weight;

pub use crate::opened_batches::{OpenedList, opened_lists};
pub use crate::possible_truths::PossibleTruths;
pub use crate::predicate_truths::{ColumnStats, may_hold};
pub use crate::weight::judging_rows;
