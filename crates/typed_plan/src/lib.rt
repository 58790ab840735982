//! What a query means, and what a plan that gives its rows is.
#![tactic(auto)]

pub mod class;
pub mod laws;
pub mod plan;

pub use crate::class::Class;
pub use crate::plan::{Aggregate, Columns, JoinKey, Output, Plan, TypedPlan};
