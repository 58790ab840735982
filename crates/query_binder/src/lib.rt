//! Binding: the names of a query become columns of tables, and the query a plan.
#![tactic(auto)]

mod answer;
pub mod binding;
mod chain;
mod group_by;
mod joining;
mod literals;
mod places;
mod predicate;
mod scope;
mod selection;

pub use crate::binding::bind;
