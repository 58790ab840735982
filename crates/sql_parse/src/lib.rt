//! Parsing a query: the sentence that its tokens are, or the first fault.
#![tactic(auto)]

mod clauses;
pub mod laws;
mod limits;
mod operands;
mod parsing;
mod predicates;
mod refusal;
mod tokens;

pub use crate::parsing::parse;
