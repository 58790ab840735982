//! A query as it was written: its names, places, joins and predicates, before any of them is looked
//! up.
#![tactic(auto)]

pub mod query;

pub use crate::query::{
    ColumnName, Equality, Expression, Join, Literal, Place, Query, Select, SelectItem, Term,
};
