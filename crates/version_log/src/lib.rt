//! The log of a catalog: what was accepted and what was expired, in order; and an index of it, by
//! which a version is found without a walk through the log.
#![tactic(auto)]

pub mod index;
pub mod log_entries;

pub use crate::index::VersionIndex;
pub use crate::log_entries::{Entries, Entry};
