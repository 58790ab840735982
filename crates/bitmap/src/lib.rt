//! Packed bits at any bit offset, over cuts of a received body: the validity bits and the Bool
//! values of Arrow's columnar format. A contract sees them as a list of truth values.
#![tactic(auto)]

pub mod bits;
pub mod builder;
mod words;

pub use crate::bits::Bits;
pub use crate::builder::BitsBuilder;
