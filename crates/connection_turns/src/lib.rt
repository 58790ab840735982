//! How many connections are still to be accepted, drawn one by one by threads side by side.
#![tactic(auto)]

mod rule;
pub mod turns;

pub use crate::turns::{Drawer, Turns, open};
