//! How far the calls of a client have come: the rows and bytes that passed over its connections,
//! told in lines.
//!
//! `MeteredNetwork` is a network whose connections are watched. What it gives is what the network
//! below gives, and so are its failures.
#![tactic(auto)]

mod meter;
mod metered_network;
mod record_beginning;
mod row_counter;
#[cfg(test)]
mod tests;

pub use crate::meter::{Meter, progress_line};
pub use crate::metered_network::{MeteredNetwork, WatchedReader, WatchedWriter};
pub use crate::row_counter::RowCounter;
