//! Several workers on one fetch: the morsels of a stream, or the parts of its groups, are made side
//! by side, and read in order.
//!
//! `Workers` is an executor: what is read over it is what is read over one worker.
#![tactic(auto)]

mod batch_parts;
mod group_merger;
pub mod group_workers;
pub mod grouped_work;
mod joined_morsels;
mod morsel_part;
mod morsel_work;
mod workers;

pub use crate::group_workers::{GroupWorkers, StartsGroupWorkers};
pub use crate::workers::Workers;
