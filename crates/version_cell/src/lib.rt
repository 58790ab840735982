//! The versions of one catalog, which one thread at a time makes and others look at without
//! waiting.
#![tactic(auto)]

mod book;
pub mod cell;
mod cell_rule;
pub mod gathered_seats;
mod made_entries;
mod maker;
mod publisher;
pub mod putter;
pub mod scanner;
pub mod seat_rest;
pub mod shared_putter;
mod signed_entries;
mod tally;
mod times;
pub mod told_log;

pub use crate::book::{CellName, UnnamedBook};
pub use crate::cell::{Blank, open};
pub use crate::gathered_seats::GatheredSeats;
pub use crate::publisher::Receipt;
pub use crate::putter::Putter;
pub use crate::scanner::Scanner;
pub use crate::seat_rest::Rest;
pub use crate::shared_putter::SharedPutter;
pub use crate::told_log::Told;
pub use std::marker::Brand;
