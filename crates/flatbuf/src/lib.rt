//! Tables of a buffer in the FlatBuffers binary format: read in place, and written.
#![tactic(auto)]

pub mod build;
mod number;
pub mod reading_laws;
pub mod table;
pub mod vector;
pub mod width;
pub mod written_laws;

pub use crate::build::{Block, Builder, Slot};
pub use crate::table::{Buf, Table};
pub use crate::vector::Vector;
pub use crate::width::Width;
