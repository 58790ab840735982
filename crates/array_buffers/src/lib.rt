//! The buffers as which a column is written.
#![tactic(auto)]

mod buffer_writing;
mod buffers;
pub mod laws;
mod packing;

pub use crate::buffer_writing::{append_buffer, buffer_count, buffer_length, texts_length};
pub use crate::buffers::buffer;
