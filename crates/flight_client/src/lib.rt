//! The client's side of an answer: its info, and its streams, read payload by payload and joined.
#![tactic(auto)]

pub mod info;
pub mod joining;
pub mod laws;
pub mod rows;
pub mod status;
pub mod stream;
pub mod stream_reader;

pub use crate::info::read_info;
pub use crate::joining::join;
pub use crate::rows::Rows;
pub use crate::status::fault_of_status;
pub use crate::stream::Stream;
pub use crate::stream_reader::StreamReader;
