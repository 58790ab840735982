//! Arrow's IPC messages: a header and a body each, which say a schema and rows.
#![tactic(auto)]

mod buffers;
pub mod columns;
mod dictionaries;
pub mod laws;
pub mod parts;
pub mod reader;
pub mod sized_batch;
pub mod writer;

pub use crate::reader::Reader;
pub use crate::sized_batch::SizedBatch;
pub use crate::writer::{WrittenMessage, write_batch, write_dictionary};
