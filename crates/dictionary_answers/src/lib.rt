//! Columns of texts as indices over dictionaries of their own texts, and batches whose messages
//! carry such columns with their dictionaries.
#![tactic(auto)]

pub mod batches;
mod coding;
mod columns;
mod distinct_texts;
pub mod dressed_batch;
mod index_columns;
mod indices;
mod packed_numbers;

pub use crate::batches::{CodedBatch, ColumnDictionary, code_batch};
pub use crate::dressed_batch::{DressedBatch, dress};
