//! Arrow's schemas and message headers, read or written.
#![tactic(auto)]

mod borrowed_fields;
pub mod header;
pub mod laws;
pub mod reading;
mod type_tables;
pub mod writing;

pub use crate::header::{HeaderKind, Message, read_message};
pub use crate::reading::{read_schema, value_type};
pub use crate::writing::{encapsulate, write_message, write_schema};
pub use arrow_types::{
    Cell, DataType, DictionaryEncoding, Field, IntegerType, MAX_COLUMNS, MAX_NAME_BYTES,
    NumberType, Schema,
};
