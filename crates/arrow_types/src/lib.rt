//! Arrow's types, fields and schemas.
#![tactic(auto)]

pub mod data_type;
pub mod laws;
pub mod schema;

pub use crate::data_type::{Cell, DataType, DictionaryEncoding, IntegerType, NumberType, TimeUnit};
pub use crate::schema::{Field, MAX_COLUMNS, MAX_NAME_BYTES, Schema};
