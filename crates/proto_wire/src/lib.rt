//! The fields of a Protocol Buffers message on the wire, read and written.
//!
//! The rules are those of the public Protocol Buffers encoding: a message is a list of fields, and
//! a field is a tag (its number and its wire type) and what it holds. `specs/Standard.antt` has
//! them.
#![tactic(auto)]

pub mod field;
pub mod fields;
pub mod laws;
pub mod put;
pub mod varint;

pub use crate::field::{Field, MAX_FIELD_NUMBER, Payload};
pub use crate::fields::Fields;
pub use crate::put::{put_bytes, put_bytes_head, put_field, put_message, put_varint};
