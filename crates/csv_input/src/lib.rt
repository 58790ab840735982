//! CSV from an input: its columns, its rows as messages, and what is printed of them and of a
//! record that is wrong.
//!
//! `specs/Input.antt` says what they are, and `specs/Lines.antt` which lines are printed.
#![tactic(auto)]

mod batch;
mod cells;
mod chunk;
mod input;
mod message;
mod outcome;
mod reading;
mod record_chunks;
mod table;
mod text;
mod wrong_lines;
mod wrong_records;

pub use crate::input::read_csv;
pub use crate::message::schema_message;
pub use crate::outcome::{RecordFault, WrongRecord};
pub use crate::table::next_message;
pub use crate::text::{CsvRows, CsvText};
pub use crate::wrong_records::first_wrong;
