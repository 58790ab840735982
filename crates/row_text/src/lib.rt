//! What is printed of rows and of names: rows as lines, as CSV as RFC 4180 has it, and as a table
//! for people.
//!
//! `specs/Rows.antt` says what these formats have in common. `specs/Lines.antt`,
//! `specs/Records.antt` and `specs/Tables.antt` say which bytes they are.
#![tactic(auto)]

mod csv_format;
mod format;
mod line_format;
mod shape;
mod table;
mod table_format;
mod text;
mod value;
mod walk;
mod widths;

pub use crate::csv_format::CsvFormat;
pub use crate::format::{Cell, RowFormat};
pub use crate::line_format::{Lines, write_names};
pub use crate::table::write_table;
pub use crate::walk::{send_batch, send_names};
