//! The rows of a plan's tree, piece by piece.
#![tactic(auto)]

pub mod batch_slice;
mod build;
mod choice;
pub mod collected_rows;
mod columns;
mod cursor;
mod join_source;
pub mod opened_table;
pub mod picker;
pub mod piece;
mod place;
mod result_columns;
pub mod row_source;
pub mod rows;
mod scan_source;
pub mod turn;

pub use crate::batch_slice::BatchSlice;
pub use crate::collected_rows::collect_watched;
pub use crate::opened_table::{OpenedTable, opened_tables};
pub use crate::picker::Picker;
pub use crate::piece::Piece;
pub use crate::row_source::{ReadRange, RowSource, UnfilteredRows, WholePlan};
pub use crate::rows::Rows;
pub use crate::turn::{Patience, Turn, TurnContext};
