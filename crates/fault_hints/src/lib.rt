//! What a client says of a fault on the lines after the fault's own.
//!
//! `specs/Hints.antt` says which lines a fault has, by what was asked. `specs/MarkedLines.antt` has
//! the line of a query with a mark under a byte, `specs/LeftOut.antt` what a query has that is left
//! out, and `specs/InputKinds.antt` what an input is by its first bytes.
#![tactic(auto)]

pub mod hints;
mod input_kinds;
mod left_out;
mod marked_lines;
pub mod question;
mod refused_types;

pub use crate::hints::{hint, spelling_lines};
pub use crate::input_kinds::input_line;
pub use crate::question::Question;
