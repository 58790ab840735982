//! Rows of a batch that have the key of an earlier row, told without a look at the texts of a
//! dictionary.
#![tactic(auto)]

mod codes;
pub mod key_part;
pub mod numbers;
pub mod rows;
pub mod seen_rows;

pub use crate::key_part::KeyPart;
pub use crate::numbers::{SeenNumber, SeenNumbers};
pub use crate::rows::KeyRows;
pub use crate::seen_rows::SeenRows;
