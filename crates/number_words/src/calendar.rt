//! Dates as texts, and as numbers of days.

mod printing;
mod reading;

pub(crate) use printing::{FORM_BYTES, date_of, push_two_digits};
pub use reading::day_in;
pub(crate) use reading::{day_of_bytes, two_digits, two_stand};
