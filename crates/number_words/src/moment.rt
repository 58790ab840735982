//! Moments and times of a day, as texts and as numbers.

mod printing;
mod reading;

pub(crate) use printing::{day_at, time_of, timestamp_of};
pub(crate) use reading::{time_said, timestamp_in};
pub use reading::{time_zeptos, zeptos_said};
