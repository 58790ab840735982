//! Dates: texts that are read, and days that are printed.

use crate::words::{Word, told};
use arrow_types::NumberType;
use number_words::{NumberText, day_in};
use scan_base::Fault;
use std::alloc::Global;

/// The day number of a text, or `none`.
pub fn day(alloc: Global, text: &str) -> Result<String, Fault> {
    let word = match day_in(text) {
        Some(day) => Word::Number(i128::from(day)),
        None => Word::Text("none"),
    };
    told(alloc, &[word])
}

/// What is printed of a day, by its number.
pub fn shown(alloc: Global, number: &str) -> Result<String, Fault> {
    let day = number.parse::<i128>().map_err(|_| Fault::BadFrame)?;
    Ok(String::from_str(alloc, NumberText::new().literal(NumberType::Date, day))?)
}
