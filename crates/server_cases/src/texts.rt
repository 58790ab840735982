//! Bytes that were printed, as texts in quotes.

use std::alloc::AllocError;

// Adds printed bytes: a space, and their text in quotes.
pub(crate) fn push_text(told: &mut String, bytes: &[u8]) -> Result<(), AllocError> {
    match str::from_utf8(bytes) {
        Ok(text) => write!(told, " {text:?}"),
        Err(_) => told.push_str(" bytes that are no text"),
    }
}
