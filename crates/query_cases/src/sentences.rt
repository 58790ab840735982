//! Texts, and whether they are sentences.

use scan_base::Fault;
use sql_parse::parse;
use std::alloc::Global;

/// That the text is a sentence.
pub fn verdict(alloc: Global, sql: &str) -> Result<String, Fault> {
    let _query = parse(alloc, sql)?;
    Ok(String::from_str(alloc, "sentence")?)
}
