//! Slots from cases.

use crate::columns::case::{ColumnCase, number};
use crate::pieces::{buffer, optional_buffer};
use anyhow::{Context, Result};
use arrays::{Dictionary, Slots, Texts};
use arrow_types::IntegerType;
use bytes::Bytes;
use std::alloc::Global;
use std::sync::Arc;

/// The slots of a case.
pub fn layout(alloc: Global, case: &ColumnCase<'_>) -> Result<Slots> {
    let validity = optional_buffer(alloc, case.validity)?;
    let values = buffer(alloc, case.values)?;
    Ok(match case.kind {
        "Bool" => Slots::bools(validity, values, case.len)?,
        "Decimal128" => Slots::decimals(validity, values, case.len)?,
        "Utf8" => {
            let bytes = buffer(alloc, case.texts)?;
            Slots::texts(Texts::new(validity, values, bytes, case.len)?)
        }
        kind => numbers(alloc, integer_type(kind), validity, values, case)?,
    })
}

// The type of a name.
fn integer_type(name: &str) -> IntegerType {
    match name {
        "Int8" => IntegerType::Int8,
        "Int16" => IntegerType::Int16,
        "Int32" => IntegerType::Int32,
        "Int64" => IntegerType::Int64,
        "UInt8" => IntegerType::UInt8,
        "UInt16" => IntegerType::UInt16,
        "UInt32" => IntegerType::UInt32,
        _ => IntegerType::UInt64,
    }
}

// Integers, or indices where the case has a dictionary.
fn numbers(
    alloc: Global,
    integer: IntegerType,
    validity: Option<Bytes>,
    values: Bytes,
    case: &ColumnCase<'_>,
) -> Result<Slots> {
    if case.texts == "-" {
        return Ok(Slots::integers(integer, validity, values, case.len)?);
    }
    let dictionary = dictionary(alloc, case.texts)?;
    Ok(Slots::indices(integer, validity, values, dictionary, case.len)?)
}

// The dictionary of parts that are joined by `;`.
fn dictionary(alloc: Global, word: &str) -> Result<Arc<Dictionary>> {
    let mut all = Dictionary::new(alloc);
    for part in word.split(';') {
        all = extend(alloc, all, part)?;
    }
    Ok(Arc::new(alloc, all)?)
}

// A dictionary with a part after it, as often as the number before `#` says.
fn extend(alloc: Global, dictionary: Dictionary, part: &str) -> Result<Dictionary> {
    let (count, words) = part.split_once('#').unwrap_or(("1", part));
    let mut all = dictionary;
    for _ in 0..number(count) {
        all = all.extended(alloc, values(alloc, words)?)?;
    }
    Ok(all)
}

// The texts of a part: their number, validity bits, offsets and bytes, with `:` between them.
fn values(alloc: Global, part: &str) -> Result<Texts> {
    let (len, buffers) = part.split_once(':').context("no validity bits")?;
    let (validity, rest) = buffers.split_once(':').context("no offsets")?;
    let (offsets, bytes) = rest.split_once(':').context("no bytes")?;
    let validity = optional_buffer(alloc, validity)?;
    let offsets = buffer(alloc, offsets)?;
    Ok(Texts::new(validity, offsets, buffer(alloc, bytes)?, number(len))?)
}
