//! What a reader answers, in words.

use arrays::{Batch, Cells, Column};
use arrow_types::{DataType, NumberType, Schema};
use scan_base::{Fault, ValueRef};
use std::alloc::{AllocError, Global};

/// What a reader says to a message.
pub type Answer = Result<Option<Batch>, Fault>;

// Writes a text: each byte that is no plain letter, and a quote or a backslash, by its two digits.
fn push_text(told: &mut String, text: &str) -> Result<(), AllocError> {
    for byte in text.as_bytes() {
        let byte = *byte;
        match byte {
            b'"' | b'\\' | 0..=31 | 127..=255 => write!(told, "\\x{byte:02x}")?,
            _ => told.push(char::from(byte))?,
        }
    }
    Ok(())
}

// Writes a value; of a text those bytes.
fn push_value(told: &mut String, value: ValueRef<'_>) -> Result<(), AllocError> {
    let ValueRef::Text(text) = value else {
        return told_rows::push_value(told, value);
    };
    told.push('"')?;
    push_text(told, text)?;
    told.push('"')
}

// A row: its values with a comma between, and a semicolon.
fn push_row(told: &mut String, batch: &Batch, row: usize) -> Result<(), AllocError> {
    let mut between = "";
    for column in batch.columns() {
        told.push_str(between)?;
        if row < column.len() {
            push_value(told, column.value_at(row))?;
        }
        between = ",";
    }
    told.push(';')
}

/// Writes each row of a batch.
pub fn push_rows(told: &mut String, batch: &Batch) -> Result<(), AllocError> {
    for row in 0..batch.rows() {
        push_row(told, batch, row)?;
    }
    Ok(())
}

// A number in place of a value: a null is none.
fn digest_of(value: ValueRef<'_>) -> Option<u64> {
    match value {
        ValueRef::Null => None,
        ValueRef::Bool(flag) => Some(u64::from(flag)),
        ValueRef::Int(number) => Some(low_bits(number)),
        ValueRef::Text(text) => Some(text_digest(text.as_bytes())),
    }
}

fn low_bits(number: i128) -> u64 {
    let bytes = number.to_le_bytes();
    let [a, b, c, d, e, f, g, h, ..] = bytes;
    u64::from_le_bytes([a, b, c, d, e, f, g, h])
}

fn text_digest(text: &[u8]) -> u64 {
    let mut digest = 7u64;
    for byte in text {
        digest = digest.wrapping_mul(31).wrapping_add(u64::from(*byte));
    }
    digest
}

/// Writes of a column how many slots it has, how many of them are null, and a digest of the values
/// in order.
pub fn push_count(told: &mut String, column: &Column) -> Result<(), AllocError> {
    let (mut nulls, mut digest) = (0u64, 0u64);
    for place in 0..column.len() {
        match digest_of(column.value_at(place)) {
            None => nulls = nulls.wrapping_add(1),
            Some(number) => digest = digest.wrapping_mul(31).wrapping_add(number),
        }
    }
    let slots = column.len();
    write!(told, "{slots} slots, {nulls} null, {digest};")
}

fn push_type(told: &mut String, data_type: DataType) -> Result<(), AllocError> {
    match data_type {
        DataType::Number(NumberType::Integer(integer)) => write!(told, "{integer:?}"),
        DataType::Dictionary(encoding) => {
            let (id, index) = (encoding.id.cast_signed(), encoding.index);
            write!(told, "dictionary {id} {index:?}")
        }
        other => told_rows::push_type(told, other),
    }
}

// A schema: of each column its name, its type, and whether a cell may be null.
fn push_schema(told: &mut String, schema: &Schema) -> Result<(), AllocError> {
    for field in schema.fields.as_slice() {
        push_text(told, field.name.as_str())?;
        told.push(' ')?;
        push_type(told, field.data_type)?;
        told.push_str(if field.nullable { " or null;" } else { ";" })?;
    }
    Ok(())
}

/// What a reader answered, and the schema where that is what it learned.
pub fn answer_text(
    alloc: Global,
    answer: &Answer,
    schema: Option<&Schema>,
) -> Result<String, AllocError> {
    let mut told = String::new(alloc);
    match (answer, schema) {
        (Err(fault), _) => return format!(in alloc; "{fault}"),
        (Ok(Some(batch)), _) => {
            told.push_str("rows ")?;
            push_rows(&mut told, batch)?;
        }
        (Ok(None), None) => told.push_str("dictionary")?,
        (Ok(None), Some(schema)) => {
            told.push_str("schema ")?;
            push_schema(&mut told, schema)?;
        }
    }
    Ok(told)
}
