//! Schemas that are copied, and written and read again.

use crate::words::{Word, told};
use arrow_schema::{HeaderKind, encapsulate, read_message, read_schema, write_schema};
use arrow_types::Field;
use scan_base::Fault;
use std::alloc::{AllocError, Global};

// Adds a column to a text: its name, whether a cell may be null, and its type.
fn push_column(text: &mut String, field: &Field) -> Result<(), AllocError> {
    let (name, nullable, data_type) = (field.name.as_str(), field.nullable, field.data_type);
    write!(text, "{name} {nullable} {data_type:?};")
}

// The columns of a schema.
fn columns(alloc: Global, fields: &[Field]) -> Result<String, AllocError> {
    let mut text = String::new(alloc);
    for field in fields {
        push_column(&mut text, field)?;
    }
    Ok(text)
}

/// What a message is.
pub fn kind_name(kind: HeaderKind) -> &'static str {
    match kind {
        HeaderKind::Schema => "Schema",
        HeaderKind::DictionaryBatch => "DictionaryBatch",
        HeaderKind::RecordBatch => "RecordBatch",
    }
}

// What our own writer makes of a schema, read as a message: its kind, how long its body is, and its
// columns.
fn written(alloc: Global, bytes: &[u8]) -> Result<String, Fault> {
    let header = write_schema(alloc, &read_schema(alloc, bytes)?)?;
    let message = read_message(&header)?;
    let columns = columns(alloc, message.schema(alloc)?.fields.as_slice())?;
    let length = Word::Number(i128::from(message.body_length()?));
    told(
        alloc,
        &[
            Word::Text(kind_name(message.kind)),
            length,
            Word::Text(columns.as_str()),
        ],
    )
}

// A header as it stands in a stream.
fn framed(alloc: Global, header: &[u8]) -> Result<String, Fault> {
    if header.len() > 64 {
        return Err(Fault::BadFrame);
    }
    told(alloc, &[Word::Bytes(&encapsulate(alloc, header)?)])
}

/// `HEX`: what becomes of a schema.
pub fn answer(alloc: Global, case: &str, bytes: &[u8]) -> Result<String, Fault> {
    match case {
        "copied" => {
            let copy = read_schema(alloc, bytes)?.copy(alloc)?;
            Ok(columns(alloc, copy.fields.as_slice())?)
        }
        "plain" => {
            let plain = read_schema(alloc, bytes)?.plain(alloc)?;
            Ok(columns(alloc, plain.fields.as_slice())?)
        }
        "written" => written(alloc, bytes),
        "framed" => framed(alloc, bytes),
        _ => Err(Fault::UnknownMethod),
    }
}
