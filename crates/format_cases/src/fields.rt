//! The fields of a message.

use crate::row::CaseRow;
use crate::words::{Word, push_part, told};
use proto_wire::{Field, Fields, Payload, put_bytes, put_bytes_head, put_message, put_varint};
use scan_base::Fault;
use std::alloc::{AllocError, Global};

// Adds a field to a text.
fn push_field(text: &mut String, field: &Field<'_>) -> Result<(), AllocError> {
    let (kind, value) = match field.payload {
        Payload::Varint(value) => ("varint", Word::Number(i128::from(value))),
        Payload::Fixed64(value) => ("fixed64", Word::Number(i128::from(value))),
        Payload::Fixed32(value) => ("fixed32", Word::Number(i128::from(value))),
        Payload::Bytes(chunk) => ("bytes", Word::Bytes(chunk)),
    };
    push_part(
        text,
        &[
            Word::Number(i128::from(field.number)),
            Word::Text(kind),
            value,
        ],
    )
}

/// The fields, and the end or the fault after them.
pub fn fields(alloc: Global, bytes: &[u8]) -> Result<String, Fault> {
    let mut text = String::new(alloc);
    let mut fields = Fields::new(bytes);
    for _ in 0..bytes.len() {
        match fields.next() {
            Ok(Some(field)) => push_field(&mut text, &field)?,
            Ok(None) => break,
            Err(fault) => {
                text.push_str(fault.text().as_str())?;
                return Ok(text);
            }
        }
    }
    text.push_str("end")?;
    Ok(text)
}

// A number, an embedded message and the head of bytes, written by a call each.
fn each_call(alloc: Global) -> Result<String, Fault> {
    let mut out = Vec::new(alloc);
    let inside = [Field::bytes(1, b"ab"), Field::varint(2, 150)];
    put_varint(&mut out, 1, 2)?;
    put_message(&mut out, 2, &inside)?;
    put_bytes_head(&mut out, 1000, 512)?;
    told(alloc, &[Word::Bytes(&out)])
}

// Content of some length, since short content shows little: how many bytes are written, and the
// first of them.
fn large_content(alloc: Global, content: &[u8]) -> Result<String, Fault> {
    let mut out = Vec::new(alloc);
    put_bytes(&mut out, 1000, content)?;
    put_message(&mut out, 1, &[Field::bytes(2, content)])?;
    let (front, _) = out.split_at(out.len().min(5));
    told(
        alloc,
        &[Word::Number(out.len() as i128), Word::Bytes(front)],
    )
}

/// Fields that are written.
pub fn answer(alloc: Global, case: &str, row: &CaseRow) -> Result<String, Fault> {
    match case {
        "each_call" => each_call(alloc),
        "large_content" => large_content(alloc, &row.bytes),
        _ => Err(Fault::UnknownMethod),
    }
}
