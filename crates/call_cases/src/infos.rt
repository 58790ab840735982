//! What infos and schemas say, in words.

use crate::payload_text::push_digits;
use arrow_schema::read_schema;
use flight_proto::{FlightInfo, read_wrapped};
use proto_wire::put_bytes;
use scan_base::Fault;
use std::alloc::Global;
use told_rows::push_schema;

// The header in a schema's IPC form: FF FF FF FF, its length and its bytes.
fn header_in(form: &[u8]) -> Result<&[u8], Fault> {
    let rest = form
        .strip_prefix(b"\xff\xff\xff\xff")
        .ok_or(Fault::BadFlatbuffer)?;
    let header = rest.get(4..).ok_or(Fault::BadFlatbuffer)?;
    let length = (header.len() as u64).to_le_bytes();
    if header.len() % 8 != 0 || !rest.starts_with(&length[..4]) {
        return Err(Fault::BadFlatbuffer);
    }
    Ok(header)
}

// Adds the columns of a schema in IPC form, which is the message's first field, and the bytes after
// that field.
fn push_described(
    alloc: Global,
    told: &mut String,
    message: &[u8],
    form: &[u8],
) -> Result<(), Fault> {
    let mut first = Vec::new(alloc);
    put_bytes(&mut first, 1, form)?;
    let rest = message
        .strip_prefix(first.as_slice())
        .ok_or(Fault::BadProto)?;
    let schema = read_schema(alloc, header_in(form)?)?;
    push_schema(told, &schema)?;
    told.push(' ')?;
    Ok(push_digits(alloc, told, rest)?)
}

/// Adds the columns of a FlightInfo, and its bytes after them.
pub fn push_info(alloc: Global, told: &mut String, message: &[u8]) -> Result<(), Fault> {
    let info = FlightInfo::read(alloc, message)?;
    push_described(alloc, told, message, info.schema)
}

/// Adds the columns of a SchemaResult, and its bytes after them.
pub fn push_schema_result(alloc: Global, told: &mut String, message: &[u8]) -> Result<(), Fault> {
    let form = read_wrapped(message)?;
    push_described(alloc, told, message, form)
}
