//! What payloads say, in words.

use arrays::{Batch, Cells};
use bytes::Bytes;
use flight_client::{Rows, Stream, join};
use scan_base::Fault;
use std::alloc::{AllocError, Global};
use told_rows::{push_schema, push_value};

/// How the values of a row are told. A semicolon stands after them.
#[derive(Clone, Copy)]
pub enum Form {
    /// With a comma between them.
    Between,
    /// With a comma after each.
    After,
    /// By their kinds, as `Int(1)`, with a comma after each.
    Kinds,
}

/// Adds the bytes, each by two digits.
pub fn push_digits(alloc: Global, told: &mut String, bytes: &[u8]) -> Result<(), AllocError> {
    let digits = hex::encode(alloc, bytes)?;
    told.push_str(&digits)
}

/// The rows that the payloads of one stream say.
pub fn rows_of(alloc: Global, payloads: &[Bytes]) -> Result<Rows, Fault> {
    let mut stream = Stream::new(alloc);
    for payload in payloads {
        stream.message(alloc, payload)?;
    }
    stream.end(0, "");
    let mut streams = Vec::new(alloc);
    streams.push(stream)?;
    join(streams)
}

// Adds a row with a comma after each value.
fn push_row(told: &mut String, batch: &Batch, row: usize, form: Form) -> Result<(), AllocError> {
    for column in batch.columns() {
        if row < column.len() {
            let value = column.value_at(row);
            match form {
                Form::Kinds => write!(told, "{value:?}")?,
                Form::Between | Form::After => push_value(told, value)?,
            }
        }
        told.push(',')?;
    }
    told.push(';')
}

/// Adds the rows of a batch.
pub fn push_batch(told: &mut String, batch: &Batch, form: Form) -> Result<(), AllocError> {
    if matches!(form, Form::Between) {
        return told_rows::push_rows(told, batch);
    }
    for row in 0..batch.rows() {
        push_row(told, batch, row, form)?;
    }
    Ok(())
}

/// Adds the columns, a space, and the rows.
pub fn push_rows(told: &mut String, rows: &Rows, form: Form) -> Result<(), AllocError> {
    push_schema(told, rows.schema())?;
    told.push(' ')?;
    for batch in rows.batches() {
        push_batch(told, batch, form)?;
    }
    Ok(())
}
