//! Columns that rows describe, and the buffers as which they are written.

ghost use Rattle.std.specs.Prelude.{◌<◌, length};
ghost use Rattle.array_buffers.specs.ColumnBuffers.{buffers_written};

mod by_rule;
mod case;
mod coding;
mod layouts;
mod places;
mod turns;

use crate::columns::by_rule::column_by_rule;
use crate::columns::case::ColumnCase;
use crate::columns::coding::codings;
use crate::columns::layouts::layout;
use crate::columns::places::gather_every;
use crate::columns::turns::column_of_turns;
use anyhow::{Result, bail};
use array_buffers::{append_buffer, buffer_count, buffer_length, texts_length};
use arrays::{Batch, Cells, Column};
use scan_base::{HashSeed, ValueRef};
use std::alloc::{AllocError, Global};
use told_rows::push_value;

/// The answer to a row: the slots and the buffers of its columns, or why it is refused. Of many
/// slots or bytes it says a sum.
pub fn answer(alloc: Global, seed: HashSeed, row: &str) -> Result<String, AllocError> {
    match columns(alloc, seed, row) {
        Ok(columns) => lines(alloc, columns.as_slice()),
        Err(error) => format!(in alloc; "{error}\n"),
    }
}

// The column of a row, or what is made of it where it is to be coded.
fn columns(alloc: Global, seed: HashSeed, row: &str) -> Result<Vec<Column>> {
    let mut made = Vec::new(alloc);
    let of_coded = row.strip_prefix("Coded ");
    for column in batch_of(alloc, of_coded.unwrap_or(row))?.columns() {
        if of_coded.is_some() {
            made = codings(alloc, seed, column)?;
        } else {
            made.push(column.slice(0, column.len())?)?;
        }
    }
    Ok(made)
}

// The slots that a row builds, takes in turn, keeps, or gathers of those, as a batch of one column.
fn batch_of(alloc: Global, row: &str) -> Result<Batch> {
    if let Some(words) = row.strip_prefix("Built ") {
        return Ok(one_column(alloc, column_by_rule(alloc, words)?)?);
    }
    if let Some(words) = row.strip_prefix("Slots ") {
        return Ok(one_column(alloc, column_of_turns(alloc, words)?)?);
    }
    let case = ColumnCase::read(row)?;
    let whole = one_column(alloc, Column::new(layout(alloc, &case)?))?;
    if case.from > case.to || case.to > whole.rows() {
        bail!("slots that are not there");
    }
    let batch = whole.slice(alloc, case.from, case.to)?;
    match case.every {
        Some(step) => gather_every(alloc, &batch, step),
        None => Ok(batch),
    }
}

// A batch of one column.
fn one_column(alloc: Global, column: Column) -> Result<Batch, AllocError> {
    let rows = column.len();
    Ok(Batch::new(vec![in alloc; column]?, rows))
}

// A line for each column.
fn lines(alloc: Global, columns: &[Column]) -> Result<String, AllocError> {
    let mut lines = String::new(alloc);
    for column in columns {
        push_column(alloc, &mut lines, column)?;
        lines.push('\n')?;
    }
    Ok(lines)
}

fn push_column(alloc: Global, line: &mut String, column: &Column) -> Result<(), AllocError> {
    write!(
        line,
        "{} slots, {} null:",
        column.len(),
        column.null_count()
    )?;
    push_slots(line, column)?;
    for index in 0..buffer_count(column) {
        push_buffer(alloc, line, column, index)?;
    }
    Ok(())
}

// Each slot's value, or of many the sum.
fn push_slots(line: &mut String, column: &Column) -> Result<(), AllocError> {
    if column.len() > 20 {
        return write!(line, " sum {}", sum_of_slots(column));
    }
    for place in 0..column.len() {
        line.push(' ')?;
        match column.value_at(place) {
            ValueRef::Text(text) => write!(line, "'{text}'")?,
            value => push_value(line, value)?,
        }
    }
    Ok(())
}

// A number that all slots' values make, in order: of a null, of 1 or 2, of 16 bytes, or of a text's
// bytes and an end.
fn sum_of_slots(column: &Column) -> u32 {
    let mut sum = 0;
    for place in 0..column.len() {
        sum = match column.value_at(place) {
            ValueRef::Null => sum_with(sum, &[0]),
            ValueRef::Bool(flag) => sum_with(sum, &[1 + u8::from(flag)]),
            ValueRef::Int(number) => sum_with(sum, &number.to_le_bytes()),
            ValueRef::Text(text) => sum_with(sum_with(sum, text.as_bytes()), &[255]),
        };
    }
    sum
}

// A sum, with bytes after those that made it.
fn sum_with(sum: u32, bytes: &[u8]) -> u32 {
    let mut all = sum;
    for byte in bytes {
        all = all.wrapping_mul(31).wrapping_add(u32::from(*byte));
    }
    all
}

// How many bytes a buffer has where it is written, and those bytes, or of many the sum.
fn push_buffer(
    alloc: Global,
    line: &mut String,
    column: &Column,
    index: usize,
) -> Result<(), AllocError>
    requires { index < length (buffers_written column.now) }
{
    let length = buffer_length(column, index);
    if length.is_none() || texts_length(column).is_none() {
        return line.push_str(" | too long");
    }
    let mut bytes = Vec::new(alloc);
    append_buffer(column, index, &mut bytes)?;
    write!(line, " | {}: ", length.unwrap_or(0))?;
    if bytes.len() > 64 {
        return write!(line, "sum {}", sum_with(0, bytes.as_slice()));
    }
    line.push_str(&hex::encode(alloc, bytes.as_slice())?)
}
