//! Batches: what a reader learns, a batch that is sized once, and what is empty.

ghost use Rattle.std.specs.Prelude.{◌≡◌, IfOk, length};

use crate::row::CaseRow;
use crate::schemas::kind_name;
use crate::words::{Word, push_part, push_words, told};
use arrays::{Batch, Cells, Column, Dictionary, Slots};
use arrow_schema::read_message;
use arrow_types::{IntegerType, Schema};
use bytes::Bytes;
use ipc_batch::{Reader, SizedBatch};
use ipc_stream::{IpcMessage, ipc_messages};
use scan_base::Fault;
use std::alloc::{AllocError, Global};

// What a reader says to a message: how many rows a batch has, or whether it takes what is none.
fn said(alloc: Global, reader: &mut Reader, message: IpcMessage) -> Word<'static> {
    match reader.message(alloc, message.header, message.body) {
        Ok(Some(batch)) => Word::Number(batch.rows() as i128),
        Ok(None) => Word::Text("taken"),
        Err(_) => Word::Text("refused"),
    }
}

// Adds the names of a schema's columns to a text.
fn push_names(text: &mut String, schema: Option<&Schema>) -> Result<(), AllocError> {
    let Some(schema) = schema else {
        return push_part(text, &[Word::Text("no schema")]);
    };
    for field in schema.fields.as_slice() {
        push_part(text, &[Word::Text(field.name.as_str())])?;
    }
    Ok(())
}

// `HEX`: what a reader says to each message of a stream, and the columns that it knows then, with
// the reader and without.
fn reader(alloc: Global, bytes: &[u8]) -> Result<String, Fault> {
    let stream = Bytes::copy_from_slice(alloc, bytes)?;
    let mut text = String::new(alloc);
    let mut reader = Reader::new();
    for message in ipc_messages(alloc, &stream)? {
        push_part(&mut text, &[said(alloc, &mut reader, message)])?;
    }
    push_names(&mut text, reader.schema())?;
    push_names(&mut text, reader.into_schema().as_ref())?;
    text.push_str("end")?;
    Ok(text)
}

// Numbers of two bytes each, after a byte of validity.
fn numbers(alloc: Global, bytes: &[u8]) -> Result<Column, Fault> {
    let (validity, values) = bytes.split_at_checked(1).ok_or(Fault::BadFrame)?;
    let rows = values.len() / 2;
    let validity = Some(Bytes::copy_from_slice(alloc, validity)?);
    let values = Bytes::copy_from_slice(alloc, values)?;
    Ok(Column::new(Slots::integers(IntegerType::Int16, validity, values, rows)?))
}

// A batch of one column.
fn batch(alloc: Global, bytes: &[u8]) -> Result<Batch, Fault>
    ensures { IfOk result (λ batch. length batch.columns ≡ 1) }
{
    let column = numbers(alloc, bytes)?;
    let rows = column.len();
    let mut columns = Vec::new(alloc);
    columns.push(column)?;
    Ok(Batch::new(columns, rows))
}

// `HEX`: what is written of a batch of numbers that is sized once: how long the body is, the body
// after a 9, and what the header says of the whole message.
fn sized(alloc: Global, bytes: &[u8]) -> Result<String, Fault> {
    let batch = batch(alloc, bytes)?;
    let sized = SizedBatch::new(alloc, &batch)?.ok_or(Fault::LimitReached)?;
    let mut body = vec![in alloc; 9]?;
    sized.append_body(&mut body)?;
    let header = sized.write_header(alloc)?;
    let message = read_message(&header)?;
    let said = Word::Number(i128::from(message.body_length()?));
    let mut text = String::new(alloc);
    push_part(&mut text, &[Word::Number(sized.body_length() as i128)])?;
    push_part(&mut text, &[Word::Bytes(&body)])?;
    push_words(
        &mut text,
        &[Word::Text(kind_name(message.kind)), said],
        ", ",
    )?;
    Ok(text)
}

// `ROWS FROM TO`: how many rows and columns a slice of a batch without columns has.
fn no_columns(alloc: Global, row: &CaseRow) -> Result<String, Fault> {
    let [rows, from, to] = row.numbers.as_slice() else {
        return Err(Fault::BadFrame);
    };
    if from > to || to > rows {
        return Err(Fault::BadFrame);
    }
    let slice = Batch::new(Vec::new(alloc), *rows).slice(alloc, *from, *to)?;
    let (rows, columns) = (slice.rows() as i128, slice.columns().len() as i128);
    told(alloc, &[Word::Number(rows), Word::Number(columns)])
}

// A dictionary of no value: whether it is empty, has none at 0, and may have nulls.
fn no_values(alloc: Global) -> Result<String, Fault> {
    let none = Dictionary::new(alloc);
    let is_unknown = none.get(0).is_none();
    told(
        alloc,
        &[
            Word::Flag(none.is_empty()),
            Word::Flag(is_unknown),
            Word::Flag(none.may_have_nulls()),
        ],
    )
}

/// What becomes of batches.
pub fn answer(alloc: Global, case: &str, row: &CaseRow) -> Result<String, Fault> {
    match case {
        "reader" => reader(alloc, &row.bytes),
        "sized" => sized(alloc, &row.bytes),
        "no_columns" => no_columns(alloc, row),
        "no_values" => no_values(alloc),
        _ => Err(Fault::UnknownMethod),
    }
}
