//! Batches whose buffers are measured once: their headers and their bodies.

ghost use Rattle.std.specs.Prelude.{◌≡◌, ◌≤◌, ◌<◌, ◌+◌, ◌-◌, ◌%◌, ◌^◌, [], ◌∷◌, ◌++◌, All, length};
ghost use Rattle.std.specs.Prelude.{map, take};
ghost use Rattle.std.specs.Prelude.{IfOk, IsSome, OnOk, OnErr, SomeIff};
ghost use Rattle.std.specs.List.{flat_map};
ghost use Rattle.flatbuf.specs.Block.{Number, Offset, little, padding, padded, table_part};
ghost use Rattle.flatbuf.specs.Block.{structs_part};
ghost use Rattle.scan_base.specs.Limits.{most_columns};
ghost use Rattle.arrays.specs.Column.{IsColumn};
ghost use Rattle.array_buffers.specs.ColumnBuffers.{buffer_of, buffers_written as column_written};
ghost use Rattle.ipc_batch.specs.WrittenMessages.{node_bytes, place_bytes, body_of, places_from};
ghost use Rattle.ipc_batch.specs.WrittenMessages.{parts_part};
ghost use Rattle.ipc_batch.specs.WrittenMessages.{node_written, batch_buffers_written};
ghost use Rattle.ipc_batch.specs.WrittenMessages.{parts_written};
ghost use Rattle.ipc_batch.specs.WrittenMessages.{body_length};
ghost use Rattle.ipc_batch.specs.WrittenMessages.{FitsBatch, most_header_bytes, SaysParts};
ghost use Rattle.ipc_batch.specs.WrittenMessages.{SaysBatch};

use crate::buffers::push_columns;
use crate::parts::STRUCT_BYTES;
use array_buffers::{buffer_count, buffer_length};
use arrays::{Batch, Cells, Column};
use arrow_schema::{HeaderKind, write_message};
use bytes::Bytes;
use flatbuf::{Block, Builder, Slot};
use std::alloc::{AllocError, Global};
use std::marker::Model;

// A body has fewer bytes than this.
const BODY_LIMIT: usize = 1 << 31;

/// A batch, and how many bytes each of its buffers has where it is written. With the zeros between
/// them they have fewer than 2 to the 31. A contract sees the batch.
#[derive(Drop)]
pub struct SizedBatch<'a> {
    batch: &'a Batch,
    lengths: Vec<usize>,
    body_length: usize,
}

impl<'a> Model for SizedBatch<'a> {
    ghost use Rattle.arrays.specs.Batch.{BatchAt};
    ghost use Rattle.ipc_batch.specs.inside.SizedBatch.{IsSized};

    ghost Value = { BatchAt };

    ghost view = { λ m. m.batch.now };

    ghost invariant = { λ m. IsSized m.batch.now m.lengths.items m.body_length };
}

impl<'a> SizedBatch<'a> {
    /// Measures each buffer of a batch. `None` where the body would have 2 to the 31 bytes or more.
    ///
    /// # Errors
    ///
    /// `AllocError` where memory for the lengths is refused.
    pub fn new(alloc: Global, batch: &'a Batch) -> Result<Option<SizedBatch<'a>>, AllocError>
        ensures { IfOk result (λ found. SomeIff found (body_length batch.now < 2 ^ 31) batch.now) }
    {
        let columns = batch.columns();
        let mut lengths = Vec::with_capacity(alloc, columns.len().saturating_mul(3))?;
        let mut end = 0;
        for column in columns {
            let Some(next) = measure_column(&mut lengths, end, column)? else {
                return Ok(None);
            };
            end = next;
        }
        Ok(Some(SizedBatch {
            batch,
            lengths,
            body_length: end,
        }))
    }

    /// How many bytes the body has.
    pub fn body_length(&self) -> usize
        ensures length { result ≡ body_length self.now }
        ensures short { body_length self.now < 2 ^ 31 }
    {
        self.body_length
    }

    /// The header of the message, whose body [`SizedBatch::append_body`] writes, and which claims
    /// all of that body. The header and the body have a multiple of 8 bytes, the header at most
    /// 8,192. It fails with [`AllocError`] where memory is refused, and with no other error.
    pub fn write_header(&self, alloc: Global) -> Result<Vec<u8>, AllocError>
        requires { length self.now.columns ≤ most_columns }
        ensures whole { IfOk result (λ header. length header.items % 8 ≡ 0) }
        ensures short { IfOk result (λ header. length header.items ≤ most_header_bytes) }
        ensures parts { IfOk result (λ header. SaysParts (record {
          header = header.items;
          body = body_of (batch_buffers_written self.now.columns);
        }) (parts_written self.now)) }
        ensures rows { IfOk result (λ header. SaysBatch (record {
          header = header.items;
          body = body_of (batch_buffers_written self.now.columns);
        }) self.now) }
    {
        let table = self.table(alloc)?;
        write_message(
            alloc,
            HeaderKind::RecordBatch,
            &table,
            self.body_length as u64,
        )
    }

    /// Writes the body after what `out` has: the buffers one after another, each with zeros after
    /// it up to a multiple of 8. Room is made once, the values are copied once, and a slice has its
    /// own rows alone. It fails with [`AllocError`] where memory is refused, and then `out` is as
    /// it was.
    pub fn append_body(&self, out: &mut Vec<u8>) -> Result<(), AllocError>
        ensures ok { OnOk result (out.new.items
            ≡ out.old.items ++ body_of (batch_buffers_written self.now.columns)) }
        ensures err { OnErr result (out.new.items ≡ out.old.items) }
    {
        out.reserve(self.body_length)?;
        let start = out.len();
        let written = append_columns(out, self.batch.columns());
        if written.is_err() {
            out.truncate(start);
        }
        written
    }

    /// The buffers of the body, in order: those that came, where they have the bytes that are
    /// written, so that no value is copied, and else some of their own. The body is each of them
    /// with zeros after it up to a multiple of 8.
    ///
    /// # Errors
    ///
    /// `AllocError` where memory, or another owner of a buffer, is refused.
    pub fn buffers(&self, alloc: Global) -> Result<Vec<Bytes>, AllocError>
        ensures { IfOk result (λ buffers. buffers.items ≡ batch_buffers_written self.now.columns) }
    {
        let lengths = self.lengths.as_slice();
        let mut buffers = Vec::with_capacity(alloc, lengths.len())?;
        push_columns(alloc, &mut buffers, self.batch.columns(), lengths)?;
        Ok(buffers)
    }

    // The RecordBatch table.
    pub(crate) fn table(&self, alloc: Global) -> Result<Block, AllocError>
        requires { length self.now.columns ≤ most_columns }
        ensures block { IfOk result (λ block. block ≡ parts_part (parts_written self.now)) }
        ensures fits { OnOk result (FitsBatch self.now) }
    {
        let columns = self.batch.columns();
        let nodes = node_structs(alloc, columns)?;
        let places = self.place_structs(alloc)?;
        let rows = self.batch.rows() as u64;
        batch_block(alloc, rows, nodes.as_slice(), places.as_slice())
    }

    // The places of the buffers, which stand one after another.
    fn place_structs(&self, alloc: Global) -> Result<Vec<u8>, AllocError>
        ensures { IfOk result (λ structs. structs.items
            ≡ flat_map place_bytes (places_from 0 (batch_buffers_written self.now.columns))) }
    {
        let lengths = self.lengths.as_slice();
        let mut structs = Vec::with_capacity(alloc, lengths.len().saturating_mul(STRUCT_BYTES))?;
        let mut end = 0;
        for length in lengths {
            put_pair(&mut structs, end as u64, *length as u64)?;
            end += *length + zeros_behind(*length);
        }
        Ok(structs)
    }
}

// How many zeros stand after so many bytes, up to a multiple of 8.
fn zeros_behind(bytes: usize) -> usize
    ensures { result ≡ (8 - bytes % 8) % 8 }
{
    (8 - bytes % 8) % 8
}

// ---- the lengths

// Where a buffer of so many bytes ends in a body, with the zeros after it.
fn buffer_end(start: usize, length: usize) -> Option<usize>
    requires { start < 2 ^ 31 }
    ensures { SomeIff result (start + (length + (8 - length % 8) % 8) < 2 ^ 31)
        (start + (length + (8 - length % 8) % 8)) }
{
    if length >= BODY_LIMIT {
        return None;
    }
    let end = start + (length + zeros_behind(length));
    if end >= BODY_LIMIT {
        return None;
    }
    Some(end)
}

// Adds the lengths of a column's buffers, the first of which begins at `start` in a body, and says
// where they end.
fn measure_column(
    lengths: &mut Vec<usize>,
    start: usize,
    column: &Column,
) -> Result<Option<usize>, AllocError>
    requires { start < 2 ^ 31 }
    ensures end { IfOk result
        (λ end. SomeIff end (start + length (body_of (column_written column.now)) < 2 ^ 31)
        (start + length (body_of (column_written column.now)))) }
    ensures lengths { IfOk result (λ end. IsSome end
        → lengths.new.items ≡ lengths.old.items ++ map length (column_written column.now)) }
{
    let mut end = start;
    for index in 0..buffer_count(column) {
        let Some(length) = buffer_length(column, index) else {
            return Ok(None);
        };
        let Some(next) = buffer_end(end, length) else {
            return Ok(None);
        };
        lengths.push(length)?;
        end = next;
    }
    Ok(Some(end))
}

// ---- the body

// Writes the zeros that stand after so many bytes.
#[tactic(auto, unfolding(flatbuf::specs::Block::padding))]
fn append_zeros(body: &mut Vec<u8>, bytes: usize) -> Result<(), AllocError>
    ensures ok { OnOk result (body.new.items ≡ body.old.items ++ padding bytes) }
    ensures begins { take (length body.old.items) body.new.items ≡ body.old.items }
{
    body.extend_from_slice(&[0; 8][..zeros_behind(bytes)])
}

// Writes a buffer of a column after the others, and zeros after it.
fn append_buffer(body: &mut Vec<u8>, column: &Column, index: usize) -> Result<(), AllocError>
    requires index { index < length (column_written column.now) }
    requires short { length (body_of (column_written column.now)) < 2 ^ 31 }
    ensures ok { OnOk result
        (body.new.items ≡ body.old.items ++ padded (buffer_of column.now index)) }
    ensures begins { take (length body.old.items) body.new.items ≡ body.old.items }
{
    let start = body.len();
    array_buffers::append_buffer(column, index, body)?;
    let written = body.len() - start;
    append_zeros(body, written)
}

// Writes the buffers of a column.
fn append_column(body: &mut Vec<u8>, column: &Column) -> Result<(), AllocError>
    requires { length (body_of (column_written column.now)) < 2 ^ 31 }
    ensures ok { OnOk result
        (body.new.items ≡ body.old.items ++ body_of (column_written column.now)) }
    ensures begins { take (length body.old.items) body.new.items ≡ body.old.items }
{
    for index in 0..buffer_count(column) {
        append_buffer(body, column, index)?;
    }
    Ok(())
}

// Writes the buffers of columns.
fn append_columns(body: &mut Vec<u8>, columns: &[Column]) -> Result<(), AllocError>
    requires { length (body_of (batch_buffers_written columns.now)) < 2 ^ 31 }
    ensures ok { OnOk result (body.new.items
        ≡ body.old.items ++ body_of (batch_buffers_written columns.now)) }
    ensures begins { take (length body.old.items) body.new.items ≡ body.old.items }
{
    for column in columns {
        append_column(body, column)?;
    }
    Ok(())
}

// ---- the header

// Writes a number of eight bytes.
#[tactic(auto, unfolding(flatbuf::specs::Block::little))]
fn put_word(out: &mut Vec<u8>, word: u64) -> Result<(), AllocError>
    ensures { OnOk result (out.new.items ≡ out.old.items ++ little 8 word) }
{
    out.extend_from_slice(&word.to_le_bytes())
}

// Writes a struct of two numbers.
fn put_pair(structs: &mut Vec<u8>, first: u64, second: u64) -> Result<(), AllocError>
    ensures { OnOk result
        (structs.new.items ≡ structs.old.items ++ (little 8 first ++ little 8 second)) }
{
    put_word(structs, first)?;
    put_word(structs, second)
}

// The nodes of columns.
fn node_structs(alloc: Global, columns: &[Column]) -> Result<Vec<u8>, AllocError>
    ensures structs { IfOk result (λ structs. structs.items
        ≡ flat_map node_bytes (map node_written columns.now)) }
    ensures stand { OnOk result (All IsColumn columns.now) }
{
    let mut structs = Vec::with_capacity(alloc, columns.len().saturating_mul(STRUCT_BYTES))?;
    for column in columns {
        put_pair(
            &mut structs,
            column.len() as u64,
            column.null_count() as u64,
        )?;
    }
    Ok(structs)
}

// The RecordBatch table of so many rows, and of packed nodes and places.
#[tactic(auto, using(flatbuf::proofs::Lengths::fits))]
fn batch_block(alloc: Global, rows: u64, nodes: &[u8], places: &[u8]) -> Result<Block, AllocError>
    requires nodes { (length nodes.now % 16 ≡ 0) × (length nodes.now ≤ 2 ^ 20) }
    requires places { (length places.now % 16 ≡ 0) × (length places.now ≤ 2 ^ 20) }
    ensures { IfOk result (λ block. block ≡ table_part (Number rows
        ∷ Offset (structs_part 16 nodes.now) ∷ Offset (structs_part 16 places.now) ∷ [])) }
{
    let builder = Builder::new(alloc);
    let nodes = builder.structs(16, nodes)?;
    let places = builder.structs(16, places)?;
    builder.table(&[
        Slot::Number(rows),
        Slot::Offset(&nodes),
        Slot::Offset(&places),
    ])
}
