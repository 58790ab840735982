//! The messages of record batches and dictionaries.

ghost use Rattle.std.specs.Prelude.{◌≡◌, ◌↔◌, ◌≤◌, ◌<◌, ◌%◌, ◌^◌, [], ◌∷◌, length, IfOk, IfSome};
ghost use Rattle.std.specs.Prelude.{IsSome, OnOk};
ghost use Rattle.flatbuf.specs.Block.{Number, Offset, table_part};
ghost use Rattle.arrow_schema.specs.declared.header.HeaderKind.TheVariants.{DictionaryBatch};
ghost use Rattle.scan_base.specs.Limits.{most_columns};
ghost use Rattle.arrow_schema.specs.Message.{message_bytes};
ghost use Rattle.arrow_schema.specs.TypeTables.{flag};
ghost use Rattle.arrays.specs.Texts.{texts_values};
ghost use Rattle.ipc_batch.specs.WrittenMessages.{body_of, batch_buffers_written, parts_written};
ghost use Rattle.ipc_batch.specs.WrittenMessages.{body_length};
ghost use Rattle.ipc_batch.specs.WrittenMessages.{dictionary_batch_part, values_batch, FitsBatch};
ghost use Rattle.ipc_batch.specs.WrittenMessages.{most_header_bytes};
ghost use Rattle.ipc_batch.specs.WrittenMessages.{SaysParts, SaysBatch, SaysDictionaryParts};
ghost use Rattle.ipc_batch.specs.WrittenMessages.{SaysValues};
ghost use Rattle.ipc_batch.specs.MessageView.{written_seen};

use crate::sized_batch::SizedBatch;
use arrays::{Batch, Cells, Column, Slots, Texts};
use arrow_schema::{HeaderKind, write_message};
use flatbuf::{Block, Builder, Slot};
use std::alloc::{AllocError, Global};

/// A message: the bytes of its header and of its body.
#[derive(Debug, Drop)]
pub struct WrittenMessage {
    pub header: Vec<u8>,
    pub body: Vec<u8>,
}

/// The message of a record batch. Each buffer begins at a multiple of 8 in the body, with zeros
/// between, the header claims all of the body, and both have a multiple of 8 bytes. Validity bits
/// are written where a slot is null, and a slice of a batch is written as its own rows alone.
/// `None` where the body would have 2 to the 31 bytes or more.
///
/// # Errors
///
/// `AllocError` where memory is refused.
pub fn write_batch(alloc: Global, batch: &Batch) -> Result<Option<WrittenMessage>, AllocError>
    requires few { length batch.now.columns ≤ most_columns }
    ensures found { IfOk result (λ found. IsSome found ↔ (body_length batch.now < 2 ^ 31)) }
    ensures header { IfOk result
        (λ found. IfSome found (λ message. length message.header.items % 8 ≡ 0)) }
    ensures body { IfOk result
        (λ found. IfSome found (λ message. length message.body.items % 8 ≡ 0)) }
    ensures parts { IfOk result (λ found. IfSome found (λ message.
        SaysParts (written_seen message) (parts_written batch.now))) }
    ensures rows { IfOk result
        (λ found. IfSome found (λ message. SaysBatch (written_seen message) batch.now)) }
    ensures zeros { IfOk result (λ found. IfSome found (λ message. message.body.items
        ≡ body_of (batch_buffers_written batch.now.columns))) }
{
    let Some(sized) = SizedBatch::new(alloc, batch)? else {
        return Ok(None);
    };
    let header = sized.write_header(alloc)?;
    let mut body = Vec::new(alloc);
    sized.append_body(&mut body)?;
    Ok(Some(WrittenMessage { header, body }))
}

// ---- dictionaries

// The values of a dictionary, as the batch that is written of them. No value is copied.
fn values_batch(alloc: Global, values: &Texts) -> Result<Batch, AllocError>
    ensures { IfOk result (λ batch. batch ≡ values_batch values.now) }
{
    let mut columns = Vec::with_capacity(alloc, 1)?;
    columns.push(Column::new(Slots::texts(values.share()?)))?;
    Ok(Batch::new(columns, values.len()))
}

// The DictionaryBatch table of an id, of the table of its values, and whether they stand after the
// old ones.
#[tactic(auto, using(flatbuf::proofs::Lengths::fits))]
fn dictionary_block(
    alloc: Global,
    id: u64,
    values: &Block,
    is_delta: bool,
) -> Result<Block, AllocError>
    requires { length (values.now).bytes < 2 ^ 29 }
    ensures { IfOk result (λ block. block
        ≡ table_part (Number id ∷ Offset values.now ∷ Number (flag is_delta) ∷ [])) }
{
    Builder::new(alloc).table(&[
        Slot::Number(id),
        Slot::Offset(values),
        Slot::Number(u64::from(is_delta)),
    ])
}

// The header of the message of a dictionary whose values are this batch.
fn dictionary_header(
    alloc: Global,
    id: u64,
    values: &SizedBatch<'_>,
    is_delta: bool,
) -> Result<Vec<u8>, AllocError>
    requires { length values.now.columns ≤ most_columns }
    ensures whole { IfOk result (λ header. length header.items % 8 ≡ 0) }
    ensures items { IfOk result (λ header. header.items ≡ message_bytes DictionaryBatch
        (dictionary_batch_part id (parts_written values.now) is_delta) (body_length values.now)) }
    ensures short { IfOk result (λ header. length header.items ≤ most_header_bytes) }
    ensures fits { OnOk result (FitsBatch values.now) }
{
    let table = values.table(alloc)?;
    let block = dictionary_block(alloc, id, &table, is_delta)?;
    write_message(
        alloc,
        HeaderKind::DictionaryBatch,
        &block,
        values.body_length() as u64,
    )
}

/// The message of a dictionary's values, which are set or, where they are a delta, stand after the
/// old ones. The values may be null, and their buffers are written as those of a batch of one
/// column: each begins at a multiple of 8 in the body, with zeros between, and the offsets begin at
/// 0. The header claims all of the body, and both have a multiple of 8 bytes, the header at most
/// 8,192. `None` where the body would have 2 to the 31 bytes or more.
///
/// # Errors
///
/// `AllocError` where memory is refused.
pub fn write_dictionary(
    alloc: Global,
    id: u64,
    values: &Texts,
    is_delta: bool,
) -> Result<Option<WrittenMessage>, AllocError>
    ensures found { IfOk result
        (λ found. IsSome found ↔ (body_length (values_batch values.now) < 2 ^ 31)) }
    ensures header { IfOk result
        (λ found. IfSome found (λ message. length message.header.items % 8 ≡ 0)) }
    ensures short { IfOk result
        (λ found. IfSome found (λ message. length message.header.items ≤ most_header_bytes)) }
    ensures body { IfOk result
        (λ found. IfSome found (λ message. length message.body.items % 8 ≡ 0)) }
    ensures parts { IfOk result
        (λ found. IfSome found (λ message. SaysDictionaryParts (written_seen message) id
        (parts_written (values_batch values.now)) is_delta)) }
    ensures values { IfOk result (λ found. IfSome found
        (λ message. SaysValues (written_seen message) id (texts_values values.now) is_delta)) }
    ensures zeros { IfOk result (λ found. IfSome found (λ message. message.body.items
        ≡ body_of (batch_buffers_written (values_batch values.now).columns))) }
{
    let batch = values_batch(alloc, values)?;
    let Some(sized) = SizedBatch::new(alloc, &batch)? else {
        return Ok(None);
    };
    let header = dictionary_header(alloc, id, &sized, is_delta)?;
    let mut body = Vec::new(alloc);
    sized.append_body(&mut body)?;
    Ok(Some(WrittenMessage { header, body }))
}
