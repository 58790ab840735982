//! Writing the metadata of messages, which are FlatBuffers buffers.

ghost use Rattle.std.specs.Prelude.{◌≡◌, ◌≤◌, ◌<◌, ◌-◌, ◌%◌, ◌^◌, All, Ok, IfOk};
ghost use Rattle.std.specs.Prelude.{length, map, option_map};
ghost use Rattle.flatbuf.specs.GivenSlots.{given_of};
ghost use Rattle.arrow_types.specs.Schema.{IsType, IsField, IsSchema};
ghost use Rattle.arrow_types.specs.DataType.{encoding_of};
ghost use Rattle.arrow_schema.specs.Message.{message_bytes};
ghost use Rattle.arrow_schema.specs.Header.{schema_of};
ghost use Rattle.arrow_schema.specs.WrittenHeader.{dictionary_part, given_if, field_part};
ghost use Rattle.arrow_schema.specs.WrittenHeader.{schema_part};
ghost use Rattle.arrow_schema.specs.WrittenHeader.{schema_bytes, encapsulated};

use crate::header::HeaderKind;
use crate::type_tables::{integer_block, type_block};
use arrow_types::{DataType, DictionaryEncoding, Field, Schema};
use flatbuf::{Block, Builder, Slot};
use std::alloc::{AllocError, Global};

// The number of metadata version V5.
const V5: u64 = 4;

/// The buffer of a message of metadata version V5: its header, of this kind, and how many bytes its
/// body has. The buffer has a multiple of 8 bytes. It fails with [`AllocError`] where memory is
/// refused, and with no other error.
#[tactic(auto, using(crate::proofs::Messages::messages), unfolding(crate::specs::Message::message_part))]
pub fn write_message(
    alloc: Global,
    kind: HeaderKind,
    header: &Block,
    body_length: u64,
) -> Result<Vec<u8>, AllocError>
    requires { length (header.now).bytes < 2 ^ 30 }
    ensures items { IfOk result (λ out. out.items ≡ message_bytes kind header.now body_length) }
    ensures whole { IfOk result (λ out. length out.items % 8 ≡ 0) }
{
    let builder = Builder::new(alloc);
    let message = builder.table(&[
        Slot::Number(V5),
        Slot::Number(kind.number()),
        Slot::Offset(header),
        Slot::Number(body_length),
    ])?;
    builder.finish(&message)
}

#[tactic(auto, using(crate::proofs::Again::writing), unfolding(crate::specs::WrittenHeader::dictionary_part))]
fn dictionary_block(builder: &Builder, encoding: DictionaryEncoding) -> Result<Block, AllocError>
    ensures { IfOk result (λ block. block ≡ dictionary_part encoding) }
{
    let index = integer_block(builder, encoding.index)?;
    builder.table(&[Slot::Number(encoding.id), Slot::Offset(&index)])
}

// The dictionary's table, where the type has one.
fn encoding_block(builder: &Builder, data_type: DataType) -> Result<Option<Block>, AllocError>
    ensures { IfOk result (λ block. block ≡ option_map dictionary_part (encoding_of data_type)) }
{
    match data_type {
        DataType::Dictionary(encoding) => Ok(Some(dictionary_block(builder, encoding)?)),
        _ => Ok(None),
    }
}

fn optional(block: &Option<Block>) -> Slot<'_>
    ensures { given_of result ≡ given_if block.now }
{
    match block {
        None => Slot::Absent,
        Some(block) => Slot::Offset(block),
    }
}

// The table of a field. Its list of children is written and empty, since some readers want it
// there.
#[tactic(auto, using(crate::proofs::Again::writing), unfolding(crate::specs::WrittenHeader::field_part))]
fn field_block(builder: &Builder, field: &Field) -> Result<Block, AllocError>
    requires { IsField field.now }
    ensures { IfOk result (λ block. block ≡ field_part field.now) }
{
    let name = builder.text(field.name.as_str())?;
    let (kind, values) = type_block(builder, field.data_type)?;
    let dictionary = encoding_block(builder, field.data_type)?;
    let children = builder.tables(&[])?;
    builder.table(&[
        Slot::Offset(&name),
        Slot::Number(u64::from(field.nullable)),
        Slot::Number(kind),
        Slot::Offset(&values),
        optional(&dictionary),
        Slot::Offset(&children),
    ])
}

fn field_blocks(
    alloc: Global,
    builder: &Builder,
    fields: &[Field],
) -> Result<Vec<Block>, AllocError>
    requires { All IsField fields.now }
    ensures { IfOk result (λ blocks. blocks.items ≡ map field_part fields.now) }
{
    let mut blocks = Vec::with_capacity(alloc, fields.len())?;
    for field in fields {
        blocks.push(field_block(builder, field)?)?;
    }
    Ok(blocks)
}

#[tactic(auto, using(crate::proofs::Again::writing), unfolding(crate::specs::WrittenHeader::schema_part))]
fn schema_block(alloc: Global, schema: &Schema) -> Result<Block, AllocError>
    requires { IsSchema schema.now }
    ensures { IfOk result (λ block. block ≡ schema_part schema.now) }
{
    let builder = Builder::new(alloc);
    let fields = field_blocks(alloc, &builder, schema.fields.as_slice())?;
    let fields = builder.tables(fields.as_slice())?;
    builder.table(&[Slot::Absent, Slot::Offset(&fields)])
}

/// The buffer of a schema: a message of metadata version V5 with no body, which reads as this
/// schema. It has a multiple of 8 bytes, and at most 2 to the 15. It fails with [`AllocError`]
/// where memory is refused, and with no other error.
#[tactic(auto, using(crate::proofs::Again::written))]
pub fn write_schema(alloc: Global, schema: &Schema) -> Result<Vec<u8>, AllocError>
    requires { IsSchema schema.now }
    ensures items { IfOk result (λ out. out.items ≡ schema_bytes schema.now) }
    ensures again { IfOk result (λ out. schema_of out.items ≡ Ok schema.now) }
    ensures whole { IfOk result (λ out. length out.items % 8 ≡ 0) }
    ensures short { IfOk result (λ out. length out.items ≤ 2 ^ 15) }
{
    let header = schema_block(alloc, schema)?;
    write_message(alloc, HeaderKind::Schema, &header, 0)
}

/// A header as it stands in an IPC stream: four bytes of 255, a length, the header, and zeros up to
/// a multiple of 8. The length is a little-endian number of 32 bits and counts the zeros too. It
/// fails with [`AllocError`] where memory is refused, and with no other error.
#[tactic(auto, using(crate::proofs::Framed::framing))]
pub fn encapsulate(alloc: Global, header: &[u8]) -> Result<Vec<u8>, AllocError>
    requires { length header.now ≤ 2 ^ 31 - 8 }
    ensures items { IfOk result (λ out. out.items ≡ encapsulated header.now) }
    ensures whole { IfOk result (λ out. length out.items % 8 ≡ 0) }
{
    let zeros = (8 - header.len() % 8) % 8;
    let padded = header.len() + zeros;
    let mut out = Vec::with_capacity(alloc, 8 + padded)?;
    out.extend_from_slice(&[0xff; 4])?;
    out.extend_from_slice(&(padded as u32).to_le_bytes())?;
    out.extend_from_slice(header)?;
    out.extend_from_slice(&[0; 8][..zeros])?;
    Ok(out)
}
