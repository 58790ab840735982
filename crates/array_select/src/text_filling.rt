//! Columns of texts that are filled slot by slot.

ghost use Rattle.std.specs.Prelude.{◌≡◌, ◌<◌, ◌^◌, All, IfOk, length, map};
ghost use Rattle.arrow_types.specs.declared.data_type.DataType.TheVariants.{Utf8};
ghost use Rattle.scan_base.specs.Value.{value_of};
ghost use Rattle.arrays.specs.WrittenSlots.{text_bytes, offsets_from, texts_joined};
ghost use Rattle.array_select.specs.inside.SlotFilling.{AreOfType, FillSlots};

use crate::source::Source;
use arrays::Values;
use bytes::Bytes;
use scan_base::ValueRef;
use std::alloc::{AllocError, Global};

/// The texts of slots, as a column of texts keeps them.
pub(crate) fn fill_texts<S: Source>(alloc: Global, slots: &[S]) -> Result<Values, AllocError>
    requires there { All S.IsThere slots.now }
    requires typed { AreOfType Utf8 (map S.held slots.now) (length slots.now) }
    requires short { length (texts_joined (map S.held slots.now)) < 2 ^ 31 }
    ensures { IfOk result (λ kept. FillSlots kept Utf8 (map S.held slots.now)) }
{
    let (offsets, total) = pack_offsets(alloc, slots)?;
    let bytes = join_texts(alloc, slots, total)?;
    Ok(Values::Texts(Bytes::from_vec(offsets)?, Bytes::from_vec(bytes)?))
}

// The offsets that cut the texts where they stand one after another, and how many bytes those have.
fn pack_offsets<S: Source>(alloc: Global, slots: &[S]) -> Result<(Vec<u8>, u32), AllocError>
    requires there { All S.IsThere slots.now }
    requires short { length (texts_joined (map S.held slots.now)) < 2 ^ 31 }
    ensures offsets { IfOk result (λ made. made.0.items ≡ offsets_from 0 (map S.held slots.now)) }
    ensures total { IfOk result (λ made. made.1 ≡ length (texts_joined (map S.held slots.now))) }
{
    let room = slots.len().saturating_add(1).saturating_mul(4);
    let mut offsets = Vec::with_capacity(alloc, room)?;
    let mut offset: u32 = 0;
    for slot in slots {
        offsets.extend_from_slice(&offset.to_le_bytes())?;
        offset += text_bytes(slot.value()).len() as u32;
    }
    offsets.extend_from_slice(&offset.to_le_bytes())?;
    Ok((offsets, offset))
}

// The texts, one after another; room for `total` bytes is made at once.
fn join_texts<S: Source>(alloc: Global, slots: &[S], total: u32) -> Result<Vec<u8>, AllocError>
    requires { All S.IsThere slots.now }
    ensures { IfOk result (λ made. made.items ≡ texts_joined (map S.held slots.now)) }
{
    let mut made = Vec::with_capacity(alloc, total as usize)?;
    for slot in slots {
        made.extend_from_slice(text_bytes(slot.value()))?;
    }
    Ok(made)
}

/// The bytes of a text, and none where there is no text.
pub(crate) fn text_bytes<'a>(value: ValueRef<'a>) -> &'a [u8]
    ensures { result.now ≡ text_bytes (value_of value.entry) }
{
    match value {
        ValueRef::Text(text) => text.as_bytes(),
        _ => &[],
    }
}
