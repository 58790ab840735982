//! Texts of a column at places, in buffers of their own.

ghost use Rattle.std.specs.Prelude.{◌≡◌, ◌<◌, ◌^◌, IfOk, length};
ghost use Rattle.arrays.specs.declared.layout.Layout.TheVariants as layout;
ghost use Rattle.arrays.specs.WrittenSlots.{offsets_from, texts_joined};
ghost use Rattle.array_select.specs.inside.GatheredSlots.{AreAmong, AreValuesAt, texts_at};

use arrays::{TextsRef, Values};
use bytes::Bytes;
use std::alloc::{AllocError, Global};

/// The texts of the slots at places, which are counted from `first` on.
pub(crate) fn gather_texts(
    alloc: Global,
    cells: &TextsRef<'_>,
    first: usize,
    places: &[u32],
) -> Result<Values, AllocError>
    requires { AreAmong first places.now cells.now.len }
    ensures { IfOk result (λ values. AreValuesAt values (layout.Texts cells.now) first places.now) }
{
    let _count = cells.len();
    let (offsets, total) = gather_offsets(alloc, cells, first, places)?;
    let bytes = gather_bytes(alloc, cells, first, places, total)?;
    Ok(Values::Texts(Bytes::from_vec(offsets)?, Bytes::from_vec(bytes)?))
}

// The offsets that cut the texts at places where they stand one after another, and how many bytes
// those have.
fn gather_offsets(
    alloc: Global,
    cells: &TextsRef<'_>,
    first: usize,
    places: &[u32],
) -> Result<(Vec<u8>, u32), AllocError>
    requires among { AreAmong first places.now cells.now.len }
    requires short { length (texts_joined (texts_at cells.now first places.now)) < 2 ^ 31 }
    ensures offsets { IfOk result
        (λ made. made.0.items ≡ offsets_from 0 (texts_at cells.now first places.now)) }
    ensures total { IfOk result
        (λ made. made.1 ≡ length (texts_joined (texts_at cells.now first places.now))) }
{
    let _count = cells.len();
    let mut offsets = Vec::with_capacity(alloc, 4 * (places.len() + 1))?;
    let mut offset: u32 = 0;
    for place in places {
        offsets.extend_from_slice(&offset.to_le_bytes())?;
        let at = first + *place as usize;
        let (begin, end) = cells.bounds(at, at + 1);
        offset += (end - begin) as u32;
    }
    offsets.extend_from_slice(&offset.to_le_bytes())?;
    Ok((offsets, offset))
}

// The texts at places, one after another; room for `total` bytes is made at once.
fn gather_bytes(
    alloc: Global,
    cells: &TextsRef<'_>,
    first: usize,
    places: &[u32],
    total: u32,
) -> Result<Vec<u8>, AllocError>
    requires { AreAmong first places.now cells.now.len }
    ensures { IfOk result
        (λ made. made.items ≡ texts_joined (texts_at cells.now first places.now)) }
{
    let _count = cells.len();
    let bytes = cells.bytes();
    let mut made = Vec::with_capacity(alloc, total as usize)?;
    for place in places {
        let at = first + *place as usize;
        let (begin, end) = cells.bounds(at, at + 1);
        made.extend_from_slice(&bytes[begin..end])?;
    }
    Ok(made)
}
