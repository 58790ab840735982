//! Columns of indices that are built of places among texts.

ghost use Rattle.std.specs.Prelude.{◌≡◌, ◌≤◌, ◌<◌, ◌^◌, ◌/◌, ℕ, List, IfOk, length, map};
ghost use Rattle.arrow_types.specs.declared.data_type.IntegerType.TheVariants.{Int32};
ghost use Rattle.scan_base.specs.Limits.{most_values};
ghost use Rattle.scan_base.specs.declared.value.Value.{Value};
ghost use Rattle.scan_base.specs.declared.value.Value.TheVariants.{Text};
ghost use Rattle.arrays.specs.Column.{values_of};
ghost use Rattle.arrays.specs.Texts.{texts_values};
ghost use Rattle.arrays.specs.WrittenSlots.{offsets_from, texts_joined};
ghost use Rattle.dictionary_answers.specs.Firsts.{bytes_in, AreLed};
ghost use Rattle.dictionary_answers.specs.Answer.{LiesOver};
ghost use Rattle.dictionary_answers.specs.inside.CodedTexts.{held};
ghost use Rattle.dictionary_answers.specs.inside.PackedPlaces.{numbers_in, AreValidWhereSome};

use crate::coding::NO_PLACE;
use crate::packed_numbers::{clear_marks, unpack_numbers};
use arrays::{Cells, Column, Dictionary, Nulls, Slots, Texts, Validity, Values};
use arrow_types::IntegerType;
use bitmap::BitsBuilder;
use bytes::Bytes;
use std::alloc::{AllocError, Global};
use std::sync::Arc;

/// A column of indices of 32 bits into a dictionary of these texts, and the one part in which they
/// stand there. Each slot has the index that is its place, and is null where `NO_PLACE` stands in
/// its stead.
///
/// # Errors
///
/// `AllocError` where memory is refused.
pub(crate) fn column_over(
    alloc: Global,
    validity: Validity,
    mut packed: Vec<u8>,
    texts: &[&str],
) -> Result<(Column, Texts), AllocError>
    requires valid { AreValidWhereSome validity (map held (numbers_in packed.items)) }
    requires led { (values : List Value)
        × AreLed (map (λ text. text.now) texts.now) (map held (numbers_in packed.items)) values }
    requires few { length texts.now ≤ most_values }
    requires short { bytes_in (map (λ text. text.now) texts.now) < 2 ^ 31 }
    ensures values { IfOk result (λ made. AreLed (map (λ text. text.now) texts.now)
        (map held (numbers_in packed.items)) (values_of made.0)) }
    ensures over { IfOk result (λ made. LiesOver (map (λ text. text.now) texts.now) made.0) }
    ensures long { IfOk result (λ made. made.0.len ≡ length packed.items / 4) }
    ensures part { IfOk result
        (λ made. texts_values made.1 ≡ map Text (map (λ text. text.now) texts.now)) }
{
    let part = part_of(alloc, texts)?;
    let dictionary = dictionary_of(alloc, part.share()?)?;
    let count = packed.len() / 4;
    clear_marks(&validity, &mut packed);
    let _values = dictionary.len();
    let bytes = Bytes::from_vec(packed)?;
    let indices = Values::Indices(IntegerType::Int32, bytes, Arc::new(alloc, dictionary)?);
    let column = Column::new(Slots::from_parts(validity, count, indices));
    Ok((column, part))
}

/// The validity of slots that lie at places of a column's values: by the column's own bits, where
/// these tell each null.
///
/// # Errors
///
/// `AllocError` where memory is refused.
pub(crate) fn column_validity(
    alloc: Global,
    column: &Column,
    packed: &[u8],
) -> Result<Validity, AllocError>
    requires led { (texts : List (List ℕ))
        × AreLed texts (map held (numbers_in packed.now)) (values_of column.now) }
    ensures { IfOk result
        (λ validity. AreValidWhereSome validity (map held (numbers_in packed.now))) }
{
    if column.null_count() == 0 {
        return Ok(Validity::new(None));
    }
    let (first, len) = (column.first(), column.len());
    match column.slots().nulls() {
        Nulls::AtZeros(bits) => Ok(Validity::new(Some(bits.slice(first, first + len)?))),
        _ => places_validity(alloc, &unpack_numbers(alloc, packed)?),
    }
}

// The validity of slots that are null where they have no place: without bits, where each has one.
fn places_validity(alloc: Global, places: &[u32]) -> Result<Validity, AllocError>
    ensures { IfOk result (λ validity. AreValidWhereSome validity (map held places.now)) }
{
    if !places.contains(&NO_PLACE) {
        return Ok(Validity::new(None));
    }
    let mut bits = BitsBuilder::with_capacity(alloc, places.len())?;
    for place in places {
        bits.push(*place != NO_PLACE)?;
    }
    Ok(Validity::new(Some(bits.into_bits()?)))
}

// A dictionary of one part.
fn dictionary_of(alloc: Global, part: Texts) -> Result<Dictionary, AllocError>
    ensures { IfOk result (λ dictionary. dictionary ≡ texts_values part) }
{
    match Dictionary::new(alloc).extended(alloc, part) {
        Ok(dictionary) => Ok(dictionary),
        Err(_) => Err(AllocError),
    }
}

// The texts, one after another.
fn part_of(alloc: Global, texts: &[&str]) -> Result<Texts, AllocError>
    requires short { bytes_in (map (λ text. text.now) texts.now) < 2 ^ 31 }
    ensures values { IfOk result
        (λ part. texts_values part ≡ map Text (map (λ text. text.now) texts.now)) }
    ensures long { IfOk result (λ part. part.len ≡ length texts.now) }
{
    let (packed, total) = pack_offsets(alloc, texts)?;
    let joined = join_texts(alloc, texts, total)?;
    let (offsets, bytes) = (Bytes::from_vec(packed)?, Bytes::from_vec(joined)?);
    match Texts::new(None, offsets, bytes, texts.len()) {
        Ok(part) => Ok(part),
        Err(_) => Err(AllocError),
    }
}

// The offsets that cut the texts where they stand one after another, and how many bytes those have.
fn pack_offsets(alloc: Global, texts: &[&str]) -> Result<(Vec<u8>, u32), AllocError>
    requires { bytes_in (map (λ text. text.now) texts.now) < 2 ^ 31 }
    ensures { IfOk result
        (λ made. made.0.items ≡ offsets_from 0 (map Text (map (λ text. text.now) texts.now))) }
{
    let room = texts.len().saturating_add(1).saturating_mul(4);
    let mut packed = Vec::with_capacity(alloc, room)?;
    let mut offset: u32 = 0;
    for text in texts {
        packed.extend_from_slice(&offset.to_le_bytes())?;
        offset += text.len() as u32;
    }
    packed.extend_from_slice(&offset.to_le_bytes())?;
    Ok((packed, offset))
}

// The bytes of the texts, one after another; room for `total` bytes is made at once.
fn join_texts(alloc: Global, texts: &[&str], total: u32) -> Result<Vec<u8>, AllocError>
    ensures { IfOk result
        (λ joined. joined.items ≡ texts_joined (map Text (map (λ text. text.now) texts.now))) }
{
    let mut joined = Vec::with_capacity(alloc, total as usize)?;
    for text in texts {
        joined.extend_from_slice(text.as_bytes())?;
    }
    Ok(joined)
}
