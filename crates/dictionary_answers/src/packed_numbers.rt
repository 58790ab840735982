//! Numbers of 32 bits in bytes, four bytes each, the lowest first.

ghost use Rattle.std.specs.Prelude.{◌≡◌, ◌≤◌, ◌<◌, ◌+◌, ◌*◌, IfOk, length, map, set};
ghost use Rattle.dictionary_answers.specs.inside.CodedTexts.{held};
ghost use Rattle.dictionary_answers.specs.inside.PackedPlaces.{numbers_in, AreValidWhereSome};
ghost use Rattle.dictionary_answers.specs.inside.PackedPlaces.{ArePacked};

use crate::coding::NO_PLACE;
use arrays::{Element, Validity};
use byteorder::{ByteOrder, LittleEndian};
use std::alloc::{AllocError, Global};

/// Bytes for so many numbers, each of which is 0.
pub(crate) fn zeros(alloc: Global, count: usize) -> Result<Vec<u8>, AllocError>
    ensures { IfOk result (λ bytes. length bytes.items ≡ 4 * count) }
{
    let Some(room) = count.checked_mul(4) else {
        return Err(AllocError);
    };
    Ok(vec![in alloc; 0; room]?)
}

/// The numbers of bytes.
pub(crate) fn unpack_numbers(alloc: Global, bytes: &[u8]) -> Result<Vec<u32>, AllocError>
    ensures { IfOk result (λ numbers. numbers.items ≡ numbers_in bytes.now) }
{
    let count = bytes.len() / 4;
    let mut numbers = Vec::with_capacity(alloc, count)?;
    for slot in 0..count {
        numbers.push(u32::read(bytes, slot))?;
    }
    Ok(numbers)
}

/// Writes a number in the stead of that of a slot.
pub(crate) fn put_number(bytes: &mut [u8], slot: usize, number: u32)
    requires { 4 * (slot + 1) ≤ length bytes.old }
    ensures { numbers_in bytes.new ≡ set (numbers_in bytes.old) slot number }
{
    LittleEndian::write_u32(&mut bytes[4 * slot..], number);
}

/// Writes 0 where the mark stands that tells a slot without a place.
pub(crate) fn clear_marks(validity: &Validity, bytes: &mut [u8])
    requires { AreValidWhereSome validity.now (map held (numbers_in bytes.old)) }
    ensures { ArePacked bytes.new (map held (numbers_in bytes.old)) }
{
    if validity.bits().is_some() {
        put_zeros(bytes);
    }
}

// Writes 0 in the stead of each mark.
fn put_zeros(bytes: &mut [u8])
    ensures { ArePacked bytes.new (map held (numbers_in bytes.old)) }
{
    for slot in 0..bytes.len() / 4 {
        let number = u32::read(bytes, slot);
        put_number(bytes, slot, if number == NO_PLACE { 0 } else { number });
    }
}
