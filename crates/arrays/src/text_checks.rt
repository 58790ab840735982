//! Texts looked at by the buffer: all offsets, and all data as one text.

ghost use Rattle.std.specs.Prelude.{◌≡◌, ◌≤◌, ◌<◌, ◌+◌, ◌*◌, ℕ, true, length, slice_index};
ghost use Rattle.std.specs.List.{slice_range};
ghost use Rattle.std.specs.Fmt.{is_char_start};
ghost use Rattle.std.specs.Str.{is_utf8};
ghost use Rattle.arrays.specs.Number.{element_at};
ghost use Rattle.arrays.specs.inside.TextCuts.{OffsetsRise, LieWithin, CutBetweenCharacters};
ghost use Rattle.arrays.specs.inside.TextCuts.{IsTextCut};

use crate::element::Element;
use scan_base::{Fault, read_text};

/// Whether the data of `len` slots is one text, which rising offsets cut between characters. Where
/// the answer is no, each slot may stand still: the bytes of a null may be anything.
pub(crate) fn are_cut_from_text(offsets: &[u8], bytes: &[u8], len: usize) -> bool
    requires { 4 * (len + 1) ≤ length offsets.now }
    ensures { result ≡ true → (place : ℕ) → place < len → IsTextCut offsets.now bytes.now place }
{
    let last = u32::read(offsets, len) as usize;
    if last > bytes.len() || last >= 1 << 31 || !offsets_rise(offsets, len) {
        return false;
    }
    let whole = between(offsets, bytes, 0, len);
    is_ascii(whole) || is_utf8(whole) && cut_between_characters(offsets, len, whole)
}

// Whether each byte is one of ASCII, so that every offset cuts between characters. It reads each.
fn is_ascii(bytes: &[u8]) -> bool
    ensures { result ≡ true → (place : ℕ) → place < length bytes.now →
        slice_index bytes.now place < 128 }
{
    let mut ascii = true;
    for byte in bytes {
        ascii = ascii & (*byte < 0x80);
    }
    ascii
}

// Whether no offset is below the one before it. It reads each.
fn offsets_rise(offsets: &[u8], len: usize) -> bool
    requires { 4 * (len + 1) ≤ length offsets.now }
    ensures { result ≡ true → OffsetsRise offsets.now len }
{
    let mut rise = true;
    for place in 0..len {
        rise = rise & (u32::read(offsets, place) <= u32::read(offsets, place + 1));
    }
    rise
}

/// The most bytes between an offset and the one after it, of the slots `from` up to, not with,
/// `to`.
pub(crate) fn longest_cut(offsets: &[u8], from: usize, to: usize) -> u32
    requires room { 4 * (to + 1) ≤ length offsets.now }
    requires rise { (place : ℕ) → from ≤ place → place < to →
        element_at 4 offsets.now place ≤ element_at 4 offsets.now (place + 1) }
    ensures { (place : ℕ) → from ≤ place → place < to →
        element_at 4 offsets.now (place + 1) ≤ element_at 4 offsets.now place + result }
{
    let mut longest = 0;
    for place in from..to {
        let bytes = u32::read(offsets, place + 1) - u32::read(offsets, place);
        longest = bytes.max(longest);
    }
    longest
}

// Whether each offset, counted from the first on, is the place of a character's first byte in
// `whole`, or its end. It reads each.
fn cut_between_characters(offsets: &[u8], len: usize, whole: &[u8]) -> bool
    requires offsets { 4 * (len + 1) ≤ length offsets.now }
    requires within { LieWithin offsets.now len (element_at 4 offsets.now 0)
        (element_at 4 offsets.now 0 + length whole.now) }
    ensures { result ≡ true →
        CutBetweenCharacters offsets.now len (element_at 4 offsets.now 0) whole.now }
{
    let first = u32::read(offsets, 0) as usize;
    let mut between = true;
    for place in 0..len + 1 {
        let at = u32::read(offsets, place) as usize - first;
        if at < whole.len() {
            between = between & starts_character(whole[at]);
        }
    }
    between
}

// Whether a byte is the first of a character in UTF-8.
fn starts_character(byte: u8) -> bool
    ensures { result ≡ is_char_start byte }
{
    byte < 0x80 || byte >= 0xC0
}

/// The bytes from one offset to another.
pub(crate) fn between<'a>(offsets: &[u8], bytes: &'a [u8], from: usize, to: usize) -> &'a [u8]
    requires begin { 4 * (from + 1) ≤ length offsets.now }
    requires end { 4 * (to + 1) ≤ length offsets.now }
    requires ordered { element_at 4 offsets.now from ≤ element_at 4 offsets.now to }
    requires within { element_at 4 offsets.now to ≤ length bytes.now }
    ensures { result.now
        ≡ slice_range bytes.now (element_at 4 offsets.now from) (element_at 4 offsets.now to) }
{
    &bytes[u32::read(offsets, from) as usize..u32::read(offsets, to) as usize]
}

/// Whether the bytes are UTF-8.
pub(crate) fn is_utf8(bytes: &[u8]) -> bool
    ensures { result ≡ is_utf8 bytes.now }
{
    match read_text(bytes, Fault::BadBatch) {
        Ok(_) => true,
        Err(_) => false,
    }
}
