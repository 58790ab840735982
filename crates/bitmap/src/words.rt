//! Bits of a byte slice, 64 at a time. A word's lowest bit is the first of them.

ghost use Rattle.std.specs.Prelude.{◌≡◌, ◌≤◌, ◌<◌, ◌+◌, ◌*◌, ◌^◌, length, count_by, IfOk, List};
ghost use Rattle.std.specs.Prelude.{Bool, ℕ, map, get_or, slice_index};
ghost use Rattle.std.specs.Simd.Lanes.{mask_l, zip2};
ghost use Rattle.byteorder.specs.Endian.{little_from};
ghost use Rattle.bitmap.specs.Bits.{bit_of, bits_of, IsRoomy};
ghost use Rattle.bitmap.specs.inside.JoinedBits.{joined};

use byteorder::{ByteOrder, LittleEndian};
use std::alloc::{AllocError, Global};

/// What is made of the bits at one place of two bitmaps.
#[derive(Clone, Copy)]
pub(crate) enum Operation {
    And,
    Or,
    AndNot,
}

/// Bit `place`.
pub(crate) fn bit(bytes: &[u8], place: usize) -> bool
    requires { place < 8 * length bytes.now }
    ensures { result ≡ bit_of bytes.now place }
{
    (bytes[place / 8] >> (place % 8)) % 2 == 1
}

/// The 64 bits from `first` on.
pub(crate) fn word(bytes: &[u8], first: usize) -> u64
    requires { first + 64 ≤ 8 * length bytes.now }
    ensures { result ≡ mask_l (bits_of bytes.now first 64) }
{
    let byte = first / 8;
    let shift = first % 8;
    let low = LittleEndian::read_u64(&bytes[byte..byte + 8]);
    if shift == 0 {
        return low;
    }
    let high = bytes[byte + 8] as u64;
    (low >> shift) | (high << (64 - shift))
}

// The eight bytes from `at` on as a number, the lowest first. Past the end stand zeros.
fn eight_bytes(bytes: &[u8], at: usize) -> u64
    requires { at ≤ length bytes.now }
    ensures { result ≡ little_from at 8 bytes.now }
{
    let count = bytes.len() - at;
    if count >= 8 {
        return LittleEndian::read_u64(&bytes[at..at + 8]);
    }
    let mut number = 0u64;
    for taken in 0..count {
        number = 256 * number + bytes[at + (count - 1 - taken)] as u64;
    }
    number
}

// The 64 bits from `first` on. Past the end stand zeros.
fn padded_word(bytes: &[u8], first: usize) -> u64
    requires { first ≤ 8 * length bytes.now }
    ensures { result ≡ mask_l (bits_of bytes.now first 64) }
{
    let byte = first / 8;
    let shift = first % 8;
    let low = eight_bytes(bytes, byte);
    if shift == 0 {
        return low;
    }
    let high = byte_or_zero(bytes, byte + 8) as u64;
    (low >> shift) | (high << (64 - shift))
}

// The byte at a place, and 0 past the end.
fn byte_or_zero(bytes: &[u8], at: usize) -> u8
    ensures { result ≡ slice_index bytes.now at }
{
    if at < bytes.len() { bytes[at] } else { 0 }
}

/// Fewer than 64 bits from `first` on, with zeros above them.
pub(crate) fn short_word(bytes: &[u8], first: usize, len: usize) -> u64
    requires room { IsRoomy bytes.now first len }
    requires short { len < 64 }
    ensures { result ≡ mask_l (bits_of bytes.now first len) }
{
    padded_word(bytes, first) & ((1 << len) - 1)
}

/// How many of the `len` bits from `first` on are set.
pub(crate) fn count_bits(bytes: &[u8], first: usize, len: usize) -> usize
    requires { IsRoomy bytes.now first len }
    ensures { result ≡ count_by (λ bit. bit) (bits_of bytes.now first len) }
{
    let words = len / 64;
    let mut total = 0usize;
    for i in 0..words {
        total += word(bytes, first + 64 * i).count_ones() as usize;
    }
    total + short_word(bytes, first + 64 * words, len % 64).count_ones() as usize
}

// Two words of bits made into one.
fn join_words(operation: Operation, left: u64, right: u64) -> u64
    ensures { (ls rs : List Bool) → length ls ≡ length rs → left ≡ mask_l ls → right ≡ mask_l rs →
        result ≡ mask_l (zip2 (joined operation) ls rs) }
{
    match operation {
        Operation::And => left & right,
        Operation::Or => left | right,
        Operation::AndNot => left & (left ^ right),
    }
}

/// The bytes of what two runs of `len` bits make, with zeros past the length.
pub(crate) fn join_bits(
    alloc: Global,
    operation: Operation,
    left: &[u8],
    left_first: usize,
    right: &[u8],
    right_first: usize,
    len: usize,
) -> Result<Vec<u8>, AllocError>
    requires left { IsRoomy left.now left_first len }
    requires right { IsRoomy right.now right_first len }
    ensures bits { IfOk result (λ made. bits_of made.items 0 len ≡ zip2 (joined operation)
        (bits_of left.now left_first len) (bits_of right.now right_first len)) }
    ensures room { IfOk result (λ made. len ≤ 8 * length made.items) }
{
    let words = len / 64;
    let mut made = Vec::with_capacity(alloc, 8 * words + 8)?;
    for i in 0..words {
        let one = word(left, left_first + 64 * i);
        let other = word(right, right_first + 64 * i);
        made.extend_from_slice(&join_words(operation, one, other).to_le_bytes())?;
    }
    let one = short_word(left, left_first + 64 * words, len % 64);
    let other = short_word(right, right_first + 64 * words, len % 64);
    made.extend_from_slice(&join_words(operation, one, other).to_le_bytes())?;
    Ok(made)
}

// At most 64 bits at places, counted from `first` on, as a word.
fn word_at_places(bytes: &[u8], first: usize, places: &[u32]) -> u64
    requires few { length places.now ≤ 64 }
    requires within { (k : ℕ) → k < length places.now →
        first + get_or places.now k 0 < 8 * length bytes.now }
    requires small { (k : ℕ) → k < length places.now → first + get_or places.now k 0 < 2 ^ 64 }
    ensures { result ≡ mask_l (map (λ place. bit_of bytes.now (first + place)) places.now) }
{
    let count = places.len();
    let mut word = 0u64;
    for taken in 0..count {
        let place = places[count - 1 - taken] as usize;
        word = 2 * word + bit(bytes, first + place) as u64;
    }
    word
}

/// The bytes of the bits at places, which are counted from `first` on, with zeros after them.
pub(crate) fn gather_bits(
    alloc: Global,
    bytes: &[u8],
    first: usize,
    places: &[u32],
) -> Result<Vec<u8>, AllocError>
    requires within { (k : ℕ) → k < length places.now →
        first + get_or places.now k 0 < 8 * length bytes.now }
    requires small { (k : ℕ) → k < length places.now → first + get_or places.now k 0 < 2 ^ 64 }
    ensures bits { IfOk result (λ made. bits_of made.items 0 (length places.now)
        ≡ map (λ place. bit_of bytes.now (first + place)) places.now) }
    ensures room { IfOk result (λ made. length places.now ≤ 8 * length made.items) }
{
    let words = places.len() / 64;
    let mut made = Vec::with_capacity(alloc, 8 * words + 8)?;
    for i in 0..words {
        let word = word_at_places(bytes, first, &places[64 * i..64 * i + 64]);
        made.extend_from_slice(&word.to_le_bytes())?;
    }
    let last = word_at_places(bytes, first, &places[64 * words..]);
    made.extend_from_slice(&last.to_le_bytes())?;
    Ok(made)
}
