//! The keys of texts, which mostly tell their order.

ghost use Rattle.std.specs.Prelude.{◌≡◌, ◌≤◌, ◌+◌, ◌-◌, ◌*◌, ◌/◌, ◌%◌, ◌^◌, ◌&&◌, min, nat_le};
ghost use Rattle.std.specs.Prelude.{length, slice_range, slice_index};
ghost use Rattle.byteorder.specs.Endian.{big_from};
ghost use Rattle.batch_stats.specs.inside.TextKeys.{key_of};

use byteorder::{BigEndian, ByteOrder};

// The bits of the first bytes of a word, at most seven, by how many they are.
static FIRST_BYTES: [u64; 9] = [
    0,
    0xff00_0000_0000_0000,
    0xffff_0000_0000_0000,
    0xffff_ff00_0000_0000,
    0xffff_ffff_0000_0000,
    0xffff_ffff_ff00_0000,
    0xffff_ffff_ffff_0000,
    0xffff_ffff_ffff_ff00,
    0xffff_ffff_ffff_ff00,
];

/// The keys from one up to, and with, another. Their count tells by one comparison whether a key is
/// one of them.
#[derive(Clone, Copy, Drop)]
pub(crate) struct KeyRange {
    pub(crate) low: u64,
    pub(crate) high: u64,
    pub(crate) count: u64,
}

impl KeyRange {
    /// The keys between those of two texts: those themselves only where they tell the whole text.
    pub(crate) fn new(least: u64, greatest: u64) -> KeyRange
        requires least { least ≤ 2 ^ 64 - 32 }
        requires greatest { greatest ≤ 2 ^ 64 - 32 }
        ensures low { result.low ≡ least + least % 256 / 8 }
        ensures high { result.high ≡ greatest - greatest % 256 / 8 }
        ensures count { result.count ≡ result.high + 1 - result.low }
    {
        let low = least + least % 256 / 8;
        let high = greatest - greatest % 256 / 8;
        KeyRange {
            low,
            high,
            count: (high + 1).saturating_sub(low),
        }
    }

    /// Whether a key is one of them.
    pub(crate) fn has(self, key: u64) -> bool
        requires { self.count ≡ self.high + 1 - self.low }
        ensures { result ≡ (nat_le self.low key && nat_le key self.high) }
    {
        key.wrapping_sub(self.low) < self.count
    }
}

/// The key of the text that lies between two places of some bytes.
pub(crate) fn key_at(bytes: &[u8], begin: usize, end: usize) -> u64
    requires ordered { begin ≤ end }
    requires within { end ≤ length bytes.now }
    ensures { result ≡ key_of (slice_range bytes.now begin end) }
{
    let count = (end - begin).min(8);
    first_bytes(word_at(bytes, begin), count) + count as u64
}

// The first of the eight bytes of a word, at most seven, with zeros after them up to eight.
fn first_bytes(word: u64, count: usize) -> u64
    requires { count ≤ 8 }
    ensures { result ≡ 256 * (word / 256 ^ (8 - min count 7) * 256 ^ (7 - min count 7)) }
{
    word & FIRST_BYTES[count]
}

// The eight bytes from a place on as a number, the first of them highest. Past the end stand zeros.
fn word_at(bytes: &[u8], begin: usize) -> u64
    requires { begin ≤ length bytes.now }
    ensures { result ≡ big_from begin 8 bytes.now }
{
    if begin + 8 <= bytes.len() {
        return BigEndian::read_u64(&bytes[begin..begin + 8]);
    }
    last_word(bytes, begin)
}

// The same where fewer than eight bytes follow.
#[inline(never)]
fn last_word(bytes: &[u8], begin: usize) -> u64
    requires { begin ≤ length bytes.now }
    ensures { result ≡ big_from begin 8 bytes.now }
{
    let mut word = 0u64;
    for place in begin..begin + 8 {
        word = 256 * word + byte_or_zero(bytes, place) as u64;
    }
    word
}

// The byte at a place, and 0 past the end.
fn byte_or_zero(bytes: &[u8], place: usize) -> u8
    ensures { result ≡ slice_index bytes.now place }
{
    if place < bytes.len() { bytes[place] } else { 0 }
}
