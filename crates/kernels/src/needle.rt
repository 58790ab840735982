//! A text that is looked for.

ghost use Rattle.std.specs.Prelude.{◌≡◌, ◌≤◌, ◌<◌, ◌+◌, ◌*◌, ◌^◌, length, take, drop};
ghost use Rattle.std.specs.List.{slice_range};
ghost use Rattle.std.specs.Str.{bytes_eq};
ghost use Rattle.byteorder.specs.Endian.{little_from};
ghost use Rattle.kernels.specs.Needles.{front_len};

use byteorder::{ByteOrder, LittleEndian};
use std::marker::Model;

/// A text that is looked for: its bytes, the first eight of them as a number, and a mask of so many
/// bytes. A contract sees the bytes.
#[derive(Drop)]
pub(crate) struct Needle<'a> {
    text: &'a [u8],
    front: u64,
    mask: u64,
}

impl<'a> Model for Needle<'a> {
    ghost use Rattle.std.specs.Prelude.{ℕ, List};
    ghost use Rattle.kernels.specs.Needles.{IsFront};

    ghost Value = { List ℕ };

    ghost view = { λ n. n.text.now };

    ghost invariant = { λ n. IsFront n.text.now n.front n.mask };
}

// Fewer than eight bytes as a number, the lowest first.
fn short_number(bytes: &[u8]) -> u64
    requires { length bytes.now < 8 }
    ensures { result ≡ little_from 0 (length bytes.now) bytes.now }
{
    let count = bytes.len();
    let mut number = 0u64;
    for taken in 0..count {
        number = 256 * number + bytes[count - 1 - taken] as u64;
    }
    number
}

impl<'a> Needle<'a> {
    pub(crate) fn new(text: &'a [u8]) -> Needle<'a>
        ensures { result ≡ text.now }
    {
        if text.len() < 8 {
            return Needle {
                text,
                front: short_number(text),
                mask: (1 << (8 * text.len())) - 1,
            };
        }
        Needle {
            text,
            front: eight_bytes(text, 0),
            mask: u64::MAX,
        }
    }

    /// How many bytes the text has.
    pub(crate) fn len(&self) -> usize
        ensures { result ≡ length self.now }
    {
        self.text.len()
    }

    // Whether the first bytes of the text, eight at most, are those from a place on.
    fn begins_at(&self, bytes: &[u8], at: usize) -> bool
        requires { at + 8 ≤ length bytes.now }
        ensures { result ≡ bytes_eq (slice_range bytes.now at (at + front_len self.now))
            (take (front_len self.now) self.now) }
    {
        eight_bytes(bytes, at) & self.mask == self.front
    }

    // Whether the other bytes of the text are those after.
    fn goes_on_at(&self, bytes: &[u8], at: usize) -> bool
        requires { at + length self.now ≤ length bytes.now }
        ensures { result
            ≡ bytes_eq (slice_range bytes.now (at + front_len self.now) (at + length self.now))
            (drop (front_len self.now) self.now) }
    {
        self.text.len() <= 8 || &bytes[at + 8..at + self.text.len()] == &self.text[8..]
    }

    /// Whether the bytes from a place on are the text.
    pub(crate) fn stands_at(&self, bytes: &[u8], at: usize) -> bool
        requires { at + length self.now ≤ length bytes.now }
        ensures { result ≡ bytes_eq (slice_range bytes.now at (at + length self.now)) self.now }
    {
        if bytes.len() - at < 8 {
            return &bytes[at..at + self.text.len()] == self.text;
        }
        self.begins_at(bytes, at) && self.goes_on_at(bytes, at)
    }
}

// The eight bytes from a place on as a number, the lowest first.
fn eight_bytes(bytes: &[u8], at: usize) -> u64
    requires { at + 8 ≤ length bytes.now }
    ensures { result ≡ little_from at 8 bytes.now }
{
    LittleEndian::read_u64(&bytes[at..at + 8])
}
