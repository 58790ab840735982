//! Packed numbers by their codes: what their bits are as numbers without a sign.

ghost use Rattle.std.specs.Prelude.{◌≡◌, ◌≤◌, ◌+◌, ◌*◌, ℕ, length};
ghost use Rattle.arrays.specs.Number.{element_at};

use crate::element::Element;

/// A type of packed codes: a number that is not negative has the same bits in the type of its width
/// that has a sign.
pub trait Code {
    /// How many bytes a code has.
    ghost WIDTH: { ℕ };

    /// Code `place` of packed ones, counted from 0.
    fn code(values: &[u8], place: usize) -> u64
        requires { WIDTH * (place + 1) ≤ length values.now }
        ensures { result ≡ element_at WIDTH values.now place };
}

impl Code for u8 {
    ghost WIDTH = { 1 };

    fn code(values: &[u8], place: usize) -> u64 {
        u64::from(u8::read(values, place))
    }
}

impl Code for u16 {
    ghost WIDTH = { 2 };

    fn code(values: &[u8], place: usize) -> u64 {
        u64::from(u16::read(values, place))
    }
}

impl Code for u32 {
    ghost WIDTH = { 4 };

    fn code(values: &[u8], place: usize) -> u64 {
        u64::from(u32::read(values, place))
    }
}

impl Code for u64 {
    ghost WIDTH = { 8 };

    fn code(values: &[u8], place: usize) -> u64 {
        u64::read(values, place)
    }
}
