//! Tests of numbers of 64 bits with a sign, eight at a time.

ghost use Rattle.std.specs.Prelude.{◌≡◌, ◌≤◌, ◌<◌, ◌+◌, ◌*◌, ◌^◌, ℕ, ℤ, Bool, length};
ghost use Rattle.std.specs.Simd.Lanes.{mask_l};
ghost use Rattle.kernels.specs.Ranges.{long_at};
ghost use Rattle.kernels.specs.Tests.{tests};
ghost use Rattle.kernels.specs.Words.{bit};

use std::simd::prelude::*;
use std::simd::{i64x8, u8x64};

/// A test of numbers.
pub(crate) trait Octets {
    /// What the test says of a number.
    ghost says: { Self → ℤ → Bool };

    /// What it says of the eight numbers from `from` on.
    fn octet(&self, values: &[u8], from: usize) -> u64
        requires { 8 * (from + 8) ≤ length values.now }
        ensures { result
            ≡ mask_l (tests (λ place. says self.now (long_at values.now place)) from 8) };
}

/// What a test says of the 64 numbers from `from` on.
pub(crate) fn word_by<O: Octets>(octets: &O, values: &[u8], from: usize) -> u64
    requires { 8 * (from + 64) ≤ length values.now }
    ensures { (row : ℕ) → row < 64 →
        bit result row ≡ O.says octets.now (long_at values.now (from + row)) }
{
    let mut word = 0u64;
    for k in 0..8usize {
        word = word * 256 + octets.octet(values, from + 8 * (7 - k));
    }
    word
}

/// Whether a number is equal to another.
#[derive(Clone, Copy, Drop)]
pub(crate) struct EqualTo {
    pub(crate) number: i64,
}

impl Octets for EqualTo {
    ghost use Rattle.std.specs.Ordering.{int_eq};

    ghost says = { λ s x. int_eq x s.number };

    fn octet(&self, values: &[u8], from: usize) -> u64 {
        let lanes = i64x8::from_le_bytes(u8x64::from_slice(&values[8 * from..8 * from + 64]));
        lanes.simd_eq(i64x8::splat(self.number)).to_bitmask()
    }
}

/// Whether a number is below another.
#[derive(Clone, Copy, Drop)]
pub(crate) struct BelowLeast {
    pub(crate) least: i64,
}

impl Octets for BelowLeast {
    ghost use Rattle.std.specs.Prelude.{int_lt};

    ghost says = { λ s x. int_lt x s.least };

    fn octet(&self, values: &[u8], from: usize) -> u64 {
        let lanes = i64x8::from_le_bytes(u8x64::from_slice(&values[8 * from..8 * from + 64]));
        lanes.simd_lt(i64x8::splat(self.least)).to_bitmask()
    }
}

/// Whether a number is above another.
#[derive(Clone, Copy, Drop)]
pub(crate) struct AboveMost {
    pub(crate) most: i64,
}

impl Octets for AboveMost {
    ghost use Rattle.std.specs.Prelude.{int_lt};

    ghost says = { λ s x. int_lt s.most x };

    fn octet(&self, values: &[u8], from: usize) -> u64 {
        let lanes = i64x8::from_le_bytes(u8x64::from_slice(&values[8 * from..8 * from + 64]));
        lanes.simd_gt(i64x8::splat(self.most)).to_bitmask()
    }
}

/// Whether a number is below one or above another.
#[derive(Clone, Copy, Drop)]
pub(crate) struct OutsideRange {
    pub(crate) least: i64,
    pub(crate) most: i64,
}

impl Octets for OutsideRange {
    ghost use Rattle.std.specs.Prelude.{int_lt, ◌||◌};

    ghost says = { λ s x. int_lt x s.least || int_lt s.most x };

    fn octet(&self, values: &[u8], from: usize) -> u64 {
        let lanes = i64x8::from_le_bytes(u8x64::from_slice(&values[8 * from..8 * from + 64]));
        let outside = lanes.simd_lt(i64x8::splat(self.least))
            | lanes.simd_gt(i64x8::splat(self.most));
        outside.to_bitmask()
    }
}
