//! Bytes as bits.

ghost use Rattle.std.specs.Prelude.{◌≡◌, ◌<◌, ◌==◌, ℕ, not, get_or};
ghost use Rattle.kernels.specs.Words.{bit};

use std::simd::prelude::*;
use std::simd::u8x64;

/// A bit for each of 64 bytes: 1 where the byte is not 0.
pub(crate) fn pack(flags: u8x64) -> u64
    ensures { (row : ℕ) → row < 64 → bit result row ≡ not (get_or flags row 0 == 0) }
{
    flags.simd_ne(u8x64::splat(0)).to_bitmask()
}
