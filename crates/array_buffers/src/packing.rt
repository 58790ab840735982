//! Bits packed after bytes.

ghost use Rattle.std.specs.Prelude.{◌≡◌, ◌≤◌, ◌+◌, ◌++◌, OnOk, length, take, drop};
ghost use Rattle.array_buffers.specs.ColumnBuffers.{packed_bits};

use bitmap::Bits;
use std::alloc::AllocError;

/// Writes the `len` bits from `from` on after what `out` has, 64 at a time, and zeros after the
/// last up to a whole byte.
pub(crate) fn append_bits(
    out: &mut Vec<u8>,
    bits: &Bits,
    from: usize,
    len: usize,
) -> Result<(), AllocError>
    requires { from + len ≤ length bits.now }
    ensures ok { OnOk result
        (out.new.items ≡ out.old.items ++ packed_bits (take len (drop from bits.now))) }
    ensures begins { take (length out.old.items) out.new.items ≡ out.old.items }
{
    let _count = bits.len();
    let words = len / 64;
    for word in 0..words {
        out.extend_from_slice(&bits.word(from + 64 * word).to_le_bytes())?;
    }
    let rest = len % 64;
    let last = bits.short_word(from + 64 * words, rest).to_le_bytes();
    out.extend_from_slice(&last[..rest.div_ceil(8)])
}
