//! Varints: numbers in groups of seven bits, the least significant first.

ghost use Rattle.std.specs.Prelude.{◌≡◌, ◌<◌, ◌^◌, ◌++◌, OnOk, OnErr};
ghost use Rattle.scan_base.specs.Reading.{Gives};
ghost use Rattle.proto_wire.specs.Reading.{varint_at};
ghost use Rattle.proto_wire.specs.Writing.{varint};

use scan_base::Fault;
use std::alloc::AllocError;

// The most bytes of a varint: ten groups of seven bits hold 64 bits.
const MAX_VARINT_LEN: usize = 10;

// The varint at the front, of at most ten bytes, and what follows it.
#[tactic(auto, unfolding(crate::specs::Reading::varint_at))]
fn read_groups(bytes: &[u8]) -> Result<(u64, &[u8]), Fault>
    ensures { Gives (λ x. (x.0, x.1.now)) result (varint_at bytes.now) }
{
    let mut value = 0u64;
    let mut rest = bytes;
    for place in 0..MAX_VARINT_LEN {
        let Some((first, after)) = rest.split_first() else {
            return Err(Fault::BadProto);
        };
        value = value.wrapping_add(u64::from(*first % 128) << (7 * place));
        if *first < 128 {
            return Ok((value, after));
        }
        rest = after;
    }
    Err(Fault::BadProto)
}

// The varint at the front, and what follows it. Most have one byte.
#[inline]
#[tactic(auto, unfolding(crate::specs::Reading::varint_at))]
pub(crate) fn read_varint(bytes: &[u8]) -> Result<(u64, &[u8]), Fault>
    ensures { Gives (λ x. (x.0, x.1.now)) result (varint_at bytes.now) }
{
    match bytes.split_first() {
        Some((first, rest)) if *first < 128 => Ok((u64::from(*first), rest)),
        _ => read_groups(bytes),
    }
}

// Writes the shortest varint of a number at the end. An `Err` changes nothing.
#[inline]
#[tactic(auto, unfolding(crate::specs::Writing::varint))]
pub(crate) fn append_varint(out: &mut Vec<u8>, number: u64) -> Result<(), AllocError>
    ensures ok { OnOk result (out.new.items ≡ out.old.items ++ varint number) }
    ensures err { OnErr result (out.new.items ≡ out.old.items) }
{
    let mut buffer = [0; MAX_VARINT_LEN];
    let mut left = number;
    let mut end = 0;
    while left >= 128 {
        buffer[end] = (left % 128) as u8 + 128;
        left /= 128;
        end += 1;
    }
    buffer[end] = left as u8;
    out.extend_from_slice(&buffer[..end + 1])
}
