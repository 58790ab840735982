//! What lies at a place of the buffer.

ghost use Rattle.std.specs.Prelude.{◌≡◌, ◌≤◌, ◌<◌, ◌^◌, ◌+◌, length, IfOk};
ghost use Rattle.scan_base.specs.Reading.{Gives};
ghost use Rattle.flatbuf.specs.Place.{number_at, target_of, bytes_at, items_at};

use byteorder::{ByteOrder, LittleEndian};
use scan_base::Fault;

/// The number of this many bytes at a place.
pub(crate) fn number(bytes: &[u8], at: usize, width: usize) -> Result<u64, Fault>
    requires low { 1 ≤ width }
    requires high { width ≤ 8 }
    ensures value { Gives (λ n. n) result (number_at width bytes.now at) }
    ensures fits { IfOk result (λ n. n < 256 ^ width) }
    ensures within { IfOk result (λ _. at + width ≤ length bytes.now) }
{
    if at > bytes.len() || bytes.len() - at < width {
        return Err(Fault::BadFlatbuffer);
    }
    Ok(LittleEndian::read_uint(&bytes[at..], width))
}

/// Where the offset at a place leads.
pub(crate) fn target(bytes: &[u8], at: usize) -> Result<usize, Fault>
    ensures value { Gives (λ target. target) result (target_of bytes.now at) }
    ensures near { IfOk result (λ target. target ≤ length bytes.now + 2 ^ 32) }
{
    let offset = number(bytes, at, 4)?;
    Ok(at + offset as usize)
}

// So many bytes from a place on.
fn bytes_from(bytes: &[u8], at: usize, count: usize) -> Result<&[u8], Fault>
    ensures { Gives (λ part. part.now) result (bytes_at bytes.now at count) }
{
    if at > bytes.len() || bytes.len() - at < count {
        return Err(Fault::BadFlatbuffer);
    }
    Ok(&bytes[at..at + count])
}

/// The items after the count at a place, each of this many bytes.
#[tactic(auto, unfolding(crate::specs::Place::items_at))]
pub(crate) fn items(bytes: &[u8], at: usize, width: usize) -> Result<&[u8], Fault>
    requires { width < 2 ^ 16 }
    ensures { Gives (λ part. part.now) result (items_at width bytes.now at) }
{
    let count = number(bytes, at, 4)?;
    bytes_from(bytes, at + 4, count as usize * width)
}
