//! Where the message in front of a stream lies.

ghost use Rattle.ipc_stream.specs.inside.Front.{FindsLength, FindsBody, FindsFrame};

use flatbuf::{Buf, Width};
use scan_base::Fault;

/// How many bytes stand before a header: four of 255, and the header's length.
pub(crate) const HEADER_START: usize = 8;

// The most bytes of a header: its length is a signed number of 32 bits.
const MAX_HEADER_LEN: u32 = 0x7fff_ffff;

// The most bytes of a body: its length is a signed number of 64 bits.
const MAX_BODY_LEN: u64 = 0x7fff_ffff_ffff_ffff;

/// Where the parts of a message lie, counted from where it begins.
#[derive(Clone, Copy)]
pub(crate) struct Frame {
    pub header_end: usize,
    pub end: usize,
}

// The length of the header in front, or nothing where the stream ends.
fn header_len(bytes: &[u8]) -> Result<Option<usize>, Fault>
    ensures { FindsLength bytes.now result }
{
    if bytes.is_empty() {
        return Ok(None);
    }
    if bytes.len() < HEADER_START || !bytes.starts_with(&[0xff; 4]) {
        return Err(Fault::BadFlatbuffer);
    }
    let len = u32::from_le_bytes([bytes[4], bytes[5], bytes[6], bytes[7]]);
    if len == 0 {
        return Ok(None);
    }
    if len > MAX_HEADER_LEN {
        return Err(Fault::BadFlatbuffer);
    }
    Ok(Some(len as usize))
}

// How many bytes of body a header claims, whatever its kind and version: none where it does not
// say.
fn body_len(header: &[u8]) -> Result<u64, Fault>
    ensures { FindsBody header.now result }
{
    let message = Buf::root(header)?;
    let len = message.scalar(3, Width::Eight, 0)?;
    if len > MAX_BODY_LEN {
        return Err(Fault::BadFlatbuffer);
    }
    Ok(len)
}

/// Where the message in front lies, or nothing where the stream ends.
///
/// # Errors
///
/// `Fault::BadFlatbuffer` where neither stands in front.
pub(crate) fn read_frame(bytes: &[u8]) -> Result<Option<Frame>, Fault>
    ensures { FindsFrame bytes.now result }
{
    let Some(header_len) = header_len(bytes)? else {
        return Ok(None);
    };
    if bytes.len() - HEADER_START < header_len {
        return Err(Fault::BadFlatbuffer);
    }
    let header_end = HEADER_START + header_len;
    let body_len = body_len(&bytes[HEADER_START..header_end])?;
    if body_len > (bytes.len() - header_end) as u64 {
        return Err(Fault::BadFlatbuffer);
    }
    Ok(Some(Frame {
        header_end,
        end: header_end + body_len as usize,
    }))
}
