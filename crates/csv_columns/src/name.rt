//! Names of columns.

ghost use Rattle.std.specs.Prelude.{◌≡◌, IfErr, IfOk};
ghost use Rattle.arrow_types.specs.Schema.{IsName};
ghost use Rattle.csv_columns.specs.Refusals.{WhyNoName};

use arrow_types::MAX_NAME_BYTES;
use scan_base::{Fault, Text, read_text};
use std::alloc::Global;

/// The name that bytes are: a text of a byte or more, up to 64.
///
/// # Errors
///
/// - `Fault::BadBatch` (F8) where they are no text of a byte or more.
/// - `Fault::LimitReached` (F12) where the text has more than 64 bytes.
/// - `Fault::OutOfMemory` (F21) where memory is refused.
pub fn name_of(alloc: Global, bytes: &[u8]) -> Result<Text, Fault>
    ensures value { IfOk result (λ name. name ≡ bytes.now) }
    ensures named { IfOk result IsName }
    ensures refused { IfErr result (WhyNoName bytes.now) }
{
    let name = read_text(bytes, Fault::BadBatch)?;
    if bytes.is_empty() {
        return Err(Fault::BadBatch);
    }
    if bytes.len() > MAX_NAME_BYTES {
        return Err(Fault::LimitReached);
    }
    Ok(Text::new(alloc, name)?)
}
