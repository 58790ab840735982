//! Names of columns.

ghost use Rattle.std.specs.Prelude.{◌≡◌, ◌<◌, ◌++◌, IfErr, IfOk, codes, length, string_bytes};
ghost use Rattle.std.specs.Fmt.{decimal};
ghost use Rattle.csv.specs.Records.{fields_of};
ghost use Rattle.arrow_types.specs.Schema.{IsName};
ghost use Rattle.csv_columns.specs.Refusals.{WhyNoName};
ghost use Rattle.csv_columns.specs.FittingColumns.{name_of};

use crate::{field_in, name_of};
use csv::ByteRecord;
use scan_base::{Fault, Text};
use std::alloc::{AllocError, Global};

// `col` and a number.
fn numbered(alloc: Global, number: usize) -> Result<String, AllocError>
    ensures { IfOk result (λ name. string_bytes name ≡ codes "col" ++ decimal number) }
{
    format!(in alloc; "col{number}")
}

/// The name of a column: what the first record has in it, or `col` and its number.
///
/// # Errors
///
/// `Fault::BadBatch` where it is no text of a byte or more, `Fault::LimitReached` where it has more
/// than 64 bytes, and `Fault::OutOfMemory` where memory is refused.
pub(crate) fn name_in(
    alloc: Global,
    header: bool,
    first: &ByteRecord,
    place: usize,
) -> Result<Text, Fault>
    requires { place < length (fields_of first.now) }
    ensures value { IfOk result (λ name. name ≡ name_of header (fields_of first.now) place) }
    ensures named { IfOk result IsName }
    ensures refused { IfErr result (WhyNoName (name_of header (fields_of first.now) place)) }
{
    if header {
        return name_of(alloc, field_in(first, place));
    }
    let _count = first.len();
    let name = numbered(alloc, place + 1)?;
    name_of(alloc, name.as_bytes())
}
