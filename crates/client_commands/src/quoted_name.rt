//! A name between double quotes, as a query has it.

ghost use Rattle.std.specs.Prelude.{◌≡◌, IfOk, string_bytes};
ghost use Rattle.std.specs.Str.{byte};
ghost use Rattle.sql_text.specs.Values.{quoted};

use std::alloc::{AllocError, Global};

/// A name between double quotes. A double quote in it stands twice.
///
/// # Errors
///
/// `AllocError` where memory is refused.
pub(crate) fn quoted_name(alloc: Global, name: &str) -> Result<String, AllocError>
    ensures { IfOk result (λ text. string_bytes text ≡ quoted (byte "\"") name.now) }
{
    let mut text = String::new(alloc);
    text.push('"')?;
    let mut rest = name;
    while let Some((front, after)) = rest.split_once('"') {
        text.push_str(front)?;
        text.push_str("\"\"")?;
        rest = after;
    }
    text.push_str(rest)?;
    text.push('"')?;
    Ok(text)
}
