//! Columns that are built of values by a rule.

ghost use Rattle.std.specs.Prelude.{◌<◌, ◌^◌, IfOk, length, map};
ghost use Rattle.scan_base.specs.declared.value.Value.TheVariants.{Text};
ghost use Rattle.arrays.specs.WrittenSlots.{texts_joined};
ghost use Rattle.array_select.specs.ColumnValues.{value_or_null};

use crate::pieces::first_word;
use anyhow::{Result, bail};
use array_select::{column_of_bools, column_of_decimals, column_of_int64s, column_of_texts};
use arrays::Column;
use std::alloc::{AllocError, Global};

/// The column of a type, a number of slots, and a number n: every n-th slot is null, and none where
/// n is 0.
pub fn column_by_rule(alloc: Global, words: &str) -> Result<Column> {
    let (kind, numbers) = first_word(words)?;
    let (count, nulls) = first_word(numbers)?;
    let (count, nulls) = (count.parse::<u32>()?, nulls.parse::<u32>()?);
    Ok(match kind {
        "Int64" => column_of_int64s(alloc, int64s(alloc, count, nulls)?.as_slice())?,
        "Decimal128" => column_of_decimals(alloc, decimals(alloc, count, nulls)?.as_slice())?,
        "Bool" => column_of_bools(alloc, bools(alloc, count, nulls)?.as_slice())?,
        "Utf8" => column_of_texts(alloc, texts(alloc, count, nulls)?.as_slice())?,
        _ => bail!("no rule for {kind}"),
    })
}

fn is_null(place: u32, nulls: u32) -> bool {
    nulls != 0 && place % nulls == nulls - 1
}

// Multiples of a large number, of either sign, since those of more than 64 bits wrap.
fn int64s(alloc: Global, count: u32, nulls: u32) -> Result<Vec<Option<i64>>, AllocError> {
    let mut values = Vec::with_capacity(alloc, count as usize)?;
    for place in 0..count {
        let value = i64::from(place).wrapping_mul(-7_046_029_254_386_353_131);
        values.push(if is_null(place, nulls) {
            None
        } else {
            Some(value)
        })?;
    }
    Ok(values)
}

// The same in 128 bits.
fn decimals(alloc: Global, count: u32, nulls: u32) -> Result<Vec<Option<i128>>, AllocError> {
    let mut values = Vec::with_capacity(alloc, count as usize)?;
    for place in 0..count {
        let value = i128::from(place).wrapping_mul(
            -129_000_000_000_000_000_000_000_000_000_000_000_007,
        );
        values.push(if is_null(place, nulls) {
            None
        } else {
            Some(value)
        })?;
    }
    Ok(values)
}

// Every third is true.
fn bools(alloc: Global, count: u32, nulls: u32) -> Result<Vec<Option<bool>>, AllocError> {
    let mut values = Vec::with_capacity(alloc, count as usize)?;
    for place in 0..count {
        let value = place % 3 == 0;
        values.push(if is_null(place, nulls) {
            None
        } else {
            Some(value)
        })?;
    }
    Ok(values)
}

// Four texts in turn.
fn texts(alloc: Global, count: u32, nulls: u32) -> Result<Vec<Option<&'static str>>>
    ensures { IfOk result (λ texts.
        length (texts_joined (map (value_or_null (λ text. Text text.now)) texts.items)) < 2 ^ 31) }
{
    let mut values = Vec::with_capacity(alloc, count as usize)?;
    let mut total = 0;
    for place in 0..count {
        let text = if is_null(place, nulls) {
            None
        } else {
            Some(text_at(place))
        };
        total += text.unwrap_or("").len();
        if total >= 1 << 31 {
            bail!("many bytes of texts");
        }
        values.push(text)?;
    }
    Ok(values)
}

fn text_at(place: u32) -> &'static str {
    match place % 4 {
        0 => "a",
        1 => "",
        2 => "é€",
        _ => "xyz",
    }
}
