//! Reading spelled columns.

ghost use Rattle.std.specs.Prelude.{◌≡◌, ◌≢◌, ◌<◌, ℕ, None, All, IfErr, IfOk, MatchOption, ◌++◌};
ghost use Rattle.std.specs.Prelude.{◌∷◌, [], drop, length, take, slice_index};
ghost use Rattle.csv.specs.Records.{fields_of, trimmed};
ghost use Rattle.arrow_types.specs.Schema.{IsField, IsSchema};
ghost use Rattle.arrow_types.specs.DataType.{encoding_of};
ghost use Rattle.csv_columns.specs.TextRecords.{records_in};
ghost use Rattle.csv_columns.specs.Refusals.{WhyNoColumn, WhyNoColumns, WhyNoFields};
ghost use Rattle.csv_columns.specs.SpelledColumns.{AreSpelledAs, Spells, mark_of, spelled};
ghost use Rattle.csv_columns.specs.inside.Marks.{IsUnmarked};

use crate::name::name_of;
use crate::word::type_named;
use crate::{Records, field_in};
use arrow_types::{Field, MAX_COLUMNS, Schema};
use csv::ByteRecord;
use scan_base::{Fault, Items};
use std::alloc::Global;

// The place of the last colon.
fn last_colon(text: &[u8]) -> Option<usize>
    ensures { MatchOption result
        ((k : ℕ) → k < length text.now → slice_index text.now k ≢ 58)
        (λ at. (at < length text.now) × (slice_index text.now at ≡ 58)
        × ((k : ℕ) → at < k → k < length text.now → slice_index text.now k ≢ 58)) }
{
    text.iter().rposition(|byte| *byte == b':')
}

// A text without its mark, and whether it had one.
fn unmarked(text: &[u8]) -> (&[u8], bool)
    ensures text { text.now ≡ result.0.now ++ mark_of result.1 }
    ensures marked { IsUnmarked result.1 text.now }
{
    match text.strip_suffix(b"?") {
        Some(front) => (front, true),
        None => (text, false),
    }
}

// The column that a text spells.
fn column_in(alloc: Global, text: &[u8]) -> Result<Field, Fault>
    ensures spelled { IfOk result (λ column. spelled column ≡ text.now) }
    ensures named { IfOk result IsField }
    ensures plain { IfOk result (λ column. encoding_of column.data_type ≡ None) }
    ensures refused { IfErr result (WhyNoColumn text.now) }
{
    let (front, nullable) = unmarked(text);
    let Some(at) = last_colon(front) else {
        return Err(Fault::BadBatch);
    };
    let Some(data_type) = type_named(&front[at + 1..]) else {
        return Err(Fault::BadBatch);
    };
    let name = name_of(alloc, &front[..at])?;
    Ok(Field {
        name,
        nullable,
        data_type,
    })
}

// The columns that the fields of a record spell.
fn fields_in(alloc: Global, spellings: &ByteRecord) -> Result<Items<Field>, Fault>
    ensures spelled { IfOk result (λ columns. AreSpelledAs (fields_of spellings.now) columns) }
    ensures named { IfOk result (λ columns. All IsField columns) }
    ensures plain { IfOk result
        (λ columns. All (λ column. encoding_of column.data_type ≡ None) columns) }
    ensures refused { IfErr result (WhyNoFields (fields_of spellings.now)) }
{
    let mut columns = Items::new(alloc);
    for place in 0..spellings.len() {
        let column = column_in(alloc, field_in(spellings, place))?;
        columns.push(column)?;
    }
    Ok(columns)
}

/// The columns that a text spells.
///
/// # Errors
///
/// - `Fault::LimitReached` (F12) where its first record has more than 64 fields, or a name has more
///   than 64 bytes.
/// - `Fault::BadBatch` (F8) where it spells no columns.
/// - `Fault::OutOfMemory` (F21) where memory is refused.
pub fn columns_in(alloc: Global, text: &[u8]) -> Result<Schema, Fault>
    ensures spelled { IfOk result (Spells (records_in text.now)) }
    ensures schema { IfOk result IsSchema }
    ensures plain { IfOk result
        (λ schema. All (λ column. encoding_of column.data_type ≡ None) schema.fields) }
    ensures refused { IfErr result (WhyNoColumns (records_in text.now)) }
{
    let mut records = Records::new(alloc, text);
    let mut spellings = ByteRecord::new(alloc);
    if !records.next(&mut spellings)? {
        return Err(Fault::BadBatch);
    }
    let count = spellings.len();
    if count == 0 {
        return Err(Fault::BadBatch);
    }
    if count > MAX_COLUMNS {
        return Err(Fault::LimitReached);
    }
    let mut others = ByteRecord::new(alloc);
    if records.next(&mut others)? {
        return Err(Fault::BadBatch);
    }
    spellings.trim()?;
    Ok(Schema {
        fields: fields_in(alloc, &spellings)?,
    })
}
