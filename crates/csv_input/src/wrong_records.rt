//! The first record that is wrong.

ghost use Rattle.std.specs.Prelude.{◌<◌, ℕ, IfErr, IfOk, MatchOption, length};
ghost use Rattle.csv.specs.Records.{fields_of};
ghost use Rattle.csv_input.specs.Long.{WhyNoneTold};
ghost use Rattle.csv_input.specs.Rows.{FindsWrong, IsRight, IsWrong, IsWrongCell, SaysCell};

use crate::outcome::{RecordFault, WrongRecord};
use arrow_types::Field;
use csv::ByteRecord;
use csv_columns::{Records, cell_in, field_in};
use scan_base::Fault;
use std::alloc::Global;

// As many records as are counted.
const MOST_RECORDS: usize = 9_223_372_036_854_775_808;

// The first column whose field in a record says no value of it.
fn wrong_cell(columns: &[Field], fields: &ByteRecord) -> Option<usize>
    ensures { MatchOption result
        ((k : ℕ) → k < length columns.now → SaysCell columns.now (fields_of fields.now) k)
        (IsWrongCell columns.now (fields_of fields.now)) }
{
    for (number, column) in columns.iter().enumerate() {
        if cell_in(column, field_in(fields, number)).is_none() {
            return Some(number);
        }
    }
    None
}

// What is wrong with a record first.
fn wrong_in(columns: &[Field], fields: &ByteRecord) -> Option<RecordFault>
    ensures { MatchOption result (IsRight columns.now (fields_of fields.now))
        (IsWrong columns.now (fields_of fields.now)) }
{
    let count = fields.len();
    if count != columns.len() {
        return Some(RecordFault::Fields(count));
    }
    match wrong_cell(columns, fields) {
        Some(place) => Some(RecordFault::Cell(place)),
        None => None,
    }
}

/// The first of all records that are left which says no row of these columns, and what is wrong
/// with it first. No value is kept: memory holds one record.
///
/// # Errors
///
/// `Fault::OutOfMemory` (F21) where memory is refused, and `Fault::LimitReached` (F12) where there
/// are more than 2 to the 63 records.
pub fn first_wrong(
    alloc: Global,
    columns: &[Field],
    records: &mut Records<'_>,
) -> Result<Option<WrongRecord>, Fault>
    ensures finds { IfOk result (FindsWrong columns.now records.old) }
    ensures refused { IfErr result (WhyNoneTold columns.now records.old) }
{
    let mut fields = ByteRecord::new(alloc);
    let mut before = 0;
    while records.next(&mut fields)? {
        if let Some(wrong) = wrong_in(columns, &fields) {
            return Ok(Some(WrongRecord { before, wrong }));
        }
        if before == MOST_RECORDS {
            return Err(Fault::LimitReached);
        }
        before += 1;
    }
    Ok(None)
}
