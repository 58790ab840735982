//! Saying what is wrong with a record.

ghost use Rattle.std.specs.Prelude.{◌≡◌, ◌<◌, ◌+◌, ◌++◌, ◌^◌, codes, IfOk, string_bytes};
ghost use Rattle.std.specs.Fmt.{decimal};
ghost use Rattle.csv_input.specs.Lines.{cell_words, head_rows, length_words, wrong_line};

use crate::{RecordFault, WrongRecord};
use arrow_types::Field;
use std::alloc::{AllocError, Global};

// How many records stand before those that say rows.
fn head_rows(header: bool) -> usize
    ensures { result ≡ head_rows header }
{
    if header { 1 } else { 0 }
}

// What is said of a record with so many fields.
fn length_words(
    alloc: Global,
    number: usize,
    count: usize,
    columns: usize,
) -> Result<String, AllocError>
    ensures { IfOk result (λ line. string_bytes line ≡ length_words number count columns) }
{
    format!(in alloc; "fault: record {number} has {count} fields in place of {columns}\n")
}

// What is said of a field that says no value of its column.
fn cell_words(alloc: Global, number: usize, name: &str) -> Result<String, AllocError>
    ensures { IfOk result (λ line. string_bytes line ≡ cell_words number name.now) }
{
    format!(in alloc; "fault: record {number}: no value of column {name}\n")
}

/// The line that says which record is wrong, counted from 1 with the one of names, and what is
/// wrong with it first.
///
/// # Errors
///
/// `AllocError` where memory is refused.
pub(crate) fn wrong_line(
    alloc: Global,
    columns: &[Field],
    header: bool,
    wrong: WrongRecord,
) -> Result<String, AllocError>
    ensures { wrong.before < 2 ^ 63 →
        IfOk result (λ line. string_bytes line ≡ wrong_line columns.now header wrong) }
{
    let number = wrong.before.saturating_add(head_rows(header) + 1);
    match wrong.wrong {
        RecordFault::Fields(count) => length_words(alloc, number, count, columns.len()),
        RecordFault::Cell(place) => match columns.get(place) {
            Some(column) => cell_words(alloc, number, column.name.as_str()),
            None => cell_words(alloc, number, ""),
        },
    }
}
