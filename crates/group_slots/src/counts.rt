//! Counts of rows and of values, for each group.

ghost use Rattle.std.specs.Prelude.{◌≡◌, ◌≤◌, ◌<◌, ◌+◌, All, length};
ghost use Rattle.scan_base.specs.Limits.{most_rows};
ghost use Rattle.typed_plan.specs.declared.plan.Aggregate.TheVariants.{CountRows as CountAll};
ghost use Rattle.typed_plan.specs.declared.plan.Aggregate.TheVariants.{Count as CountOf};
ghost use Rattle.scan_base.specs.Predicate.{cell_in};
ghost use Rattle.arrays.specs.Batch.{row_of};
ghost use Rattle.group_slots.specs.Counting.{AreWithin, CanCount, stepped};
ghost use Rattle.group_slots.specs.HeldTallies.{count_tally, count_tallies};
ghost use Rattle.group_slots.specs.Tallies.{counted};
ghost use Rattle.group_slots.specs.ValidBits.{AreValid};

use crate::row_groups::RowGroups;
use arrays::{Batch, Cells, Nulls};
use bitmap::Bits;
use scan_base::ValueRef;

/// Counts each row in its group.
pub(crate) fn count_rows(counts: &mut [u64], part: &RowGroups<'_>)
    requires grouped { All (λ group. group < length counts.old) part.now.groups.now }
    requires long { length part.now.groups.now ≡ length part.now.rows.now }
    requires few { part.now.fed + length part.now.rows.now ≤ most_rows }
    requires small { AreWithin part.now.fed (count_tallies counts.old) }
    ensures stepped { count_tallies counts.new
        ≡ stepped CountAll part.now.batch.now.columns part.now.groups.now part.now.rows.now
        (count_tallies counts.old) (length part.now.rows.now) }
    ensures small { AreWithin (part.now.fed + length part.now.rows.now) (count_tallies counts.new) }
{
    for k in 0..part.rows.len() {
        let group = part.groups[k] as usize;
        counts[group] += 1;
    }
}

/// Counts each value of a column in the group of its row. Where bits say which rows have one, no
/// value is looked at.
pub(crate) fn count_values(counts: &mut [u64], column: usize, part: &RowGroups<'_>)
    requires there { CanCount (CountOf column) part.now.batch.now.columns }
    requires within { All (λ row. row < part.now.batch.now.rows) part.now.rows.now }
    requires grouped { All (λ group. group < length counts.old) part.now.groups.now }
    requires long { length part.now.groups.now ≡ length part.now.rows.now }
    requires few { part.now.fed + length part.now.rows.now ≤ most_rows }
    requires small { AreWithin part.now.fed (count_tallies counts.old) }
    ensures stepped { count_tallies counts.new
        ≡ stepped (CountOf column) part.now.batch.now.columns part.now.groups.now part.now.rows.now
        (count_tallies counts.old) (length part.now.rows.now) }
    ensures small { AreWithin (part.now.fed + length part.now.rows.now) (count_tallies counts.new) }
{
    let cells = &part.batch.columns()[column];
    let _count = cells.len();
    match cells.slots().nulls() {
        Nulls::AtZeros(bits) => {
            let valid = ValidBits {
                bits,
                first: cells.first(),
            };
            count_valid(counts, column, &valid, part)
        }
        _ => count_each(counts, column, part),
    }
}

// Bits that say which rows of a column have a value, and the place of that of the first row.
#[derive(Clone, Copy, Drop)]
struct ValidBits<'a> {
    bits: &'a Bits,
    first: usize,
}

// The same, where bits say which rows have a value.
fn count_valid(counts: &mut [u64], column: usize, valid: &ValidBits<'_>, part: &RowGroups<'_>)
    requires there { CanCount (CountOf column) part.now.batch.now.columns }
    requires bits { AreValid valid.now column part.now.batch.now }
    requires within { All (λ row. row < part.now.batch.now.rows) part.now.rows.now }
    requires grouped { All (λ group. group < length counts.old) part.now.groups.now }
    requires long { length part.now.groups.now ≡ length part.now.rows.now }
    requires few { part.now.fed + length part.now.rows.now ≤ most_rows }
    requires small { AreWithin part.now.fed (count_tallies counts.old) }
    ensures stepped { count_tallies counts.new
        ≡ stepped (CountOf column) part.now.batch.now.columns part.now.groups.now part.now.rows.now
        (count_tallies counts.old) (length part.now.rows.now) }
    ensures small { AreWithin (part.now.fed + length part.now.rows.now) (count_tallies counts.new) }
{
    for k in 0..part.rows.len() {
        let group = part.groups[k] as usize;
        counts[group] += valid_count(valid, column, part.batch, part.rows[k] as usize);
    }
}

// How many values a row has in a column: one, or none where its bit is 0.
fn valid_count(valid: &ValidBits<'_>, column: usize, batch: &Batch, row: usize) -> u64
    requires bits { AreValid valid.now column batch.now }
    requires within { row < batch.now.rows }
    ensures counted { counted (count_tally 0) (cell_in (row_of batch.now.columns row) column)
        ≡ count_tally result }
    ensures one { result ≤ 1 }
{
    let _rows = batch.rows();
    if valid.bits.get(valid.first + row) {
        1
    } else {
        0
    }
}

// The same, value by value.
fn count_each(counts: &mut [u64], column: usize, part: &RowGroups<'_>)
    requires there { CanCount (CountOf column) part.now.batch.now.columns }
    requires within { All (λ row. row < part.now.batch.now.rows) part.now.rows.now }
    requires grouped { All (λ group. group < length counts.old) part.now.groups.now }
    requires long { length part.now.groups.now ≡ length part.now.rows.now }
    requires few { part.now.fed + length part.now.rows.now ≤ most_rows }
    requires small { AreWithin part.now.fed (count_tallies counts.old) }
    ensures stepped { count_tallies counts.new
        ≡ stepped (CountOf column) part.now.batch.now.columns part.now.groups.now part.now.rows.now
        (count_tallies counts.old) (length part.now.rows.now) }
    ensures small { AreWithin (part.now.fed + length part.now.rows.now) (count_tallies counts.new) }
{
    for k in 0..part.rows.len() {
        let group = part.groups[k] as usize;
        counts[group] += value_count(part.batch, column, part.rows[k] as usize);
    }
}

// How many values a row has in a column: one, or none where it is null.
fn value_count(batch: &Batch, column: usize, row: usize) -> u64
    requires there { column < length batch.now.columns }
    requires within { row < batch.now.rows }
    ensures counted { counted (count_tally 0) (cell_in (row_of batch.now.columns row) column)
        ≡ count_tally result }
    ensures one { result ≤ 1 }
{
    match batch.columns()[column].value_at(row) {
        ValueRef::Null => 0,
        _ => 1,
    }
}
