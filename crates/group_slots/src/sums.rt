//! Sums of a column, for each group.

ghost use Rattle.std.specs.Prelude.{◌≡◌, ◌≤◌, ◌<◌, ◌+◌, All, is_some, length};
ghost use Rattle.scan_base.specs.Limits.{most_rows};
ghost use Rattle.typed_plan.specs.declared.plan.Aggregate.TheVariants.{Sum as SumOf};
ghost use Rattle.group_slots.specs.Counting.{AreWithin, CanCount, stepped};
ghost use Rattle.group_slots.specs.Slots.{AreSlots};

use crate::partial_sums::{MOST_PIECES, blank_pieces, fill_pieces, join_pieces};
use crate::row_groups::{RowGroups, add_each};
use crate::slots::{IntegerSlots, MarkedValidity, Number, ValidRows, WholeValidity, integer_slots};
use crate::tally::Tally;
use arrays::{Cells, Layout};
use arrow_types::IntegerType;
use typed_plan::Aggregate;

// Of how many rows for each group sums are made in pieces.
const LEAST_ROWS: usize = 4;

/// Adds the number of each row to the tally of its group.
pub(crate) fn sum_rows(tallies: &mut [Tally], column: usize, part: &RowGroups<'_>)
    requires there { CanCount (SumOf column) part.now.batch.now.columns }
    requires within { All (λ row. row < part.now.batch.now.rows) part.now.rows.now }
    requires grouped { All (λ group. group < length tallies.old) part.now.groups.now }
    requires long { length part.now.groups.now ≡ length part.now.rows.now }
    requires few { part.now.fed + length part.now.rows.now ≤ most_rows }
    requires small { AreWithin part.now.fed tallies.old }
    ensures stepped { tallies.new ≡ stepped (SumOf column) part.now.batch.now.columns
        part.now.groups.now part.now.rows.now tallies.old (length part.now.rows.now) }
    ensures small { AreWithin (part.now.fed + length part.now.rows.now) tallies.new }
{
    let numbers = &part.batch.columns()[column];
    let _count = numbers.len();
    match numbers.layout() {
        Layout::Integers(cells) => sum_kind(tallies, column, &integer_slots(numbers, &cells), part),
        _ => add_each(tallies, Aggregate::Sum(column), part),
    }
}

// Adds the number of each row to the tally of its group, where these are the numbers of the column.
fn sum_kind(tallies: &mut [Tally], column: usize, slots: &IntegerSlots<'_>, part: &RowGroups<'_>)
    requires there { CanCount (SumOf column) part.now.batch.now.columns }
    requires slots { AreSlots slots.now column part.now.batch.now }
    requires within { All (λ row. row < part.now.batch.now.rows) part.now.rows.now }
    requires grouped { All (λ group. group < length tallies.old) part.now.groups.now }
    requires long { length part.now.groups.now ≡ length part.now.rows.now }
    requires few { part.now.fed + length part.now.rows.now ≤ most_rows }
    requires small { AreWithin part.now.fed tallies.old }
    ensures stepped { tallies.new ≡ stepped (SumOf column) part.now.batch.now.columns
        part.now.groups.now part.now.rows.now tallies.old (length part.now.rows.now) }
    ensures small { AreWithin (part.now.fed + length part.now.rows.now) tallies.new }
{
    match slots.kind {
        IntegerType::Int8 => sum_slots::<i8>(tallies, column, slots, part),
        IntegerType::Int16 => sum_slots::<i16>(tallies, column, slots, part),
        IntegerType::Int32 => sum_slots::<i32>(tallies, column, slots, part),
        IntegerType::Int64 => sum_slots::<i64>(tallies, column, slots, part),
        IntegerType::UInt8 => sum_slots::<u8>(tallies, column, slots, part),
        IntegerType::UInt16 => sum_slots::<u16>(tallies, column, slots, part),
        IntegerType::UInt32 => sum_slots::<u32>(tallies, column, slots, part),
        IntegerType::UInt64 => add_each(tallies, Aggregate::Sum(column), part),
    }
}

// Adds the number of each row to the tally of its group, where these are the numbers of the column,
// of a type.
fn sum_slots<N: Number>(
    tallies: &mut [Tally],
    column: usize,
    slots: &IntegerSlots<'_>,
    part: &RowGroups<'_>,
)
    requires kind { slots.now.kind ≡ N.kind }
    requires slots { AreSlots slots.now column part.now.batch.now }
    requires within { All (λ row. row < part.now.batch.now.rows) part.now.rows.now }
    requires grouped { All (λ group. group < length tallies.old) part.now.groups.now }
    requires long { length part.now.groups.now ≡ length part.now.rows.now }
    requires few { part.now.fed + length part.now.rows.now ≤ most_rows }
    requires small { AreWithin part.now.fed tallies.old }
    ensures stepped { tallies.new ≡ stepped (SumOf column) part.now.batch.now.columns
        part.now.groups.now part.now.rows.now tallies.old (length part.now.rows.now) }
    ensures small { AreWithin (part.now.fed + length part.now.rows.now) tallies.new }
{
    match slots.validity.bits() {
        None => sum_valid::<N, WholeValidity>(tallies, column, slots, part),
        Some(_) => sum_valid::<N, MarkedValidity>(tallies, column, slots, part),
    }
}

// The same, by which numbers are valid: in pieces, where each of few groups has some rows.
fn sum_valid<N: Number, V: ValidRows>(
    tallies: &mut [Tally],
    column: usize,
    slots: &IntegerSlots<'_>,
    part: &RowGroups<'_>,
)
    requires kind { slots.now.kind ≡ N.kind }
    requires marked { is_some slots.now.validity.now ≡ V.marked }
    requires slots { AreSlots slots.now column part.now.batch.now }
    requires within { All (λ row. row < part.now.batch.now.rows) part.now.rows.now }
    requires grouped { All (λ group. group < length tallies.old) part.now.groups.now }
    requires long { length part.now.groups.now ≡ length part.now.rows.now }
    requires few { part.now.fed + length part.now.rows.now ≤ most_rows }
    requires small { AreWithin part.now.fed tallies.old }
    ensures stepped { tallies.new ≡ stepped (SumOf column) part.now.batch.now.columns
        part.now.groups.now part.now.rows.now tallies.old (length part.now.rows.now) }
    ensures small { AreWithin (part.now.fed + length part.now.rows.now) tallies.new }
{
    if tallies.len() <= MOST_PIECES && tallies.len() <= part.rows.len() / LEAST_ROWS {
        return sum_in_pieces::<N, V>(tallies, column, slots, part);
    }
    sum_each::<N, V>(tallies, column, slots, part)
}

// The same in pieces, of few groups. The table of pieces is large, so that it stays out of its
// callers.
#[inline(never)]
fn sum_in_pieces<N: Number, V: ValidRows>(
    tallies: &mut [Tally],
    column: usize,
    slots: &IntegerSlots<'_>,
    part: &RowGroups<'_>,
)
    requires groups { length tallies.old ≤ 1024 }
    requires kind { slots.now.kind ≡ N.kind }
    requires marked { is_some slots.now.validity.now ≡ V.marked }
    requires slots { AreSlots slots.now column part.now.batch.now }
    requires within { All (λ row. row < part.now.batch.now.rows) part.now.rows.now }
    requires grouped { All (λ group. group < length tallies.old) part.now.groups.now }
    requires long { length part.now.groups.now ≡ length part.now.rows.now }
    requires few { part.now.fed + length part.now.rows.now ≤ most_rows }
    requires small { AreWithin part.now.fed tallies.old }
    ensures stepped { tallies.new ≡ stepped (SumOf column) part.now.batch.now.columns
        part.now.groups.now part.now.rows.now tallies.old (length part.now.rows.now) }
    ensures small { AreWithin (part.now.fed + length part.now.rows.now) tallies.new }
{
    let mut blank = blank_pieces();
    let pieces = &mut blank[..tallies.len()];
    if !fill_pieces::<N, V>(pieces, column, slots, part) {
        return sum_each::<N, V>(tallies, column, slots, part);
    }
    join_pieces(tallies, pieces);
}

// The same, tally by tally.
fn sum_each<N: Number, V: ValidRows>(
    tallies: &mut [Tally],
    column: usize,
    slots: &IntegerSlots<'_>,
    part: &RowGroups<'_>,
)
    requires kind { slots.now.kind ≡ N.kind }
    requires marked { is_some slots.now.validity.now ≡ V.marked }
    requires slots { AreSlots slots.now column part.now.batch.now }
    requires within { All (λ row. row < part.now.batch.now.rows) part.now.rows.now }
    requires grouped { All (λ group. group < length tallies.old) part.now.groups.now }
    requires long { length part.now.groups.now ≡ length part.now.rows.now }
    requires few { part.now.fed + length part.now.rows.now ≤ most_rows }
    requires small { AreWithin part.now.fed tallies.old }
    ensures stepped { tallies.new ≡ stepped (SumOf column) part.now.batch.now.columns
        part.now.groups.now part.now.rows.now tallies.old (length part.now.rows.now) }
    ensures small { AreWithin (part.now.fed + length part.now.rows.now) tallies.new }
{
    for k in 0..part.rows.len() {
        let row = part.rows[k] as usize;
        let valid = V::is_valid(slots, row);
        let number = slots.number::<N>(row);
        let group = part.groups[k] as usize;
        tallies[group].add_slot(valid, number);
    }
}
