//! Tallies of groups.

ghost use Rattle.std.specs.Prelude.{◌≡◌, ◌≤◌, ◌<◌, ◌+◌, ◌+ℤ◌, IfSome};
ghost use Rattle.scan_base.specs.Limits.{most_rows};
ghost use Rattle.scan_base.specs.declared.value.Value.TheVariants as value;
ghost use Rattle.arrays.specs.Batch.{row_of};
ghost use Rattle.array_select.specs.ColumnValues.{value_or_null};
ghost use Rattle.arrays.specs.Column.{slot_of};
ghost use Rattle.group_slots.specs.Counting.{IsIntegers, IsShort};

use arrays::laws::values_are_of_their_type;
use arrays::{Batch, Cells, Column};
use scan_base::ValueRef;
use typed_plan::Aggregate;

/// What is kept of a group's rows for one item: how many rows or values it counts, and the sum of
/// the values.
#[derive(Clone, Copy, Drop)]
pub struct Tally {
    pub count: u64,
    pub sum: i128,
}

impl Tally {
    ghost use Rattle.group_slots.specs.Tallies.{no_rows, added, both, summed};
    ghost use Rattle.group_slots.specs.Slots.{number_or_null};
    ghost use Rattle.group_slots.specs.Counting.{IsSmall, IsShort, CanCount};
    ghost use Rattle.group_slots.specs.HeldTallies.{count_tally};

    /// Of no rows.
    pub(crate) fn new() -> Tally
        ensures { result ≡ no_rows }
    {
        Tally { count: 0, sum: 0 }
    }

    /// Of a count, and of no sum.
    pub(crate) fn of_count(count: u64) -> Tally
        ensures { result ≡ count_tally count }
    {
        Tally { count, sum: 0 }
    }

    /// With a row of a batch more.
    pub(crate) fn with_row(self, item: Aggregate, batch: &Batch, row: usize) -> Tally
        requires there { CanCount item batch.now.columns }
        requires within { row < batch.now.rows }
        requires few { self.count < most_rows }
        requires small { IsSmall self }
        ensures added { result ≡ added item self (row_of batch.now.columns row) }
        ensures few { result.count ≤ self.count + 1 }
        ensures small { IsSmall result }
    {
        match item {
            Aggregate::Key(_) => self,
            Aggregate::CountRows => self.with_number(0),
            Aggregate::Count(column) => match batch.columns()[column].value_at(row) {
                ValueRef::Null => self,
                _ => self.with_number(0),
            },
            Aggregate::Sum(column) => match integer_at(&batch.columns()[column], row) {
                None => self,
                Some(number) => self.with_number(number),
            },
        }
    }

    /// Adds a slot: its number counts where it is valid.
    pub(crate) fn add_slot(&mut self, valid: bool, number: i64)
        requires few { self.old.count < most_rows }
        requires small { IsSmall self.old }
        ensures added { self.new ≡ summed self.old (number_or_null valid number) }
        ensures few { self.new.count ≤ self.old.count + 1 }
    {
        if valid {
            self.count += 1;
            self.sum += i128::from(number);
        }
    }

    /// With the rows of another.
    pub fn with(self, other: Tally) -> Tally
        requires few { self.count + other.count ≤ most_rows }
        requires small { IsSmall self }
        requires other { IsSmall other }
        ensures both { result ≡ both self other }
        ensures small { IsSmall result }
    {
        Tally {
            count: self.count + other.count,
            sum: self.sum + other.sum,
        }
    }

    // With a number more.
    fn with_number(self, number: i128) -> Tally
        requires few { self.count < most_rows }
        requires small { IsSmall self }
        requires short { IsShort number }
        ensures added { result ≡ record { count = self.count + 1; sum = self.sum +ℤ number } }
        ensures small { IsSmall result }
    {
        Tally {
            count: self.count + 1,
            sum: self.sum + number,
        }
    }
}

// The number of a slot, if it is not null.
fn integer_at(column: &Column, place: usize) -> Option<i128>
    requires there { place < column.now.len }
    requires integers { IsIntegers column.now.layout }
    ensures value { value_or_null value.Int result ≡ slot_of column.now place }
    ensures short { IfSome result IsShort }
{
    let _len = column.len();
    values_are_of_their_type();
    match column.value_at(place) {
        ValueRef::Int(number) => Some(number),
        _ => None,
    }
}
