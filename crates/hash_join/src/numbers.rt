//! The numbers that are right keys, one by one.

ghost use Rattle.std.specs.Prelude.{◌≡◌, ◌≤◌, ◌<◌, ◌^◌, All, IsTrue, length, nat_lt};
ghost use Rattle.std.specs.List.{list_all};
ghost use Rattle.arrays.specs.Batch.{BatchAt};

use arrays::{Batch, Cells, Column, Integer, Integers, Layout};
use arrow_types::IntegerType;

// What takes numbers in.
pub(crate) trait TakesNumbers {
    fn take(&mut self, number: i128);
}

// Slots of integers, from one up to, not with, another.
#[derive(Drop)]
struct NumberSlots<'a> {
    cells: Integers<'a>,
    from: usize,
    to: usize,
    ghost within: { to ≤ cells.len },
}

// Gives the keys of a batch, without nulls, to a taker; false where these are no integers.
pub(crate) fn take_numbers<T: TakesNumbers>(batch: &Batch, key: &[usize], taker: &mut T) -> bool
    requires there { IsTrue
        (list_all (λ column. nat_lt column (length batch.now.columns)) key.now) }
    requires single { length key.now ≡ 1 }
{
    match slots_of(key_column(batch, key)) {
        None => false,
        Some(slots) => {
            slots.give(taker);
            true
        }
    }
}

// Whether the keys of these batches are integers of one column.
pub(crate) fn are_numbers(batches: &[Batch], key: &[usize]) -> bool
    requires { All (λ (batch : BatchAt).
        IsTrue (list_all (λ column. nat_lt column (length batch.columns)) key.now)) batches.now }
{
    if key.len() != 1 {
        return false;
    }
    for batch in batches {
        if slots_of(key_column(batch, key)).is_none() {
            return false;
        }
    }
    true
}

// The column that is the key.
fn key_column<'a>(batch: &'a Batch, key: &[usize]) -> &'a Column
    requires there { IsTrue
        (list_all (λ column. nat_lt column (length batch.now.columns)) key.now) }
    requires single { length key.now ≡ 1 }
{
    let columns = batch.columns();
    &columns[key[0]]
}

// The slots of a column of integers.
fn slots_of(column: &Column) -> Option<NumberSlots<'_>> {
    let from = column.first();
    let to = from + column.len();
    match column.layout() {
        Layout::Integers(cells) => Some(NumberSlots { cells, from, to }),
        _ => None,
    }
}

impl<'a> NumberSlots<'a> {
    fn give<T: TakesNumbers>(&self, taker: &mut T) {
        match self.cells.integer_type() {
            IntegerType::Int8 => self.give_as::<i8, T>(taker),
            IntegerType::Int16 => self.give_as::<i16, T>(taker),
            IntegerType::Int32 => self.give_as::<i32, T>(taker),
            IntegerType::Int64 => self.give_as::<i64, T>(taker),
            IntegerType::UInt8 => self.give_as::<u8, T>(taker),
            IntegerType::UInt16 => self.give_as::<u16, T>(taker),
            IntegerType::UInt32 => self.give_as::<u32, T>(taker),
            IntegerType::UInt64 => self.give_as::<u64, T>(taker),
        }
    }

    fn give_as<E: Integer, T: TakesNumbers>(&self, taker: &mut T)
        requires { E.KIND ≡ (self.now).cells.integer }
    {
        let _count = self.cells.len();
        let values = self.cells.values();
        let validity = self.cells.validity();
        for place in self.from..self.to {
            if validity.is_valid(place) {
                taker.take(E::number_at(values, place));
            }
        }
    }
}
