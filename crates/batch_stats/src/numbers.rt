//! The statistics of columns of numbers.

ghost use Rattle.std.specs.Prelude.{◌≡◌, ◌≤◌, ◌<◌, ◌+◌, ◌*◌, ℕ, length, true, None, Some};
ghost use Rattle.scan_base.specs.declared.value.Value.TheVariants.{Int};
ghost use Rattle.arrays.specs.Column.{ColumnAt};
ghost use Rattle.arrays.specs.Number.{element_at};
ghost use Rattle.arrays.specs.Validity.{where_valid, HasBits};
ghost use Rattle.arrays.specs.declared.layout.Layout.TheVariants.{Integers as IntegersLayout};
ghost use Rattle.arrays.specs.declared.layout.Layout.TheVariants.{Decimals as DecimalsLayout};
ghost use Rattle.batch_stats.specs.HeldStats.{ends_held, AreSlots, IsStatsOf};
ghost use Rattle.batch_stats.specs.Stats.{with_value};
ghost use Rattle.batch_stats.specs.inside.Slots.{ends_with};

use crate::stats::Stats;
use crate::validity::first_valid;
use arrays::{Decimals, Element, Integer, Integers, Validity};
use arrow_types::IntegerType;

// How many slots are looked at together, where there are bits.
const BLOCK_LEN: usize = 64;

/// Packed numbers in slots, and which of the slots are valid.
#[derive(Clone, Copy, Drop)]
pub(crate) struct PackedNumbers<'a> {
    pub(crate) values: &'a [u8],
    pub(crate) validity: &'a Validity,
}

/// The least and the greatest of some numbers.
#[derive(Clone, Copy, Drop)]
pub(crate) struct NumberRange<E> {
    pub(crate) least: E,
    pub(crate) greatest: E,
}

impl<E: Element> NumberRange<E> {
    // The same with one number more.
    fn with(self, number: E) -> NumberRange<E>
        ensures { Some (Int (E.value result.least), Int (E.value result.greatest))
            ≡ with_value (Some (Int (E.value self.least), Int (E.value self.greatest)))
            (Int (E.value number)) }
    {
        NumberRange {
            least: if number < self.least {
                number
            } else {
                self.least
            },
            greatest: if self.greatest < number {
                number
            } else {
                self.greatest
            },
        }
    }

    // Whether a number lies between, and so changes no end.
    fn has(self, number: E) -> bool
        ensures { result ≡ true →
            with_value (Some (Int (E.value self.least), Int (E.value self.greatest)))
            (Int (E.value number)) ≡ Some (Int (E.value self.least), Int (E.value self.greatest)) }
    {
        !(number < self.least) && !(self.greatest < number)
    }

    // The same with the numbers `from` up to, not with, `to`.
    fn with_all(self, values: &[u8], from: usize, to: usize) -> NumberRange<E>
        requires { E.WIDTH * to ≤ length values.now }
        ensures { Some (Int (E.value result.least), Int (E.value result.greatest))
            ≡ ends_with (Some (Int (E.value self.least), Int (E.value self.greatest)))
            (λ place. Int (E.value (E.of_bits (element_at E.WIDTH values.now place)))) from to }
    {
        let mut range = self;
        for place in from..to {
            range = range.with(E::read(values, place));
        }
        range
    }

    // How many of the numbers `from` up to, not with, `to` do not lie between. It reads each.
    fn count_outside(self, values: &[u8], from: usize, to: usize) -> usize
        requires { E.WIDTH * to ≤ length values.now }
        ensures { result ≡ 0 → (place : ℕ) → from ≤ place → place < to →
            with_value (Some (Int (E.value self.least), Int (E.value self.greatest)))
            (Int (E.value (E.of_bits (element_at E.WIDTH values.now place))))
            ≡ Some (Int (E.value self.least), Int (E.value self.greatest)) }
    {
        let mut outside = 0;
        for place in from..to {
            outside += !self.has(E::read(values, place)) as usize;
        }
        outside
    }

    // The same with those that are valid, one after another. Only of a number that changes an end,
    // its bit is looked at.
    fn with_each_valid(self, packed: &PackedNumbers<'_>, from: usize, to: usize) -> NumberRange<E>
        requires room { E.WIDTH * to ≤ length packed.now.values.now }
        requires bits { HasBits packed.now.validity.now to }
        ensures { Some (Int (E.value result.least), Int (E.value result.greatest))
            ≡ ends_with (Some (Int (E.value self.least), Int (E.value self.greatest)))
            (where_valid packed.now.validity.now (λ place.
            Int (E.value (E.of_bits (element_at E.WIDTH packed.now.values.now place))))) from to }
    {
        let mut range = self;
        for place in from..to {
            let number = E::read(packed.values, place);
            if !range.has(number) && packed.validity.is_valid(place) {
                range = range.with(number);
            }
        }
        range
    }

    // The same of a block of slots. In most blocks no number changes an end, and so no bit is
    // looked at.
    fn with_block(self, packed: &PackedNumbers<'_>, from: usize, to: usize) -> NumberRange<E>
        requires room { E.WIDTH * to ≤ length packed.now.values.now }
        requires bits { HasBits packed.now.validity.now to }
        ensures { Some (Int (E.value result.least), Int (E.value result.greatest))
            ≡ ends_with (Some (Int (E.value self.least), Int (E.value self.greatest)))
            (where_valid packed.now.validity.now (λ place.
            Int (E.value (E.of_bits (element_at E.WIDTH packed.now.values.now place))))) from to }
    {
        if self.count_outside(packed.values, from, to) == 0 {
            return self;
        }
        self.with_each_valid(packed, from, to)
    }

    // The same of all blocks.
    fn with_valid(self, packed: &PackedNumbers<'_>, from: usize, to: usize) -> NumberRange<E>
        requires room { E.WIDTH * to ≤ length packed.now.values.now }
        requires bits { HasBits packed.now.validity.now to }
        ensures { Some (Int (E.value result.least), Int (E.value result.greatest))
            ≡ ends_with (Some (Int (E.value self.least), Int (E.value self.greatest)))
            (where_valid packed.now.validity.now (λ place.
            Int (E.value (E.of_bits (element_at E.WIDTH packed.now.values.now place))))) from to }
    {
        let blocks = to.saturating_sub(from) / BLOCK_LEN;
        let mut range = self;
        for block in 0..blocks {
            let start = from + BLOCK_LEN * block;
            range = range.with_block(packed, start, start + BLOCK_LEN);
        }
        range.with_each_valid(packed, from + BLOCK_LEN * blocks, to)
    }

    // The same: without a test of each slot, where there are no bits.
    fn with_slots(self, packed: &PackedNumbers<'_>, from: usize, to: usize) -> NumberRange<E>
        requires room { E.WIDTH * to ≤ length packed.now.values.now }
        requires bits { HasBits packed.now.validity.now to }
        ensures { Some (Int (E.value result.least), Int (E.value result.greatest))
            ≡ ends_with (Some (Int (E.value self.least), Int (E.value self.greatest)))
            (where_valid packed.now.validity.now (λ place.
            Int (E.value (E.of_bits (element_at E.WIDTH packed.now.values.now place))))) from to }
    {
        match packed.validity.bits() {
            None => self.with_all(packed.values, from, to),
            Some(_) => self.with_valid(packed, from, to),
        }
    }
}

// The statistics of the slots `from` up to, not with, `to`.
fn numbers_stats<E: Element>(packed: &PackedNumbers<'_>, from: usize, to: usize) -> Stats
    requires ordered { from ≤ to }
    requires room { E.WIDTH * to ≤ length packed.now.values.now }
    requires bits { HasBits packed.now.validity.now to }
    ensures ends { (column : ColumnAt) → ends_held column result ≡ ends_with None
        (where_valid packed.now.validity.now
        (λ place. Int (E.value (E.of_bits (element_at E.WIDTH packed.now.values.now place))))) from
        to }
    ensures slots { (column : ColumnAt) → AreSlots column result }
{
    let Some(start) = first_valid(packed.validity, from, to) else {
        return Stats::Nulls;
    };
    let number = E::read(packed.values, start);
    let one = NumberRange {
        least: number,
        greatest: number,
    };
    let range = one.with_slots(packed, start + 1, to);
    Stats::Numbers {
        least: range.least.wide(),
        greatest: range.greatest.wide(),
    }
}

// The statistics of `len` slots of integers of a type from `first` on.
fn typed_stats<E: Integer>(cells: &Integers<'_>, first: usize, len: usize) -> Stats
    requires kind { E.KIND ≡ (cells.now).integer }
    requires within { first + len ≤ (cells.now).len }
    ensures { IsStatsOf (record { layout = IntegersLayout cells.now; first = first; len = len })
        result }
{
    let _count = cells.len();
    let packed = PackedNumbers {
        values: cells.values(),
        validity: cells.validity(),
    };
    numbers_stats::<E>(&packed, first, first + len)
}

/// The statistics of `len` slots of integers from `first` on.
pub(crate) fn integers_stats(cells: &Integers<'_>, first: usize, len: usize) -> Stats
    requires { first + len ≤ (cells.now).len }
    ensures { IsStatsOf (record { layout = IntegersLayout cells.now; first = first; len = len })
        result }
{
    match cells.integer_type() {
        IntegerType::Int8 => typed_stats::<i8>(cells, first, len),
        IntegerType::Int16 => typed_stats::<i16>(cells, first, len),
        IntegerType::Int32 => typed_stats::<i32>(cells, first, len),
        IntegerType::Int64 => typed_stats::<i64>(cells, first, len),
        IntegerType::UInt8 => typed_stats::<u8>(cells, first, len),
        IntegerType::UInt16 => typed_stats::<u16>(cells, first, len),
        IntegerType::UInt32 => typed_stats::<u32>(cells, first, len),
        IntegerType::UInt64 => typed_stats::<u64>(cells, first, len),
    }
}

/// The statistics of `len` slots of decimals from `first` on.
pub(crate) fn decimals_stats(cells: &Decimals<'_>, first: usize, len: usize) -> Stats
    requires { first + len ≤ (cells.now).len }
    ensures { IsStatsOf (record { layout = DecimalsLayout cells.now; first = first; len = len })
        result }
{
    let _count = cells.len();
    let packed = PackedNumbers {
        values: cells.values(),
        validity: cells.validity(),
    };
    numbers_stats::<i128>(&packed, first, first + len)
}
