//! Columns that are compared with each other: 64 numbers or truth values at once, and other values
//! one after another.

ghost use Rattle.std.specs.Prelude.{◌≡◌, ◌≤◌, ◌<◌, ◌+◌, ◌*◌, ◌^◌, ℕ, pos, int_lt};
ghost use Rattle.std.specs.Prelude.{length, get_or, IfSome};
ghost use Rattle.std.specs.Ordering.{int_cmp, int_eq};
ghost use Rattle.scan_base.specs.Comparison.{compared, satisfies};
ghost use Rattle.arrays.specs.Column.{slot_of};
ghost use Rattle.arrays.specs.Number.{element_at, integer_at};
ghost use Rattle.kernels.specs.Pairs.{HasNumbers};
ghost use Rattle.kernels.specs.Parts.{IsPart};
ghost use Rattle.kernels.specs.Words.{bit, HasTruths};

use crate::column_part::ColumnPart;
use crate::flag_pairs::{compared_bits, flag_word};
use crate::kernel::{Kernel, SlotTruths, slot_by_slot};
use crate::pack::pack;
use crate::word::Word;
use arrays::{Cells, Column, Element, Integer, Integers, Layout};
use arrow_types::IntegerType;
use scan_base::{Comparison, Truth};
use std::simd::prelude::*;
use std::simd::u8x64;

/// Two columns; each slot of the one is compared with that of the same row of the other.
#[derive(Clone, Copy, Drop)]
pub(crate) struct Pairs<'a> {
    pub(crate) left: &'a Column,
    pub(crate) right: &'a Column,
    pub(crate) comparison: Comparison,
    pub(crate) count: usize,
    ghost lefts: { count ≤ left.now.len },
    ghost rights: { count ≤ right.now.len },
}

impl<'a> SlotTruths for Pairs<'a> {
    ghost use Rattle.scan_base.specs.Comparison.{compared};
    ghost use Rattle.arrays.specs.Column.{slot_of};

    ghost count = { λ s. s.count };

    ghost truth = { λ s row. compared s.comparison (slot_of s.left.now row)
        (slot_of s.right.now row) };

    fn truth(&self, place: usize) -> Truth {
        let _count = self.count;
        let left = self.left.value_at(place);
        left.compare(self.comparison, self.right.value_at(place))
    }
}

impl<'a> Kernel for Pairs<'a> {
    type Cell = i128;

    fn word(&self, from: usize) -> Word {
        let _count = self.count;
        let mut lefts = [0i128; 64];
        let mut rights = [0i128; 64];
        let Some(left) = fill_numbers(self.left, from, &mut lefts) else {
            return self.other_word(from);
        };
        let Some(right) = fill_numbers(self.right, from, &mut rights) else {
            return self.other_word(from);
        };
        Word {
            truths: compared_block(self.comparison, &lefts, &rights),
            knowns: left & right,
        }
    }
}

impl<'a> Pairs<'a> {
    // The truths of the 64 slots from `from` on, where not both columns hold numbers: of truth
    // values by words, and of others one by one.
    fn other_word(&self, from: usize) -> Word
        requires { from + 64 ≤ self.now.count }
        ensures { HasTruths (λ row. compared self.now.comparison (slot_of self.now.left.now row)
            (slot_of self.now.right.now row)) from 64 result }
    {
        let _count = self.count;
        match (flag_word(self.left, from), flag_word(self.right, from)) {
            (Some(left), Some(right)) => Word {
                truths: compared_bits(self.comparison, left.truths, right.truths),
                knowns: left.knowns & right.knowns,
            },
            _ => slot_by_slot(self, from, 64),
        }
    }
}

/// The slots of two columns in the same rows.
pub(crate) fn pairs_of<'a>(
    comparison: Comparison,
    left: &ColumnPart<'a>,
    right: &ColumnPart<'a>,
) -> Pairs<'a>
    requires left { IsPart left.now }
    requires right { IsPart right.now }
    requires from { left.now.from ≡ right.now.from }
    requires len { left.now.len ≡ right.now.len }
    ensures left { result.left.now ≡ left.now.column.now }
    ensures right { result.right.now ≡ right.now.column.now }
    ensures comparison { result.comparison ≡ comparison }
    ensures count { result.count ≡ left.now.from + left.now.len }
{
    let _len = left.column.len();
    Pairs {
        left: left.column,
        right: right.column,
        comparison,
        count: left.from + left.len,
    }
}

// The numbers of 64 slots from `from` on, and a bit for each that is not null; none of a column of
// other values.
fn fill_numbers(column: &Column, from: usize, block: &mut [i128; 64]) -> Option<u64>
    requires { from + 64 ≤ column.now.len }
    ensures { IfSome result (λ knowns. HasNumbers column.now from block.new knowns) }
{
    let _len = column.len();
    let first = column.first() + from;
    match column.layout() {
        Layout::Integers(cells) => {
            let _count = cells.len();
            fill_integers(&cells, first, block);
            Some(cells.validity().valid_word(first))
        }
        Layout::Decimals(cells) => {
            let _count = column.slots().len();
            fill_cells::<i128>(cells.values(), first, block);
            Some(cells.validity().valid_word(first))
        }
        _ => None,
    }
}

// The integers of 64 slots from `first` on.
fn fill_integers(cells: &Integers<'_>, first: usize, block: &mut [i128; 64])
    requires { first + 64 ≤ (cells.now).len }
    ensures { (row : ℕ) → row < 64 → get_or block.new row (pos 0)
        ≡ integer_at (cells.now).integer (cells.now).values (first + row) }
{
    match cells.integer_type() {
        IntegerType::Int8 => fill_typed::<i8>(cells, first, block),
        IntegerType::Int16 => fill_typed::<i16>(cells, first, block),
        IntegerType::Int32 => fill_typed::<i32>(cells, first, block),
        IntegerType::Int64 => fill_typed::<i64>(cells, first, block),
        IntegerType::UInt8 => fill_typed::<u8>(cells, first, block),
        IntegerType::UInt16 => fill_typed::<u16>(cells, first, block),
        IntegerType::UInt32 => fill_typed::<u32>(cells, first, block),
        IntegerType::UInt64 => fill_typed::<u64>(cells, first, block),
    }
}

// The integers of a type of 64 slots from `first` on.
fn fill_typed<E: Integer>(cells: &Integers<'_>, first: usize, block: &mut [i128; 64])
    requires kind { E.KIND ≡ (cells.now).integer }
    requires within { first + 64 ≤ (cells.now).len }
    ensures { (row : ℕ) → row < 64 → get_or block.new row (pos 0)
        ≡ integer_at (cells.now).integer (cells.now).values (first + row) }
{
    let _count = cells.len();
    fill_cells::<E>(cells.values(), first, block);
}

// The 64 numbers of a type from `from` on.
fn fill_cells<E: Element>(values: &[u8], from: usize, block: &mut [i128; 64])
    requires room { E.WIDTH * (from + 64) ≤ length values.now }
    requires small { from + 64 < 2 ^ 64 }
    ensures { (row : ℕ) → row < 64 → get_or block.new row (pos 0)
        ≡ E.value (E.of_bits (element_at E.WIDTH values.now (from + row))) }
{
    for k in 0..64usize {
        block[k] = E::read(values, from + k).wide();
    }
}

// Which of 64 numbers stand in a comparison with others.
fn compared_block(comparison: Comparison, lefts: &[i128; 64], rights: &[i128; 64]) -> u64
    ensures { (row : ℕ) → row < 64 → bit result row ≡ satisfies comparison
        (int_cmp (get_or lefts.now row (pos 0)) (get_or rights.now row (pos 0))) }
{
    match comparison {
        Comparison::Equal => equal_block(lefts, rights),
        Comparison::NotEqual => equal_block(lefts, rights) ^ u64::MAX,
        Comparison::Less => less_block(lefts, rights),
        Comparison::LessOrEqual => less_block(rights, lefts) ^ u64::MAX,
        Comparison::Greater => less_block(rights, lefts),
        Comparison::GreaterOrEqual => less_block(lefts, rights) ^ u64::MAX,
    }
}

fn less_block(lefts: &[i128; 64], rights: &[i128; 64]) -> u64
    ensures { (row : ℕ) → row < 64 →
        bit result row ≡ int_lt (get_or lefts.now row (pos 0)) (get_or rights.now row (pos 0)) }
{
    let mut flags = [0u8; 64];
    for k in 0..64usize {
        flags[k] = (lefts[k] < rights[k]) as u8;
    }
    pack(u8x64::from_array(flags))
}

fn equal_block(lefts: &[i128; 64], rights: &[i128; 64]) -> u64
    ensures { (row : ℕ) → row < 64 →
        bit result row ≡ int_eq (get_or lefts.now row (pos 0)) (get_or rights.now row (pos 0)) }
{
    let mut flags = [0u8; 64];
    for k in 0..64usize {
        flags[k] = (lefts[k] == rights[k]) as u8;
    }
    pack(u8x64::from_array(flags))
}
