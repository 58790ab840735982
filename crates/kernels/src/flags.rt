//! Columns of truth values that are compared with one.

ghost use Rattle.std.specs.Prelude.{◌≡◌, ◌≤◌, ◌<◌, ◌+◌, ℕ, Bool, true, false, get_or};
ghost use Rattle.std.specs.Prelude.{if◌then◌else◌, length, IfOk, IfSome};
ghost use Rattle.std.specs.Ordering.{bool_cmp};
ghost use Rattle.scan_base.specs.Comparison.{compared, satisfies};
ghost use Rattle.scan_base.specs.declared.value.Value.TheVariants.{Bool as Flag};
ghost use Rattle.arrays.specs.Bools.{AreBools};
ghost use Rattle.arrays.specs.Validity.{IsLong};
ghost use Rattle.kernels.specs.Nulls.{IsLong-prop};
ghost use Rattle.kernels.specs.Parts.{IsPart, said_of};
ghost use Rattle.kernels.specs.Words.{bit};

use crate::column_part::ColumnPart;
use crate::kernel::{Kernel, SlotTruths, mask_by};
use crate::longs::of_test;
use crate::mask::Mask;
use crate::word::Word;
use arrays::{Bools, Cells, Layout, Validity};
use bitmap::Bits;
use scan_base::{Comparison, Truth};
use std::alloc::{AllocError, Global};

/// What a comparison with a truth value says of slots, where they are of Bool.
///
/// # Errors
///
/// `AllocError` where memory is refused.
pub(crate) fn flags_compared(
    alloc: Global,
    part: &ColumnPart<'_>,
    comparison: Comparison,
    other: bool,
) -> Result<Option<Mask>, AllocError>
    requires { IsPart part.now }
    ensures { IfOk result (λ found. IfSome found
        (λ mask. mask ≡ said_of (λ value. compared comparison value (Flag other)) part.now)) }
{
    let column = part.column;
    let _len = column.len();
    match column.layout() {
        Layout::Bools(cells) => {
            let kernel = flag_tests(&cells, comparison, other);
            let mask = mask_by(alloc, &kernel, column.first() + part.from, part.len)?;
            Ok(Some(mask))
        }
        _ => Ok(None),
    }
}

// What a test says of each of `count` truth values, by what it says of TRUE and of FALSE.
#[derive(Clone, Copy, Drop)]
struct FlagTests<'a> {
    values: &'a Bits,
    validity: &'a Validity,
    count: usize,
    of_true: bool,
    of_false: bool,
    ghost room: { count ≡ length values.now },
    ghost long: { IsLong validity.now count } by { IsLong-prop validity.now count },
}

// What a comparison with a truth value says of each.
fn flag_tests<'a>(cells: &Bools<'a>, comparison: Comparison, other: bool) -> FlagTests<'a>
    requires { AreBools cells.now }
    ensures values { result.values.now ≡ (cells.now).values }
    ensures validity { result.validity.now ≡ (cells.now).validity }
    ensures of_true { result.of_true ≡ satisfies comparison (bool_cmp true other) }
    ensures of_false { result.of_false ≡ satisfies comparison (bool_cmp false other) }
{
    FlagTests {
        values: cells.values(),
        validity: cells.validity(),
        count: cells.values().len(),
        of_true: comparison.is_satisfied_by(true.cmp(&other)),
        of_false: comparison.is_satisfied_by(false.cmp(&other)),
    }
}

impl<'a> SlotTruths for FlagTests<'a> {
    ghost use Rattle.std.specs.Prelude.{false, get_or, if◌then◌else◌};
    ghost use Rattle.arrays.specs.Validity.{is_valid};
    ghost use Rattle.kernels.specs.Ranges.{where_known};

    ghost count = { λ s. s.count };

    ghost truth = { λ s place. where_known (is_valid s.validity.now place)
        (if get_or s.values.now place false then s.of_true else s.of_false) };

    fn truth(&self, place: usize) -> Truth {
        if !self.validity.is_valid(place) {
            return Truth::Unknown;
        }
        of_test(if self.values.get(place) {
            self.of_true
        } else {
            self.of_false
        })
    }
}

impl<'a> Kernel for FlagTests<'a> {
    type Cell = bool;

    fn word(&self, from: usize) -> Word {
        let _count = self.count;
        Word {
            truths: chosen_bits(self.values.word(from), self.of_true, self.of_false),
            knowns: self.validity.valid_word(from),
        }
    }
}

// For each bit of a word one truth value where it is 1, and another where it is 0.
fn chosen_bits(word: u64, of_one: bool, of_zero: bool) -> u64
    ensures { (row : ℕ) → row < 64 → bit result row ≡ (if bit word row then of_one else of_zero) }
{
    match (of_one, of_zero) {
        (true, true) => u64::MAX,
        (true, false) => word,
        (false, true) => word ^ u64::MAX,
        (false, false) => 0,
    }
}
