//! Columns of numbers that are compared with numbers.

ghost use Rattle.std.specs.Prelude.{◌≡◌, ◌≤◌, ◌<◌, ◌+◌, ◌*◌, ◌^◌, length, map, IfOk, IfSome};
ghost use Rattle.std.specs.List.{range_with_len};
ghost use Rattle.scan_base.specs.Comparison.{compared};
ghost use Rattle.scan_base.specs.Predicate.{within};
ghost use Rattle.scan_base.specs.declared.truth.Truth.{Truth};
ghost use Rattle.scan_base.specs.declared.value.Value.{Value};
ghost use Rattle.scan_base.specs.declared.value.Value.TheVariants.{Int as IntValue};
ghost use Rattle.arrow_types.specs.declared.data_type.IntegerType.TheVariants.{Int64};
ghost use Rattle.arrays.specs.declared.layout.Layout.TheVariants.{Integers as IntegersLayout};
ghost use Rattle.arrays.specs.declared.layout.Layout.TheVariants.{Decimals as DecimalsLayout};
ghost use Rattle.arrays.specs.Decimals.{AreDecimals};
ghost use Rattle.arrays.specs.Integers.{AreIntegers};
ghost use Rattle.arrays.specs.Layout.{layout_slot};
ghost use Rattle.arrays.specs.Number.{AreBytes, byte_width};
ghost use Rattle.arrays.specs.Validity.{IsLong};
ghost use Rattle.kernels.specs.Parts.{IsPart, said_of};
ghost use Rattle.kernels.specs.Ranging.{TestsBy};

use crate::column_part::ColumnPart;
use crate::longs::longs_in;
use crate::mask::Mask;
use crate::range::Range;
use crate::range_membership::{PackedNumbers, cells_in};
use arrays::{Cells, Decimals, Integer, Integers, Layout};
use arrow_types::IntegerType;
use num_traits::{Bounded, FromPrimitive};
use scan_base::Comparison;
use std::alloc::{AllocError, Global};

/// What a comparison with a number says of slots, where they are of numbers.
///
/// # Errors
///
/// `AllocError` where memory is refused.
pub(crate) fn numbers_compared(
    alloc: Global,
    part: &ColumnPart<'_>,
    comparison: Comparison,
    other: i128,
) -> Result<Option<Mask>, AllocError>
    requires { IsPart part.now }
    ensures { IfOk result (λ found. IfSome found
        (λ mask. mask ≡ said_of (λ value. compared comparison value (IntValue other)) part.now)) }
{
    let range = Range::of(comparison, other);
    numbers_in(alloc, part, &range)
}

/// What `BETWEEN` two numbers says of slots, where they are of numbers.
///
/// # Errors
///
/// `AllocError` where memory is refused.
pub(crate) fn between_part(
    alloc: Global,
    part: &ColumnPart<'_>,
    low: i128,
    high: i128,
) -> Result<Option<Mask>, AllocError>
    requires { IsPart part.now }
    ensures { IfOk result (λ found. IfSome found
        (λ mask. mask ≡ said_of (λ value. within value (IntValue low) (IntValue high)) part.now)) }
{
    let range = Range::between(low, high);
    numbers_in(alloc, part, &range)
}

// What a test by a range says of slots, where they are of numbers.
fn numbers_in(
    alloc: Global,
    part: &ColumnPart<'_>,
    range: &Range,
) -> Result<Option<Mask>, AllocError>
    requires { IsPart part.now }
    ensures { (test : Value → Truth) → TestsBy range.now test →
        IfOk result (λ found. IfSome found (λ mask. mask ≡ said_of test part.now)) }
{
    let column = part.column;
    let _len = column.len();
    let first = column.first() + part.from;
    match column.layout() {
        Layout::Integers(cells) => {
            let mask = integers_in(alloc, &cells, range, first, part.len)?;
            Ok(Some(mask))
        }
        Layout::Decimals(cells) => {
            let count = column.slots().len();
            let mask = cells_in::<i128>(
                alloc,
                &packed_decimals(&cells, count),
                range,
                first,
                part.len,
            )?;
            Ok(Some(mask))
        }
        _ => Ok(None),
    }
}

// What a test by a range says of `len` slots from `first` on.
fn integers_in(
    alloc: Global,
    cells: &Integers<'_>,
    range: &Range,
    first: usize,
    len: usize,
) -> Result<Mask, AllocError>
    requires within { first + len ≤ (cells.now).len }
    requires small { first + len < 2 ^ 64 }
    ensures { (test : Value → Truth) → TestsBy range.now test → IfOk result (λ mask. mask ≡ map
        (λ place. test (layout_slot (IntegersLayout cells.now) place)) (range_with_len first len)) }
{
    match cells.integer_type() {
        IntegerType::Int8 => typed_in::<i8>(alloc, cells, range, first, len),
        IntegerType::Int16 => typed_in::<i16>(alloc, cells, range, first, len),
        IntegerType::Int32 => typed_in::<i32>(alloc, cells, range, first, len),
        IntegerType::Int64 => longs_in(alloc, &packed_integers(cells), range, first, len),
        IntegerType::UInt8 => typed_in::<u8>(alloc, cells, range, first, len),
        IntegerType::UInt16 => typed_in::<u16>(alloc, cells, range, first, len),
        IntegerType::UInt32 => typed_in::<u32>(alloc, cells, range, first, len),
        IntegerType::UInt64 => typed_in::<u64>(alloc, cells, range, first, len),
    }
}

// The same where the slots are of integers of a type.
fn typed_in<E: Integer + Bounded + FromPrimitive>(
    alloc: Global,
    cells: &Integers<'_>,
    range: &Range,
    first: usize,
    len: usize,
) -> Result<Mask, AllocError>
    requires kind { E.KIND ≡ (cells.now).integer }
    requires within { first + len ≤ (cells.now).len }
    requires small { first + len < 2 ^ 64 }
    ensures { (test : Value → Truth) → TestsBy range.now test → IfOk result (λ mask. mask ≡ map
        (λ place. test (layout_slot (IntegersLayout cells.now) place)) (range_with_len first len)) }
{
    cells_in::<E>(alloc, &packed_integers(cells), range, first, len)
}

// The packed numbers of slots of integers.
fn packed_integers<'a>(cells: &Integers<'a>) -> PackedNumbers<'a>
    ensures values { result.values.now ≡ (cells.now).values }
    ensures validity { result.validity.now ≡ (cells.now).validity }
    ensures count { result.count ≡ (cells.now).len }
    ensures room { byte_width (cells.now).integer * result.count ≤ length result.values.now }
    ensures long { IsLong result.validity.now result.count }
    ensures bytes { AreBytes result.values.now }
{
    let count = cells.len();
    PackedNumbers {
        values: cells.values(),
        validity: cells.validity(),
        count,
    }
}

// The packed numbers of so many slots of decimals.
fn packed_decimals<'a>(cells: &Decimals<'a>, count: usize) -> PackedNumbers<'a>
    requires stands { AreDecimals cells.now }
    requires count { count ≡ (cells.now).len }
    ensures values { result.values.now ≡ (cells.now).values }
    ensures validity { result.validity.now ≡ (cells.now).validity }
    ensures count { result.count ≡ (cells.now).len }
    ensures room { 16 * result.count ≤ length result.values.now }
    ensures long { IsLong result.validity.now result.count }
{
    PackedNumbers {
        values: cells.values(),
        validity: cells.validity(),
        count,
    }
}
