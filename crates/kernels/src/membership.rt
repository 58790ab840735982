//! Columns whose slots are looked for among values.

ghost use Rattle.std.specs.Prelude.{◌≡◌, ◌≤◌, ◌<◌, ◌+◌, ◌^◌, ◌||◌, ℕ, map, true, IfOk, IfSome};
ghost use Rattle.std.specs.List.{range_with_len};
ghost use Rattle.std.specs.Ordering.{int_cmp, is_eq};
ghost use Rattle.scan_base.specs.Predicate.{any_equal, operand_value};
ghost use Rattle.scan_base.specs.Comparison.{compared};
ghost use Rattle.scan_base.specs.Truth.{truth_from, truth_or};
ghost use Rattle.scan_base.specs.declared.comparison.Comparison.TheVariants.{Equal as EqualTo};
ghost use Rattle.scan_base.specs.declared.value.Value.{Value};
ghost use Rattle.scan_base.specs.declared.value.Value.TheVariants.{Int as IntValue};
ghost use Rattle.arrow_types.specs.DataType.{bit_width};
ghost use Rattle.arrays.specs.declared.layout.Layout.TheVariants.{Integers as IntegersLayout};
ghost use Rattle.arrays.specs.Integers.{AreIntegers};
ghost use Rattle.arrays.specs.Layout.{layout_slot};
ghost use Rattle.arrays.specs.Number.{number_from};
ghost use Rattle.kernels.specs.Codes.{is_among};
ghost use Rattle.kernels.specs.Items.{AreCodesOf};
ghost use Rattle.kernels.specs.Parts.{IsPart, said_of};

use crate::code_membership::{CodeMembership, PackedIntegers};
use crate::codes::code_of;
use crate::column_part::ColumnPart;
use crate::kernel::mask_by;
use crate::mask::Mask;
use arrays::{Cells, Integers, Layout};
use arrow_types::IntegerType;
use scan_base::{Operand, Value};
use std::alloc::{AllocError, Global};

/// What `IN (items)` says of slots, where they are integers and so are all items.
///
/// # Errors
///
/// `AllocError` where memory is refused.
pub(crate) fn among_part(
    alloc: Global,
    part: &ColumnPart<'_>,
    items: &[Operand<usize>],
) -> Result<Option<Mask>, AllocError>
    requires { IsPart part.now }
    ensures { IfOk result (λ found. IfSome found (λ mask. (cell : ℕ → Value) →
        mask ≡ said_of (λ value. any_equal cell value items.now) part.now)) }
{
    let column = part.column;
    let _len = column.len();
    match column.layout() {
        Layout::Integers(cells) => {
            integers_among(alloc, &cells, items, column.first() + part.from, part.len)
        }
        _ => Ok(None),
    }
}

// The same of integers, of which the slots are `len` ones from `first` on.
fn integers_among(
    alloc: Global,
    cells: &Integers<'_>,
    items: &[Operand<usize>],
    first: usize,
    len: usize,
) -> Result<Option<Mask>, AllocError>
    requires { first + len ≤ (cells.now).len }
    ensures { IfOk result (λ found. IfSome found (λ mask. (cell : ℕ → Value) →
        mask
        ≡ map (λ place. any_equal cell (layout_slot (IntegersLayout cells.now) place) items.now)
        (range_with_len first len))) }
{
    match codes_of(alloc, cells.integer_type(), items)? {
        Some(codes) => {
            let kernel = CodeMembership {
                numbers: packed_integers(cells),
                codes: codes.as_slice(),
            };
            let mask = mask_by(alloc, &kernel, first, len)?;
            Ok(Some(mask))
        }
        None => Ok(None),
    }
}

// The numbers of integers.
fn packed_integers<'a>(cells: &Integers<'a>) -> PackedIntegers<'a>
    ensures integer { result.integer ≡ (cells.now).integer }
    ensures values { result.values.now ≡ (cells.now).values }
    ensures validity { result.validity.now ≡ (cells.now).validity }
    ensures count { result.count ≡ (cells.now).len }
    ensures stands { AreIntegers cells.now }
{
    let count = cells.len();
    PackedIntegers {
        integer: cells.integer_type(),
        values: cells.values(),
        validity: cells.validity(),
        count,
    }
}

// The codes of items in an integer type, without those of numbers that it does not have; none where
// there is no item, or one that is no number.
fn codes_of(
    alloc: Global,
    integer: IntegerType,
    items: &[Operand<usize>],
) -> Result<Option<Vec<u64>>, AllocError>
    ensures { IfOk result
        (λ found. IfSome found (λ codes. AreCodesOf integer items.now codes.items)) }
{
    if items.is_empty() {
        return Ok(None);
    }
    let mut codes = Vec::new(alloc);
    for item in items {
        if !push_item(&mut codes, integer, item)? {
            return Ok(None);
        }
    }
    Ok(Some(codes))
}

// Adds the code of an item, where the type has it, and says whether the item is a number.
fn push_item(
    codes: &mut Vec<u64>,
    integer: IntegerType,
    item: &Operand<usize>,
) -> Result<bool, AllocError>
    ensures { IfOk result (λ is_number. is_number ≡ true → (cell : ℕ → Value) (code : ℕ) →
        code < 2 ^ bit_width integer → truth_from (is_among codes.new.items code)
        ≡ truth_or (truth_from (is_among codes.old.items code))
        (compared EqualTo (IntValue (number_from integer code)) (operand_value cell item.now))) }
{
    match item {
        Operand::Literal(Value::Int(number)) => {
            push_number(codes, integer, *number)?;
            Ok(true)
        }
        _ => Ok(false),
    }
}

// Adds the code of a number, where the type has it.
fn push_number(codes: &mut Vec<u64>, integer: IntegerType, number: i128) -> Result<(), AllocError>
    ensures { IfOk result (λ _. (code : ℕ) → code < 2 ^ bit_width integer →
        is_among codes.new.items code
        ≡ (is_among codes.old.items code || is_eq (int_cmp (number_from integer code) number))) }
{
    match code_of(integer, number) {
        Some(code) => {
            codes.push(code)?;
            Ok(())
        }
        None => Ok(()),
    }
}
