//! Operands that are compared: columns and literals. BETWEEN and IN by their comparisons.

ghost use Rattle.std.specs.Prelude.{◌≡◌, ℕ, IsTrue, length, nat_lt, IfOk};
ghost use Rattle.std.specs.List.{list_all};
ghost use Rattle.scan_base.specs.Comparison.{compared};
ghost use Rattle.scan_base.specs.Predicate.{any_equal, operand_names, operand_value, within};
ghost use Rattle.kernels.specs.Leaves.{IsSideOf};
ghost use Rattle.kernels.specs.Parts.{AreRows, cell_of, said_in};

use crate::column_part::RowRange;
use crate::compare::{compare_part, compare_parts, exchanged};
use crate::constant_truth::values_compared;
use crate::mask::Mask;
use scan_base::{Comparison, Operand, Truth, ValueRef};
use std::alloc::{AllocError, Global};

/// `left comparison right`.
#[derive(Clone, Copy, Drop)]
pub(crate) struct OperandComparison<'a> {
    pub(crate) comparison: Comparison,
    pub(crate) left: &'a Operand<usize>,
    pub(crate) right: &'a Operand<usize>,
}

/// The ends of a BETWEEN.
#[derive(Clone, Copy, Drop)]
pub(crate) struct Bounds<'a> {
    pub(crate) low: &'a Operand<usize>,
    pub(crate) high: &'a Operand<usize>,
}

/// A side of a comparison: the number of a column, or the value in each row.
#[derive(Clone, Copy, Drop)]
enum OperandSide<'a> {
    Column(usize),
    Value(ValueRef<'a>),
}

fn side_of(operand: &Operand<usize>) -> OperandSide<'_>
    ensures { IsSideOf operand.now result }
{
    match operand {
        Operand::Column(number) => OperandSide::Column(*number),
        Operand::Literal(value) => OperandSide::Value(value.borrowed()),
    }
}

/// The truths of a comparison.
///
/// # Errors
///
/// `AllocError` where memory is refused.
pub(crate) fn compare_leaf(
    alloc: Global,
    leaf: &OperandComparison<'_>,
    rows: &RowRange<'_>,
) -> Result<Mask, AllocError>
    requires there { AreRows rows.now }
    requires left { IsTrue (operand_names
        (λ column. nat_lt column (length rows.now.columns.read.now)) leaf.now.left.now) }
    requires right { IsTrue (operand_names
        (λ column. nat_lt column (length rows.now.columns.read.now)) leaf.now.right.now) }
    ensures { IfOk result (λ mask. mask
        ≡ said_in (λ row. compared leaf.now.comparison (operand_value (cell_of rows.now row)
        leaf.now.left.now) (operand_value (cell_of rows.now row) leaf.now.right.now)) rows.now) }
{
    let comparison = leaf.comparison;
    match (side_of(leaf.left), side_of(leaf.right)) {
        (OperandSide::Column(number), OperandSide::Value(value)) => {
            compare_part(alloc, &rows.part(number), comparison, value)
        }
        (OperandSide::Value(value), OperandSide::Column(number)) => {
            compare_part(alloc, &rows.part(number), exchanged(comparison), value)
        }
        (OperandSide::Column(left), OperandSide::Column(right)) => {
            compare_parts(alloc, comparison, &rows.part(left), &rows.part(right))
        }
        (OperandSide::Value(left), OperandSide::Value(right)) => {
            values_compared(alloc, comparison, left, right, rows)
        }
    }
}

/// The truths of `operand >= low AND operand <= high`.
///
/// # Errors
///
/// `AllocError` where memory is refused.
pub(crate) fn both_compared(
    alloc: Global,
    operand: &Operand<usize>,
    bounds: &Bounds<'_>,
    rows: &RowRange<'_>,
) -> Result<Mask, AllocError>
    requires there { AreRows rows.now }
    requires named { IsTrue
        (operand_names (λ column. nat_lt column (length rows.now.columns.read.now)) operand.now) }
    requires low { IsTrue (operand_names
        (λ column. nat_lt column (length rows.now.columns.read.now)) bounds.now.low.now) }
    requires high { IsTrue (operand_names
        (λ column. nat_lt column (length rows.now.columns.read.now)) bounds.now.high.now) }
    ensures { IfOk result (λ mask. mask
        ≡ said_in (λ row. within (operand_value (cell_of rows.now row) operand.now)
        (operand_value (cell_of rows.now row) bounds.now.low.now)
        (operand_value (cell_of rows.now row) bounds.now.high.now)) rows.now) }
{
    let above = OperandComparison {
        comparison: Comparison::GreaterOrEqual,
        left: operand,
        right: bounds.low,
    };
    let below = OperandComparison {
        comparison: Comparison::LessOrEqual,
        left: operand,
        right: bounds.high,
    };
    let mask = compare_leaf(alloc, &above, rows)?;
    Ok(mask.and(&compare_leaf(alloc, &below, rows)?))
}

/// The OR of the truths of `operand = item`.
///
/// # Errors
///
/// `AllocError` where memory is refused.
pub(crate) fn any_compared(
    alloc: Global,
    operand: &Operand<usize>,
    items: &[Operand<usize>],
    rows: &RowRange<'_>,
) -> Result<Mask, AllocError>
    requires there { AreRows rows.now }
    requires named { IsTrue
        (operand_names (λ column. nat_lt column (length rows.now.columns.read.now)) operand.now) }
    requires items { IsTrue (list_all
        (operand_names (λ column. nat_lt column (length rows.now.columns.read.now))) items.now) }
    ensures { IfOk result (λ mask. mask
        ≡ said_in (λ row. any_equal (cell_of rows.now row)
        (operand_value (cell_of rows.now row) operand.now) items.now) rows.now) }
{
    let mut mask = Mask::of(alloc, Truth::False, rows.len)?;
    for index in (0..items.len()).rev() {
        let equal = OperandComparison {
            comparison: Comparison::Equal,
            left: operand,
            right: &items[index],
        };
        mask = compare_leaf(alloc, &equal, rows)?.or(&mask);
    }
    Ok(mask)
}
