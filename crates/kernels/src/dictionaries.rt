//! Predicates over a column of a dictionary: each value is looked at once.

ghost use Rattle.std.specs.Prelude.{◌≡◌, ◌==◌, ◌≤◌, ◌<◌, ◌+◌, ◌*◌, ◌&&◌, ℕ, true, length, IfOk};
ghost use Rattle.std.specs.Prelude.{IfSome};
ghost use Rattle.std.specs.List.{list_all};
ghost use Rattle.scan_base.specs.Predicate.{operand_names};
ghost use Rattle.scan_base.specs.View.{pred_of};
ghost use Rattle.arrays.specs.declared.layout.Layout.TheVariants.{Indices as IndicesLayout};
ghost use Rattle.arrays.specs.Indices.{AreIndices};
ghost use Rattle.kernels.specs.Entries.{truth_at, NamesAlone};
ghost use Rattle.kernels.specs.Parts.{IsPart, AreRows, said_of};
ghost use Rattle.kernels.specs.Rows.{NamesOnlyRead, truths_of};

use crate::code_membership::PackedIntegers;
use crate::column_part::{ColumnPart, RowRange};
use crate::entries::{ByEntry, truth_at, truths_at};
use crate::mask::Mask;
use arrays::{Cells, Indices, Layout};
use scan_base::{Operand, Predicate, ValueRef};
use std::alloc::{AllocError, Global};

/// The truths of a leaf that names one column alone, which is of a dictionary; none of any other
/// predicate.
///
/// # Errors
///
/// `AllocError` where memory is refused.
pub(crate) fn dictionary_leaf(
    alloc: Global,
    predicate: &Predicate<usize>,
    rows: &RowRange<'_>,
) -> Result<Option<Mask>, AllocError>
    requires there { AreRows rows.now }
    requires over { NamesOnlyRead rows.now.columns.read.now (pred_of predicate.now) }
    ensures { IfOk result (λ found. IfSome found (λ mask. mask
        ≡ truths_of rows.now.columns.columns.now rows.now.columns.read.now
        (pred_of predicate.now) rows.now.from rows.now.len)) }
{
    match column_alone(predicate) {
        Some(number) => {
            if rows.columns.read.len() <= number {
                return Ok(None);
            }
            entries_part(alloc, predicate, &rows.part(number))
        }
        None => Ok(None),
    }
}

// The number of the column that a leaf names, if there is no other.
fn column_alone(predicate: &Predicate<usize>) -> Option<usize>
    ensures { IfSome result (λ number. NamesAlone number (pred_of predicate.now)) }
{
    match predicate {
        Predicate::Compare {
            comparison: _,
            left,
            right,
        } => alone_in_two(left, right),
        Predicate::Between {
            negated: _,
            operand,
            low,
            high,
        } => alone_in_three(operand, low, high),
        Predicate::In {
            negated: _,
            operand,
            items,
        } => alone_in_items(operand, items.as_slice()),
        Predicate::IsNull {
            negated: _,
            operand,
        } => column_named(operand),
        _ => None,
    }
}

// The number of the column that an operand is, if it is one.
fn column_named(operand: &Operand<usize>) -> Option<usize>
    ensures { IfSome result
        (λ number. operand_names (λ column. column == number) operand.now ≡ true) }
{
    match operand {
        Operand::Column(number) => Some(*number),
        Operand::Literal(_) => None,
    }
}

// Whether an operand names no column but one.
fn names_no_other(operand: &Operand<usize>, number: usize) -> bool
    ensures { result ≡ operand_names (λ column. column == number) operand.now }
{
    match operand {
        Operand::Column(column) => *column == number,
        Operand::Literal(_) => true,
    }
}

// Whether items do.
fn items_name_no_other(items: &[Operand<usize>], number: usize) -> bool
    ensures { result ≡ list_all (operand_names (λ column. column == number)) items.now }
{
    for item in items {
        if !names_no_other(item, number) {
            return false;
        }
    }
    true
}

// The column that two operands name, if there is no other.
fn alone_in_two(left: &Operand<usize>, right: &Operand<usize>) -> Option<usize>
    ensures { IfSome result (λ number. (operand_names (λ column. column == number) left.now
        && operand_names (λ column. column == number) right.now) ≡ true) }
{
    let found = match left {
        Operand::Column(number) => Some(*number),
        Operand::Literal(_) => column_named(right),
    };
    match found {
        Some(number) if names_no_other(left, number) && names_no_other(right, number) => Some(
            number,
        ),
        _ => None,
    }
}

// The column that the first of three operands is, if the others name no other.
fn alone_in_three(
    operand: &Operand<usize>,
    low: &Operand<usize>,
    high: &Operand<usize>,
) -> Option<usize>
    ensures { IfSome result (λ number. (operand_names (λ column. column == number) operand.now
        && (operand_names (λ column. column == number) low.now
        && operand_names (λ column. column == number) high.now)) ≡ true) }
{
    match column_named(operand) {
        Some(number) if names_no_other(low, number) && names_no_other(high, number) => Some(number),
        _ => None,
    }
}

// The column that an operand is, if the items name no other.
fn alone_in_items(operand: &Operand<usize>, items: &[Operand<usize>]) -> Option<usize>
    ensures { IfSome result (λ number. (operand_names (λ column. column == number) operand.now
        && list_all (operand_names (λ column. column == number)) items.now) ≡ true) }
{
    match column_named(operand) {
        Some(number) if items_name_no_other(items, number) => Some(number),
        _ => None,
    }
}

// How many values of a dictionary are looked at for each row, at most.
const MOST_VALUES_A_ROW: usize = 4;

// What a predicate says of each slot in place of its column, where this is of a dictionary that is
// not long.
fn entries_part(
    alloc: Global,
    predicate: &Predicate<usize>,
    part: &ColumnPart<'_>,
) -> Result<Option<Mask>, AllocError>
    requires { IsPart part.now }
    ensures { IfOk result (λ found. IfSome found
        (λ mask. mask ≡ said_of (truth_at (pred_of predicate.now)) part.now)) }
{
    let column = part.column;
    let _len = column.len();
    match column.layout() {
        Layout::Indices(cells) => {
            if part.len < cells.dictionary().len() / MOST_VALUES_A_ROW {
                return Ok(None);
            }
            let mask = indices_mask(alloc, predicate, &cells, part)?;
            Ok(Some(mask))
        }
        _ => Ok(None),
    }
}

// The same of a column of indices.
fn indices_mask(
    alloc: Global,
    predicate: &Predicate<usize>,
    cells: &Indices<'_>,
    part: &ColumnPart<'_>,
) -> Result<Mask, AllocError>
    requires layout { part.now.column.now.layout ≡ IndicesLayout cells.now }
    requires part { IsPart part.now }
    ensures { IfOk result (λ mask. mask ≡ said_of (truth_at (pred_of predicate.now)) part.now) }
{
    let column = part.column;
    let _len = column.len();
    let truths = truths_at(alloc, predicate, cells.dictionary())?;
    let kernel = ByEntry {
        indices: packed_indices(cells, column.slots().len()),
        truths: truths.as_slice(),
        of_null: truth_at(predicate, ValueRef::Null),
    };
    kernel.mask(alloc, column.first() + part.from, part.len)
}

/// The indices of all `count` slots.
pub(crate) fn packed_indices<'a>(cells: &Indices<'a>, count: usize) -> PackedIntegers<'a>
    requires stands { AreIndices cells.now }
    requires count { count ≡ (cells.now).len }
    ensures integer { result.integer ≡ (cells.now).index }
    ensures values { result.values.now ≡ (cells.now).values }
    ensures validity { result.validity.now ≡ (cells.now).validity }
    ensures count { result.count ≡ (cells.now).len }
{
    PackedIntegers {
        integer: cells.index_type(),
        values: cells.values(),
        validity: cells.validity(),
        count,
    }
}
