//! Columns whose values are compared with one, row by row.

ghost use Rattle.std.specs.Prelude.{◌≡◌, ◌≤◌, ◌<◌, ◌+◌, ◌^◌, ℕ, map, IfOk};
ghost use Rattle.std.specs.List.{range_with_len};
ghost use Rattle.scan_base.specs.Comparison.{compared};
ghost use Rattle.scan_base.specs.Value.{value_of};
ghost use Rattle.arrays.specs.Column.{slot_of};
ghost use Rattle.kernels.specs.Parts.{IsPart, said_of};

use crate::column_part::ColumnPart;
use crate::kernel::{Kernel, SlotTruths, mask_by, slot_by_slot};
use crate::mask::Mask;
use crate::row_values::{AnyColumn, RowValues};
use crate::text_columns::{CodedTexts, PlainTexts};
use crate::word::Word;
use arrays::{Cells, Layout};
use scan_base::{Comparison, Truth, ValueRef};
use std::alloc::{AllocError, Global};

/// A column; the value of each row is compared with one value.
#[derive(Drop)]
struct ValueTests<'a, C: RowValues> {
    column: &'a C,
    comparison: Comparison,
    other: ValueRef<'a>,
    count: usize,
    ghost there: { count ≤ (C.column column.now).len },
}

impl<'a, C: RowValues> SlotTruths for ValueTests<'a, C> {
    ghost use Rattle.scan_base.specs.Comparison.{compared};
    ghost use Rattle.scan_base.specs.Value.{value_of};
    ghost use Rattle.arrays.specs.Column.{slot_of};

    ghost count = { λ s. s.count };

    ghost truth = { λ s row. compared s.comparison (slot_of (C.column s.column.now) row)
        (value_of s.other) };

    fn truth(&self, place: usize) -> Truth {
        let _count = self.count;
        let value = self.column.value_in(place);
        value.compare(self.comparison, self.other)
    }
}

impl<'a, C: RowValues> Kernel for ValueTests<'a, C> {
    type Cell = Truth;

    fn word(&self, from: usize) -> Word {
        let _count = self.count;
        slot_by_slot(self, from, 64)
    }
}

/// What a comparison with a value says of slots, whatever their layout.
///
/// # Errors
///
/// `AllocError` where memory is refused.
pub(crate) fn value_compared(
    alloc: Global,
    part: &ColumnPart<'_>,
    comparison: Comparison,
    other: ValueRef<'_>,
) -> Result<Mask, AllocError>
    requires { IsPart part.now }
    ensures { IfOk result (λ mask. mask
        ≡ said_of (λ value. compared comparison value (value_of other.entry)) part.now) }
{
    let column = part.column;
    let _len = column.len();
    let count = part.from + part.len;
    match column.layout() {
        Layout::Texts(cells) => {
            let texts = PlainTexts::new(column, cells);
            let tests = ValueTests {
                column: &texts,
                comparison,
                other,
                count,
            };
            mask_by(alloc, &tests, part.from, part.len)
        }
        Layout::Indices(cells) => {
            let texts = CodedTexts::new(column, &cells);
            let tests = ValueTests {
                column: &texts,
                comparison,
                other,
                count,
            };
            mask_by(alloc, &tests, part.from, part.len)
        }
        _ => {
            let any = AnyColumn { column };
            let tests = ValueTests {
                column: &any,
                comparison,
                other,
                count,
            };
            mask_by(alloc, &tests, part.from, part.len)
        }
    }
}
