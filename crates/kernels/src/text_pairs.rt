//! Columns of texts that are compared with each other, row by row.

ghost use Rattle.std.specs.Prelude.{◌≡◌, ◌≤◌, ◌<◌, ◌+◌, ◌^◌, ℕ, map, IfOk, IfSome};
ghost use Rattle.std.specs.List.{range_with_len};
ghost use Rattle.scan_base.specs.Comparison.{compared};
ghost use Rattle.arrays.specs.Column.{slot_of};
ghost use Rattle.kernels.specs.Parts.{IsPart};

use crate::column_part::ColumnPart;
use crate::kernel::{Kernel, SlotTruths, mask_by, slot_by_slot};
use crate::mask::Mask;
use crate::row_values::RowValues;
use crate::text_columns::{CodedTexts, PlainTexts};
use crate::word::Word;
use arrays::{Cells, Layout};
use scan_base::{Comparison, Truth};
use std::alloc::{AllocError, Global};

/// Two columns of texts; each text of the one is compared with that of the same row of the other.
#[derive(Drop)]
pub(crate) struct TextPairs<'a, L: RowValues, R: RowValues> {
    pub(crate) left: &'a L,
    pub(crate) right: &'a R,
    pub(crate) comparison: Comparison,
    pub(crate) count: usize,
    ghost lefts: { count ≤ (L.column left.now).len },
    ghost rights: { count ≤ (R.column right.now).len },
}

impl<'a, L: RowValues, R: RowValues> SlotTruths for TextPairs<'a, L, R> {
    ghost use Rattle.scan_base.specs.Comparison.{compared};
    ghost use Rattle.arrays.specs.Column.{slot_of};

    ghost count = { λ s. s.count };

    ghost truth = { λ s row. compared s.comparison (slot_of (L.column s.left.now) row)
        (slot_of (R.column s.right.now) row) };

    fn truth(&self, place: usize) -> Truth {
        let _count = self.count;
        let left = self.left.value_in(place);
        left.compare(self.comparison, self.right.value_in(place))
    }
}

impl<'a, L: RowValues, R: RowValues> Kernel for TextPairs<'a, L, R> {
    type Cell = &'a str;

    fn word(&self, from: usize) -> Word {
        let _count = self.count;
        slot_by_slot(self, from, 64)
    }
}

/// What a comparison of two columns says of their slots, where the first has texts of its own and
/// the other is of texts.
///
/// # Errors
///
/// `AllocError` where memory is refused.
pub(crate) fn plain_compared(
    alloc: Global,
    comparison: Comparison,
    left: &PlainTexts<'_>,
    right: &ColumnPart<'_>,
) -> Result<Option<Mask>, AllocError>
    requires left { right.now.from + right.now.len ≤ left.now.column.now.len }
    requires right { IsPart right.now }
    ensures { IfOk result (λ found. IfSome found (λ mask. mask
        ≡ map (λ row. compared comparison (slot_of left.now.column.now row)
        (slot_of right.now.column.now row)) (range_with_len right.now.from right.now.len))) }
{
    let column = right.column;
    let _len = column.len();
    let count = right.from + right.len;
    match column.layout() {
        Layout::Texts(cells) => {
            let right_texts = PlainTexts::new(column, cells);
            let pairs = TextPairs {
                left,
                right: &right_texts,
                comparison,
                count,
            };
            let mask = mask_by(alloc, &pairs, right.from, right.len)?;
            Ok(Some(mask))
        }
        Layout::Indices(cells) => {
            let right_texts = CodedTexts::new(column, &cells);
            let pairs = TextPairs {
                left,
                right: &right_texts,
                comparison,
                count,
            };
            let mask = mask_by(alloc, &pairs, right.from, right.len)?;
            Ok(Some(mask))
        }
        _ => Ok(None),
    }
}
