//! One truth in all rows.

ghost use Rattle.std.specs.Prelude.{◌≡◌, ◌<◌, ◌+◌, ◌^◌, ℕ, map, IfOk};
ghost use Rattle.std.specs.List.{range_with_len};
ghost use Rattle.scan_base.specs.Comparison.{compared};
ghost use Rattle.scan_base.specs.Value.{value_of};
ghost use Rattle.kernels.specs.Parts.{AreRows, said_in};

use crate::column_part::RowRange;
use crate::kernel::{Kernel, SlotTruths, mask_by};
use crate::mask::Mask;
use crate::word::Word;
use scan_base::{Comparison, Truth, ValueRef};
use std::alloc::{AllocError, Global};

// The same truth in each of `count` rows.
#[derive(Clone, Copy, Drop)]
struct ConstantTruth {
    truth: Truth,
    count: usize,
}

impl SlotTruths for ConstantTruth {
    ghost count = { λ s. s.count };

    ghost truth = { λ s place. s.truth };

    fn truth(&self, place: usize) -> Truth {
        let _ = place;
        self.truth
    }
}

impl Kernel for ConstantTruth {
    type Cell = Truth;

    fn word(&self, from: usize) -> Word {
        let _ = from;
        Word::of(self.truth)
    }
}

/// One truth in each of `len` rows from `from` on.
///
/// # Errors
///
/// `AllocError` where memory is refused.
pub(crate) fn mask_of(
    alloc: Global,
    truth: Truth,
    from: usize,
    len: usize,
) -> Result<Mask, AllocError>
    requires { from + len < 2 ^ 64 }
    ensures { IfOk result (λ mask. mask ≡ map (λ row. truth) (range_with_len from len)) }
{
    let same = ConstantTruth {
        truth,
        count: from + len,
    };
    mask_by(alloc, &same, from, len)
}

/// What a comparison of two values says of rows, whatever stands in them.
///
/// # Errors
///
/// `AllocError` where memory is refused.
pub(crate) fn values_compared(
    alloc: Global,
    comparison: Comparison,
    left: ValueRef<'_>,
    right: ValueRef<'_>,
    rows: &RowRange<'_>,
) -> Result<Mask, AllocError>
    requires { AreRows rows.now }
    ensures { IfOk result (λ mask. mask ≡ said_in
        (λ row. compared comparison (value_of left.entry) (value_of right.entry)) rows.now) }
{
    let _count = rows.columns.count;
    mask_of(alloc, left.compare(comparison, right), rows.from, rows.len)
}
