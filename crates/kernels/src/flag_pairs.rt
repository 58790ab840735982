//! Truth values of columns that are compared with each other, 64 at once.

ghost use Rattle.std.specs.Prelude.{◌≡◌, ◌≤◌, ◌<◌, ◌+◌, ℕ, IfSome};
ghost use Rattle.std.specs.Ordering.{bool_cmp};
ghost use Rattle.scan_base.specs.Comparison.{satisfies};
ghost use Rattle.kernels.specs.Pairs.{HasFlags};
ghost use Rattle.kernels.specs.Words.{bit};

use crate::word::Word;
use arrays::{Cells, Column, Layout};
use scan_base::Comparison;

/// The truth values of 64 slots from `from` on; none of a column of other values.
pub(crate) fn flag_word(column: &Column, from: usize) -> Option<Word>
    requires { from + 64 ≤ column.now.len }
    ensures { IfSome result (λ word. HasFlags column.now from word) }
{
    let _len = column.len();
    let first = column.first() + from;
    match column.layout() {
        Layout::Bools(cells) => Some(Word {
            truths: cells.values().word(first),
            knowns: cells.validity().valid_word(first),
        }),
        _ => None,
    }
}

/// Which of 64 truth values stand in a comparison with others; FALSE is below TRUE.
pub(crate) fn compared_bits(comparison: Comparison, lefts: u64, rights: u64) -> u64
    ensures { (row : ℕ) → row < 64 →
        bit result row ≡ satisfies comparison (bool_cmp (bit lefts row) (bit rights row)) }
{
    match comparison {
        Comparison::Equal => (lefts ^ rights) ^ u64::MAX,
        Comparison::NotEqual => lefts ^ rights,
        Comparison::Less => (lefts ^ u64::MAX) & rights,
        Comparison::LessOrEqual => (lefts ^ u64::MAX) | rights,
        Comparison::Greater => lefts & (rights ^ u64::MAX),
        Comparison::GreaterOrEqual => lefts | (rights ^ u64::MAX),
    }
}
