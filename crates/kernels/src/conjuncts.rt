//! Rows in which all parts of a conjunction are true.

ghost use Rattle.std.specs.Prelude.{◌≡◌, ◌<◌, ◌+◌, ◌/◌, ◌^◌, ℕ, true, false, length, OnOk};
ghost use Rattle.scan_base.specs.View.{pred_of};
ghost use Rattle.kernels.specs.KeptRows.{Keeps, bit_among};
ghost use Rattle.kernels.specs.Parts.{AreRows};
ghost use Rattle.kernels.specs.Rows.{NamesOnlyRead, truths_of};

use crate::column_part::RowRange;
use crate::walk::truths;
use scan_base::Predicate;
use std::alloc::{AllocError, Global};

/// Clears the bits of those rows in which a predicate is not true. The parts of a conjunction are
/// looked at one after another, until no row is left.
///
/// # Errors
///
/// `AllocError` where memory is refused.
pub(crate) fn keep_true(
    alloc: Global,
    predicate: &Predicate<usize>,
    rows: &RowRange<'_>,
    words: &mut [u64],
) -> Result<(), AllocError>
    requires there { AreRows rows.now }
    requires over { NamesOnlyRead rows.now.columns.read.now (pred_of predicate.now) }
    requires small { rows.now.from + rows.now.len < 2 ^ 64 }
    requires long { length words.old ≡ (rows.now.len + 63) / 64 }
    ensures { OnOk result (Keeps
        (truths_of rows.now.columns.columns.now rows.now.columns.read.now
        (pred_of predicate.now) rows.now.from rows.now.len) words.old words.new) }
{
    match predicate {
        Predicate::And(left, right) => {
            keep_true(alloc, left, rows, words)?;
            keep_true(alloc, right, rows, words)?;
            Ok(())
        }
        _ => keep_part(alloc, predicate, rows, words),
    }
}

// The same of a predicate that is looked at whole.
fn keep_part(
    alloc: Global,
    predicate: &Predicate<usize>,
    rows: &RowRange<'_>,
    words: &mut [u64],
) -> Result<(), AllocError>
    requires there { AreRows rows.now }
    requires over { NamesOnlyRead rows.now.columns.read.now (pred_of predicate.now) }
    requires small { rows.now.from + rows.now.len < 2 ^ 64 }
    requires long { length words.old ≡ (rows.now.len + 63) / 64 }
    ensures { OnOk result (Keeps
        (truths_of rows.now.columns.columns.now rows.now.columns.read.now
        (pred_of predicate.now) rows.now.from rows.now.len) words.old words.new) }
{
    if is_empty(words) {
        return Ok(());
    }
    let mask = truths(alloc, predicate, &rows.columns, rows.from, rows.len)?;
    mask.keep(words);
    Ok(())
}

// Whether no row is left.
fn is_empty(words: &[u64]) -> bool
    ensures { result ≡ true → (row : ℕ) → bit_among words.now row ≡ false }
{
    for word in words {
        if *word != 0 {
            return false;
        }
    }
    true
}
