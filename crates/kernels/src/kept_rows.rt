//! Rows that all of some predicates keep.

ghost use Rattle.std.specs.Prelude.{◌≡◌, ◌≤◌, ◌<◌, ◌+◌, ◌-◌, ◌*◌, ◌^◌, ◌++◌, ℕ, [], All, true};
ghost use Rattle.std.specs.Prelude.{length, map, IfOk, OnOk};
ghost use Rattle.std.specs.List.{filter, range_with_len};
ghost use Rattle.scan_base.specs.View.{pred_of};
ghost use Rattle.kernels.specs.KeptRows.{AreBits, all_keep, rows_among};
ghost use Rattle.kernels.specs.Rows.{AreRowsOf, NamesOnlyRead};

use crate::column_part::RowRange;
use crate::conjuncts::keep_true;
use crate::walk::PredicateColumns;
use array_select::Selection;
use scan_base::Predicate;
use std::alloc::{AllocError, Global};

// How many rows are looked at at once: their masks are small, and their columns lie in a near
// cache.
const BLOCK_ROWS: usize = 8192;

// A bit for each of so many rows.
fn all_rows(alloc: Global, len: usize) -> Result<Vec<u64>, AllocError>
    ensures { IfOk result (λ words. (from : ℕ) → AreBits (λ row. true) from len words.items) }
{
    let mut words = Vec::from_elem(alloc, u64::MAX, len / 64)?;
    let left = len % 64;
    if left == 0 {
        return Ok(words);
    }
    words.push((1 << left) - 1)?;
    Ok(words)
}

// A bit for each of `len` rows from `from` on in which all predicates are true.
fn kept(
    alloc: Global,
    predicates: &[Predicate<usize>],
    columns: &PredicateColumns<'_>,
    from: usize,
    len: usize,
) -> Result<Vec<u64>, AllocError>
    requires there { AreRowsOf columns.now.columns.now columns.now.read.now columns.now.count }
    requires over { All (λ predicate. NamesOnlyRead columns.now.read.now (pred_of predicate))
        predicates.now }
    requires within { from + len ≤ columns.now.count }
    requires small { from + len < 2 ^ 64 }
    ensures { IfOk result (λ words. AreBits (all_keep columns.now.columns.now columns.now.read.now
        (map pred_of predicates.now)) from len words.items) }
{
    let rows = RowRange {
        columns: *columns,
        from,
        len,
    };
    let mut words = all_rows(alloc, len)?;
    for predicate in predicates {
        keep_true(alloc, predicate, &rows, &mut words)?;
    }
    Ok(words)
}

// Adds the rows whose bits are 1, counted from `base` on.
fn push_words(selection: &mut Selection, base: usize, words: &[u64]) -> Result<(), AllocError>
    requires earlier { All (λ earlier. earlier < base) selection.old }
    requires small { base + 64 * length words.now ≤ 2 ^ 32 }
    ensures { OnOk result
        (selection.new ≡ selection.old ++ rows_among base words.now (length words.now)) }
{
    for k in 0..words.len() {
        selection.push_word((base + 64 * k) as u32, words[k])?;
    }
    Ok(())
}

/// Selects those of the rows `from` up to, not with, `to` in which all predicates are true, into an
/// empty selection.
///
/// # Errors
///
/// `AllocError` where memory is refused.
pub fn select(
    alloc: Global,
    predicates: &[Predicate<usize>],
    columns: &PredicateColumns<'_>,
    from: usize,
    to: usize,
    selection: &mut Selection,
) -> Result<(), AllocError>
    requires there { AreRowsOf columns.now.columns.now columns.now.read.now columns.now.count }
    requires over { All (λ predicate. NamesOnlyRead columns.now.read.now (pred_of predicate))
        predicates.now }
    requires ordered { from ≤ to }
    requires within { to ≤ columns.now.count }
    requires small { to + 64 ≤ 2 ^ 32 }
    requires empty { selection.old ≡ [] }
    ensures { OnOk result (selection.new
        ≡ filter (all_keep columns.now.columns.now columns.now.read.now
        (map pred_of predicates.now)) (range_with_len from (to - from))) }
{
    let mut at = from;
    while at < to {
        let end = to.min(at + BLOCK_ROWS);
        let words = kept(alloc, predicates, columns, at, end - at)?;
        push_words(selection, at, words.as_slice())?;
        at = end;
    }
    Ok(())
}
