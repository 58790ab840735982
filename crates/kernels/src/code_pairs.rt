//! Columns of dictionaries that are compared with each other: the texts of each pair of codes once.

ghost use Rattle.std.specs.Prelude.{◌≡◌, ◌≤◌, ◌<◌, ◌+◌, ◌*◌, ◌^◌, ℕ, length, map, IfOk, IfSome};
ghost use Rattle.std.specs.List.{range_with_len};
ghost use Rattle.scan_base.specs.Comparison.{compared};
ghost use Rattle.arrays.specs.Column.{slot_of};
ghost use Rattle.kernels.specs.Parts.{IsPart};
ghost use Rattle.kernels.specs.TextPairs.{IsPlaceIfAny, ArePairTruths};

use crate::column_part::ColumnPart;
use crate::kernel::{Kernel, SlotTruths, mask_by, slot_by_slot};
use crate::mask::Mask;
use crate::text_columns::{CodedTexts, PlainTexts};
use crate::text_pairs::{TextPairs, plain_compared};
use crate::word::Word;
use arrays::{Cells, Layout};
use scan_base::{Comparison, Truth};
use std::alloc::{AllocError, Global};

// No table has more pairs of codes: 64 KB.
const MOST_PAIRS: usize = 65_536;

// How many pairs of codes a table has for each row, at most.
const MOST_PAIRS_A_ROW: usize = 8;

type CodedPairs<'a> = TextPairs<'a, CodedTexts<'a>, CodedTexts<'a>>;

/// The truths of rows by those of their pairs of codes, as far as these are known.
#[derive(Drop)]
struct ByPair<'a> {
    pairs: &'a CodedPairs<'a>,
    truths: &'a [Truth],
    width: usize,
    ghost wide: { width ≡ length pairs.now.right.now.dictionary.now },
    ghost known: { ArePairTruths pairs.now.comparison pairs.now.left.now.dictionary.now
        pairs.now.right.now.dictionary.now truths.now },
}

impl<'a> SlotTruths for ByPair<'a> {
    ghost use Rattle.scan_base.specs.Comparison.{compared};
    ghost use Rattle.arrays.specs.Column.{slot_of};

    ghost count = { λ s. s.pairs.now.count };

    ghost truth = { λ s row. compared s.pairs.now.comparison
        (slot_of s.pairs.now.left.now.column.now row)
        (slot_of s.pairs.now.right.now.column.now row) };

    fn truth(&self, place: usize) -> Truth {
        match pair_place(self.pairs, self.width, place) {
            None => Truth::Unknown,
            Some(pair) => match self.truths[pair] {
                Truth::Unknown => self.pairs.truth(place),
                truth => truth,
            },
        }
    }
}

impl<'a> Kernel for ByPair<'a> {
    type Cell = u64;

    fn word(&self, from: usize) -> Word {
        let _count = self.pairs.count;
        slot_by_slot(self, from, 64)
    }
}

/// What a comparison of two columns says of their slots, where both are of texts.
///
/// # Errors
///
/// `AllocError` where memory is refused.
pub(crate) fn text_parts_compared(
    alloc: Global,
    comparison: Comparison,
    left: &ColumnPart<'_>,
    right: &ColumnPart<'_>,
) -> Result<Option<Mask>, AllocError>
    requires left { right.now.from + right.now.len ≤ left.now.column.now.len }
    requires right { IsPart right.now }
    ensures { IfOk result (λ found. IfSome found (λ mask. mask
        ≡ map (λ row. compared comparison (slot_of left.now.column.now row)
        (slot_of right.now.column.now row)) (range_with_len right.now.from right.now.len))) }
{
    match left.column.layout() {
        Layout::Texts(cells) => {
            let texts = PlainTexts::new(left.column, cells);
            plain_compared(alloc, comparison, &texts, right)
        }
        Layout::Indices(cells) => {
            let texts = CodedTexts::new(left.column, &cells);
            coded_compared(alloc, comparison, &texts, right)
        }
        _ => Ok(None),
    }
}

// The same where the first has the texts of a dictionary.
fn coded_compared(
    alloc: Global,
    comparison: Comparison,
    left: &CodedTexts<'_>,
    right: &ColumnPart<'_>,
) -> Result<Option<Mask>, AllocError>
    requires left { right.now.from + right.now.len ≤ left.now.column.now.len }
    requires right { IsPart right.now }
    ensures { IfOk result (λ found. IfSome found (λ mask. mask
        ≡ map (λ row. compared comparison (slot_of left.now.column.now row)
        (slot_of right.now.column.now row)) (range_with_len right.now.from right.now.len))) }
{
    let column = right.column;
    let _len = column.len();
    let count = right.from + right.len;
    match column.layout() {
        Layout::Texts(cells) => {
            let right_texts = PlainTexts::new(column, cells);
            let pairs = TextPairs {
                left,
                right: &right_texts,
                comparison,
                count,
            };
            let mask = mask_by(alloc, &pairs, right.from, right.len)?;
            Ok(Some(mask))
        }
        Layout::Indices(cells) => {
            let right_texts = CodedTexts::new(column, &cells);
            let pairs = TextPairs {
                left,
                right: &right_texts,
                comparison,
                count,
            };
            let mask = codes_compared(alloc, &pairs, right.from, right.len)?;
            Ok(Some(mask))
        }
        _ => Ok(None),
    }
}

// The truths of `len` rows from `from` on of two dictionaries: by their pairs of codes, or row by
// row where there are too many pairs.
fn codes_compared(
    alloc: Global,
    pairs: &CodedPairs<'_>,
    from: usize,
    len: usize,
) -> Result<Mask, AllocError>
    requires within { from + len ≤ pairs.now.count }
    requires small { from + len < 2 ^ 64 }
    ensures { IfOk result (λ mask. mask
        ≡ map (λ row. compared pairs.now.comparison (slot_of pairs.now.left.now.column.now row)
        (slot_of pairs.now.right.now.column.now row)) (range_with_len from len)) }
{
    match pair_truths(alloc, pairs, from, len)? {
        Some(truths) => {
            let kernel = ByPair {
                pairs,
                truths: truths.as_slice(),
                width: pairs.right.dictionary.len(),
            };
            mask_by(alloc, &kernel, from, len)
        }
        None => mask_by(alloc, pairs, from, len),
    }
}

// How many pairs of codes there are, where a table may have a truth for each.
fn pair_count(pairs: &CodedPairs<'_>, rows: usize) -> Option<usize>
    ensures { IfSome result (λ count. count
        ≡ length pairs.now.left.now.dictionary.now * length pairs.now.right.now.dictionary.now) }
{
    let lefts = pairs.left.dictionary.len();
    let count = lefts.checked_mul(pairs.right.dictionary.len())?;
    if count > MOST_PAIRS || count.div_ceil(MOST_PAIRS_A_ROW) > rows {
        return None;
    }
    Some(count)
}

// A truth for each pair of codes, unless there are too many. It is known where a row has the pair
// and both values are texts.
fn pair_truths(
    alloc: Global,
    pairs: &CodedPairs<'_>,
    from: usize,
    len: usize,
) -> Result<Option<Vec<Truth>>, AllocError>
    requires within { from + len ≤ pairs.now.count }
    requires small { from + len < 2 ^ 64 }
    ensures { IfOk result (λ found. IfSome found (λ truths.
        ArePairTruths pairs.now.comparison pairs.now.left.now.dictionary.now
        pairs.now.right.now.dictionary.now truths.items)) }
{
    let Some(count) = pair_count(pairs, len) else {
        return Ok(None);
    };
    let width = pairs.right.dictionary.len();
    let mut truths = vec![in alloc; Truth::Unknown; count]?;
    for row in from..from + len {
        compare_once(pairs, width, &mut truths, row);
    }
    Ok(Some(truths))
}

// Compares the texts of a row, where nothing is known of its pair of codes.
fn compare_once(pairs: &CodedPairs<'_>, width: usize, truths: &mut [Truth], row: usize)
    requires row { row < pairs.now.count }
    requires wide { width ≡ length pairs.now.right.now.dictionary.now }
    requires known { ArePairTruths pairs.now.comparison pairs.now.left.now.dictionary.now
        pairs.now.right.now.dictionary.now truths.old }
    ensures { ArePairTruths pairs.now.comparison pairs.now.left.now.dictionary.now
        pairs.now.right.now.dictionary.now truths.new }
{
    if let Some(pair) = pair_place(pairs, width, row) {
        if let Truth::Unknown = truths[pair] {
            truths[pair] = pairs.truth(row);
        }
    }
}

// The place of a row's pair of codes among all pairs; none where a slot is null.
fn pair_place(pairs: &CodedPairs<'_>, width: usize, row: usize) -> Option<usize>
    requires row { row < pairs.now.count }
    requires wide { width ≡ length pairs.now.right.now.dictionary.now }
    requires few { length pairs.now.left.now.dictionary.now * width < 2 ^ 64 }
    ensures { IsPlaceIfAny pairs.now.left.now.dictionary.now pairs.now.right.now.dictionary.now
        (slot_of pairs.now.left.now.column.now row) (slot_of pairs.now.right.now.column.now row)
        result }
{
    match (pairs.left.code(row), pairs.right.code(row)) {
        (Some(code), Some(other)) => Some(code * width + other),
        _ => None,
    }
}
