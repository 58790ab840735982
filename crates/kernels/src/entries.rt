//! What a predicate says of the entries of a dictionary.

ghost use Rattle.std.specs.Prelude.{◌≡◌, ◌≤◌, ◌<◌, ◌+◌, ◌^◌, ℕ, true, length, map, get_or, IfOk};
ghost use Rattle.std.specs.Prelude.{IfSome};
ghost use Rattle.std.specs.List.{range_with_len};
ghost use Rattle.arrays.specs.Validity.{is_valid};
ghost use Rattle.kernels.specs.Codes.{code_at};
ghost use Rattle.kernels.specs.EntryTruths.{entry_truth};
ghost use Rattle.scan_base.specs.Value.{value_of};
ghost use Rattle.scan_base.specs.View.{pred_of};
ghost use Rattle.kernels.specs.Entries.{truth_at, truths_at, unless_known, AreTrueAt, IsPushed};

use crate::code_membership::{CodeMembership, PackedIntegers};
use crate::kernel::{Kernel, SlotTruths, mask_by, slot_by_slot};
use crate::mask::Mask;
use crate::word::Word;
use arrays::Dictionary;
use scan_base::{Predicate, RowCells, Truth, ValueRef};
use std::alloc::{AllocError, Global};

// A row that has the same value in each column.
#[derive(Drop)]
struct SameCells<'a> {
    value: ValueRef<'a>,
}

impl<'a> RowCells<usize> for SameCells<'a> {
    ghost use Rattle.std.specs.Prelude.{true};
    ghost use Rattle.scan_base.specs.Value.{value_of};

    ghost cell = { λ row column. value_of row.value };

    ghost has = { λ row column. true };

    fn cell(&self, column: &usize) -> ValueRef<'_> {
        let _ = column;
        self.value
    }
}

/// The truth of a predicate where each column has the same value.
pub(crate) fn truth_at(predicate: &Predicate<usize>, value: ValueRef<'_>) -> Truth
    ensures { result ≡ truth_at (pred_of predicate.now) (value_of value.entry) }
{
    predicate.truth(&SameCells { value })
}

/// What a predicate says of each entry of a dictionary.
pub(crate) fn truths_at(
    alloc: Global,
    predicate: &Predicate<usize>,
    dictionary: &Dictionary,
) -> Result<Vec<Truth>, AllocError>
    ensures { IfOk result
        (λ truths. truths.items ≡ truths_at (pred_of predicate.now) dictionary.now) }
{
    let count = dictionary.len();
    let mut truths = Vec::with_capacity(alloc, count)?;
    for index in 0..count {
        truths.push(truth_at(predicate, dictionary.get(index).unwrap_or(ValueRef::Null)))?;
    }
    Ok(truths)
}

// How many entries may be true where they are looked for one after another.
const FEW: usize = 8;

// Which entries are true, where all are known and few are true.
fn few_true(alloc: Global, truths: &[Truth]) -> Result<Option<Vec<u64>>, AllocError>
    ensures { IfOk result (λ found. IfSome found (λ indices. AreTrueAt truths.now indices.items)) }
{
    let mut indices = Vec::new(alloc);
    for index in 0..truths.len() {
        if !push_true(&mut indices, index, truths[index])? {
            return Ok(None);
        }
    }
    Ok(Some(indices))
}

// Adds an index whose entry is true, and says whether its truth is known and few indices are there.
fn push_true(indices: &mut Vec<u64>, index: usize, truth: Truth) -> Result<bool, AllocError>
    ensures { IfOk result
        (λ goes_on. goes_on ≡ true → IsPushed indices.old.items index truth indices.new.items) }
{
    match truth {
        Truth::True => {
            indices.push(index as u64)?;
            Ok(indices.len() <= FEW)
        }
        Truth::False => Ok(true),
        Truth::Unknown => Ok(false),
    }
}

/// The truths of slots by those of their entries, and of those that are null by that of NULL.
#[derive(Clone, Copy, Drop)]
pub(crate) struct ByEntry<'a> {
    pub(crate) indices: PackedIntegers<'a>,
    pub(crate) truths: &'a [Truth],
    pub(crate) of_null: Truth,
}

impl<'a> SlotTruths for ByEntry<'a> {
    ghost use Rattle.kernels.specs.EntryTruths.{entry_truth};

    ghost count = { λ s. s.indices.count };

    ghost truth = { entry_truth };

    fn truth(&self, place: usize) -> Truth {
        if !self.indices.is_valid(place) {
            return self.of_null;
        }
        truth_of(self.truths, self.indices.code(place), self.of_null)
    }
}

impl<'a> Kernel for ByEntry<'a> {
    type Cell = u64;

    fn word(&self, from: usize) -> Word {
        let _count = self.indices.count;
        slot_by_slot(self, from, 64)
    }
}

impl<'a> ByEntry<'a> {
    /// The truths of `len` slots from `first` on.
    ///
    /// # Errors
    ///
    /// `AllocError` where memory is refused.
    pub(crate) fn mask(&self, alloc: Global, first: usize, len: usize) -> Result<Mask, AllocError>
        requires within { first + len ≤ self.now.indices.count }
        requires stand { (place : ℕ) → place < self.now.indices.count →
            is_valid self.now.indices.validity.now place ≡ true →
            code_at self.now.indices.integer self.now.indices.values.now place
            < length self.now.truths.now }
        requires small { first + len < 2 ^ 64 }
        ensures { IfOk result
            (λ mask. mask ≡ map (entry_truth self.now) (range_with_len first len)) }
    {
        match few_true(alloc, self.truths)? {
            Some(codes) => {
                let kernel = CodeMembership {
                    numbers: self.indices,
                    codes: codes.as_slice(),
                };
                let mask = mask_by(alloc, &kernel, first, len)?;
                Ok(where_null(mask, self.of_null))
            }
            None => mask_by(alloc, self, first, len),
        }
    }
}

// What is said of a null in place of unknown.
fn where_null(mask: Mask, of_null: Truth) -> Mask
    ensures { result ≡ map (unless_known of_null) mask }
{
    match of_null {
        Truth::True => mask.not().is(Truth::True).not(),
        Truth::False => mask.is(Truth::True),
        Truth::Unknown => mask,
    }
}

// The truth of an entry.
fn truth_of(truths: &[Truth], index: u64, otherwise: Truth) -> Truth
    ensures { result ≡ get_or truths.now index otherwise }
{
    match truths.get(index as usize) {
        Some(truth) => *truth,
        None => otherwise,
    }
}
