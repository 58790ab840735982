//! Columns of texts that are compared with one.

ghost use Rattle.std.specs.Prelude.{◌≡◌, ◌≤◌, ◌<◌, ◌+◌, ◌==◌, ◌*◌, ℕ, Bool, true, length, not};
ghost use Rattle.std.specs.Prelude.{if◌then◌else◌, IfOk, IfSome};
ghost use Rattle.std.specs.Ordering.{is_eq};
ghost use Rattle.std.specs.Simd.Lanes.{mask_l};
ghost use Rattle.scan_base.specs.Comparison.{compared, satisfies};
ghost use Rattle.scan_base.specs.declared.comparison.Comparison.TheVariants.{Equal as EqualTo};
ghost use Rattle.scan_base.specs.declared.truth.Truth.{Truth as TruthValue};
ghost use Rattle.scan_base.specs.declared.value.Value.{Value as CellValue};
ghost use Rattle.scan_base.specs.declared.value.Value.TheVariants.{Text};
ghost use Rattle.scan_base.specs.Truth.{negated_if};
ghost use Rattle.arrays.specs.Validity.{IsLong};
ghost use Rattle.kernels.specs.Nulls.{IsLong-prop};
ghost use Rattle.kernels.specs.Parts.{IsPart, said_of};
ghost use Rattle.kernels.specs.Tests.{tests};
ghost use Rattle.kernels.specs.TextTests.{AreCut, cut_at, is_far, is_text_at};
ghost use Rattle.kernels.specs.Words.{bit};

use crate::column_part::ColumnPart;
use crate::kernel::{Kernel, SlotTruths, mask_by};
use crate::longs::of_test;
use crate::mask::Mask;
use crate::needle::Needle;
use crate::word::Word;
use arrays::{Cells, Element, Layout, TextsRef, Validity};
use scan_base::{Comparison, Truth};
use std::alloc::{AllocError, Global};
use std::simd::prelude::*;
use std::simd::{u8x64, u32x16};

/// What a comparison with a text says of slots, where they are texts and it is `=` or `<>`.
///
/// # Errors
///
/// `AllocError` where memory is refused.
pub(crate) fn texts_compared(
    alloc: Global,
    part: &ColumnPart<'_>,
    comparison: Comparison,
    other: &str,
) -> Result<Option<Mask>, AllocError>
    requires { IsPart part.now }
    ensures { IfOk result (λ found. IfSome found
        (λ mask. mask ≡ said_of (λ value. compared comparison value (Text other.now)) part.now)) }
{
    match comparison {
        Comparison::Equal => texts_equal(alloc, part, other),
        Comparison::NotEqual => match texts_equal(alloc, part, other)? {
            Some(mask) => Ok(Some(mask.not())),
            None => Ok(None),
        },
        _ => Ok(None),
    }
}

// What `=` says of slots, where they are texts.
fn texts_equal(
    alloc: Global,
    part: &ColumnPart<'_>,
    other: &str,
) -> Result<Option<Mask>, AllocError>
    requires { IsPart part.now }
    ensures { IfOk result (λ found. IfSome found
        (λ mask. mask ≡ said_of (λ value. compared EqualTo value (Text other.now)) part.now)) }
{
    let column = part.column;
    let _len = column.len();
    match column.layout() {
        Layout::Texts(cells) => {
            let kernel = equal_texts(&cells, other);
            let mask = mask_by(alloc, &kernel, column.first() + part.from, part.len)?;
            Ok(Some(mask))
        }
        _ => Ok(None),
    }
}

// Whether each of `count` texts is the one that is looked for.
#[derive(Drop)]
struct EqualTexts<'a> {
    offsets: &'a [u8],
    bytes: &'a [u8],
    validity: &'a Validity,
    count: usize,
    needle: Needle<'a>,
    ghost cut: { AreCut offsets.now bytes.now count },
    ghost long: { IsLong validity.now count } by { IsLong-prop validity.now count },
}

// Whether each of some slots of texts is a text.
fn equal_texts<'a>(cells: &TextsRef<'a>, text: &'a str) -> EqualTexts<'a>
    ensures offsets { result.offsets.now ≡ (cells.now).offsets }
    ensures bytes { result.bytes.now ≡ (cells.now).bytes }
    ensures validity { result.validity.now ≡ (cells.now).validity }
    ensures count { result.count ≡ (cells.now).len }
    ensures needle { result.needle ≡ text.now }
{
    EqualTexts {
        offsets: cells.offsets(),
        bytes: cells.bytes(),
        validity: cells.validity(),
        count: cells.len(),
        needle: Needle::new(text.as_bytes()),
    }
}

impl<'a> SlotTruths for EqualTexts<'a> {
    ghost use Rattle.arrays.specs.Validity.{is_valid};
    ghost use Rattle.kernels.specs.Ranges.{where_known};
    ghost use Rattle.kernels.specs.TextTests.{is_text_at};

    ghost count = { λ s. s.count };

    ghost truth = { λ s place. where_known (is_valid s.validity.now place)
        (is_text_at s.needle s.offsets.now s.bytes.now place) };

    fn truth(&self, place: usize) -> Truth {
        if !self.validity.is_valid(place) {
            return Truth::Unknown;
        }
        of_test(self.is_needle(place))
    }
}

impl<'a> Kernel for EqualTexts<'a> {
    type Cell = &'a str;

    fn word(&self, from: usize) -> Word {
        Word {
            truths: self.equal_word(from, self.long_word(from)),
            knowns: self.validity.valid_word(from),
        }
    }
}

impl<'a> EqualTexts<'a> {
    // Whether a text is the one that is looked for, also that of a null.
    fn is_needle(&self, place: usize) -> bool
        requires { place < self.now.count }
        ensures { result
            ≡ is_text_at self.now.needle self.now.offsets.now self.now.bytes.now place }
    {
        if !self.is_long(place) {
            return false;
        }
        self.is_equal(place)
    }

    // Whether a text is as long as the one that is looked for.
    fn is_long(&self, place: usize) -> bool
        requires { place < self.now.count }
        ensures { result ≡ (length (cut_at self.now.offsets.now self.now.bytes.now place)
            == length self.now.needle) }
    {
        let _count = self.count;
        let begin = u32::read(self.offsets, place) as usize;
        let end = u32::read(self.offsets, place + 1) as usize;
        end - begin == self.needle.len()
    }

    // Whether a text that is as long is it.
    fn is_equal(&self, place: usize) -> bool
        requires within { place < self.now.count }
        requires long { length (cut_at self.now.offsets.now self.now.bytes.now place)
            ≡ length self.now.needle }
        ensures { result
            ≡ is_text_at self.now.needle self.now.offsets.now self.now.bytes.now place }
    {
        let _count = self.count;
        self.needle
            .stands_at(self.bytes, u32::read(self.offsets, place) as usize)
    }

    // Which of the 64 texts from `from` on are as long.
    fn long_word(&self, from: usize) -> u64
        requires { from + 64 ≤ self.now.count }
        ensures { (row : ℕ) → row < 64 → bit result row
            ≡ (length (cut_at self.now.offsets.now self.now.bytes.now (from + row))
            == length self.now.needle) }
    {
        let _count = self.count;
        let len = self.needle.len();
        if len >= 1 << 32 {
            return 0;
        }
        far_word(self.offsets, from, len as u32)
    }

    // Which of the 64 texts from `from` on are it; `long` tells those that are as long.
    fn equal_word(&self, from: usize, long: u64) -> u64
        requires within { from + 64 ≤ self.now.count }
        requires long { (row : ℕ) → row < 64 → bit long row
            ≡ (length (cut_at self.now.offsets.now self.now.bytes.now (from + row))
            == length self.now.needle) }
        ensures { (row : ℕ) → row < 64 → bit result row
            ≡ is_text_at self.now.needle self.now.offsets.now self.now.bytes.now (from + row) }
    {
        let _count = self.count;
        let mut left = long;
        let mut equal = 0u64;
        while left != 0 {
            let row = left.trailing_zeros();
            equal = equal | ((self.is_equal(from + row as usize) as u64) << row);
            left = left & !(1 << row);
        }
        equal
    }
}

// Which of 64 offsets from `from` on are so far from the one after them.
fn far_word(offsets: &[u8], from: usize, far: u32) -> u64
    requires { 4 * (from + 65) ≤ length offsets.now }
    ensures { (row : ℕ) → row < 64 → bit result row ≡ is_far far offsets.now (from + row) }
{
    let mut word = 0u64;
    for k in 0..4usize {
        word = word * 65536 + far_lanes(offsets, from + 16 * (3 - k), far);
    }
    word
}

// The same of 16 offsets.
fn far_lanes(offsets: &[u8], from: usize, far: u32) -> u64
    requires { 4 * (from + 17) ≤ length offsets.now }
    ensures { result ≡ mask_l (tests (is_far far offsets.now) from 16) }
{
    let begins = u32x16::from_le_bytes(u8x64::from_slice(&offsets[4 * from..4 * from + 64]));
    let ends = u32x16::from_le_bytes(u8x64::from_slice(&offsets[4 * from + 4..4 * from + 68]));
    (ends - begins).simd_eq(u32x16::splat(far)).to_bitmask()
}
