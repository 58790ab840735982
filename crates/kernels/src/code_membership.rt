//! Packed numbers among others.

ghost use Rattle.std.specs.Prelude.{◌≡◌, ◌==◌, ◌≤◌, ◌<◌, ◌+◌, ◌*◌, ℕ, length};
ghost use Rattle.arrays.specs.Number.{byte_width};
ghost use Rattle.arrays.specs.Validity.{is_valid, IsLong};
ghost use Rattle.kernels.specs.Codes.{code_at, is_among};
ghost use Rattle.kernels.specs.Nulls.{IsLong-prop};
ghost use Rattle.kernels.specs.Words.{bit};

use crate::codes::{code_at, word_with_code};
use crate::kernel::{Kernel, SlotTruths};
use crate::longs::of_test;
use crate::word::Word;
use arrays::Validity;
use arrow_types::IntegerType;
use scan_base::Truth;

/// The packed numbers of `count` slots, and which of the slots are valid.
#[derive(Clone, Copy, Drop)]
pub(crate) struct PackedIntegers<'a> {
    pub(crate) integer: IntegerType,
    pub(crate) values: &'a [u8],
    pub(crate) validity: &'a Validity,
    pub(crate) count: usize,
    ghost room: { byte_width integer * count ≤ length values.now },
    ghost long: { IsLong validity.now count } by { IsLong-prop validity.now count },
}

impl<'a> PackedIntegers<'a> {
    /// Whether a slot is valid.
    pub(crate) fn is_valid(&self, place: usize) -> bool
        requires { place < self.now.count }
        ensures { result ≡ is_valid self.now.validity.now place }
    {
        let _count = self.count;
        self.validity.is_valid(place)
    }

    /// Which of the 64 slots from `from` on are valid.
    pub(crate) fn valid_word(&self, from: usize) -> u64
        requires { from + 64 ≤ self.now.count }
        ensures { (row : ℕ) → row < 64 →
            bit result row ≡ is_valid self.now.validity.now (from + row) }
    {
        let _count = self.count;
        self.validity.valid_word(from)
    }

    /// The code of a slot's number, also that of a null.
    pub(crate) fn code(&self, place: usize) -> u64
        requires { place < self.now.count }
        ensures { result ≡ code_at self.now.integer self.now.values.now place }
    {
        let _count = self.count;
        code_at(self.integer, self.values, place)
    }

    // Which of the 64 numbers from `from` on have a code.
    fn word_with_code(&self, from: usize, code: u64) -> u64
        requires { from + 64 ≤ self.now.count }
        ensures { (row : ℕ) → row < 64 →
            bit result row ≡ (code_at self.now.integer self.now.values.now (from + row) == code) }
    {
        let _count = self.count;
        word_with_code(self.integer, self.values, from, code)
    }
}

/// Whether the code of each number is one of some.
#[derive(Clone, Copy, Drop)]
pub(crate) struct CodeMembership<'a> {
    pub(crate) numbers: PackedIntegers<'a>,
    pub(crate) codes: &'a [u64],
}

impl<'a> SlotTruths for CodeMembership<'a> {
    ghost use Rattle.arrays.specs.Validity.{is_valid};
    ghost use Rattle.kernels.specs.Codes.{code_at, is_among};
    ghost use Rattle.kernels.specs.Ranges.{where_known};

    ghost count = { λ s. s.numbers.count };

    ghost truth = { λ s place. where_known (is_valid s.numbers.validity.now place)
        (is_among s.codes.now (code_at s.numbers.integer s.numbers.values.now place)) };

    fn truth(&self, place: usize) -> Truth {
        if !self.numbers.is_valid(place) {
            return Truth::Unknown;
        }
        of_test(contains(self.codes, self.numbers.code(place)))
    }
}

impl<'a> Kernel for CodeMembership<'a> {
    type Cell = u64;

    fn word(&self, from: usize) -> Word {
        Word {
            truths: among_word(&self.numbers, self.codes, from),
            knowns: self.numbers.valid_word(from),
        }
    }
}

// Whether a code is one of some.
fn contains(codes: &[u64], code: u64) -> bool
    ensures { result ≡ is_among codes.now code }
{
    codes.contains(&code)
}

// Which of the 64 numbers from `from` on have one of some codes.
fn among_word(numbers: &PackedIntegers<'_>, codes: &[u64], from: usize) -> u64
    requires { from + 64 ≤ numbers.now.count }
    ensures { (row : ℕ) → row < 64 → bit result row
        ≡ is_among codes.now (code_at numbers.now.integer numbers.now.values.now (from + row)) }
{
    let mut word = 0u64;
    for code in codes {
        word = word | numbers.word_with_code(from, *code);
    }
    word
}
