//! Numbers of any one type, within a range.

ghost use Rattle.std.specs.Prelude.{◌≡◌, ◌≤◌, ◌<◌, ◌+◌, ◌*◌, ◌^◌, ℕ, ℤ, FitsSigned, List, length};
ghost use Rattle.std.specs.Prelude.{map, IfOk};
ghost use Rattle.std.specs.Int.{w128};
ghost use Rattle.std.specs.List.{range_with_len};
ghost use Rattle.scan_base.specs.declared.truth.Truth.{Truth as TruthValue};
ghost use Rattle.scan_base.specs.declared.value.Value.{Value};
ghost use Rattle.arrays.specs.Number.{element_at};
ghost use Rattle.arrays.specs.Validity.{IsLong};
ghost use Rattle.kernels.specs.Nulls.{IsLong-prop};
ghost use Rattle.kernels.specs.Ranges.{is_within, said_where_valid};
ghost use Rattle.kernels.specs.Ranging.{TestsBy};
ghost use Rattle.kernels.specs.Words.{bit};

use crate::ends::{Ends, ends_of};
use crate::kernel::{Kernel, SlotTruths, mask_by};
use crate::longs::of_test;
use crate::mask::Mask;
use crate::pack::pack;
use crate::range::Range;
use crate::word::Word;
use arrays::{Element, Validity};
use num_traits::{Bounded, FromPrimitive};
use scan_base::Truth;
use std::alloc::{AllocError, Global};
use std::simd::prelude::*;
use std::simd::u8x64;

/// Packed numbers in slots, and which of the slots are valid.
#[derive(Clone, Copy, Drop)]
pub struct PackedNumbers<'a> {
    pub values: &'a [u8],
    pub validity: &'a Validity,
    pub count: usize,
}

/// Whether each of `count` numbers is from one to another.
#[derive(Drop)]
pub struct RangeMembership<'a, E: Element> {
    pub values: &'a [u8],
    pub validity: &'a Validity,
    pub count: usize,
    pub least: E,
    pub most: E,
    ghost room: { E.WIDTH * count ≤ length values.now },
    ghost long: { IsLong validity.now count } by { IsLong-prop validity.now count },
}

impl<'a, E: Element> SlotTruths for RangeMembership<'a, E> {
    ghost use Rattle.arrays.specs.Number.{element_at};
    ghost use Rattle.arrays.specs.Validity.{is_valid};
    ghost use Rattle.kernels.specs.Ranges.{is_within, where_known};

    ghost count = { λ s. s.count };

    ghost truth = { λ s place. where_known (is_valid s.validity.now place)
        (is_within (E.value s.least) (E.value s.most)
        (E.value (E.of_bits (element_at E.WIDTH s.values.now place)))) };

    fn truth(&self, place: usize) -> Truth {
        if !self.validity.is_valid(place) {
            return Truth::Unknown;
        }
        of_test(self.passes(place))
    }
}

impl<'a, E: Element> Kernel for RangeMembership<'a, E> {
    type Cell = E;

    fn word(&self, from: usize) -> Word {
        Word {
            truths: self.passes_word(from),
            knowns: self.validity.valid_word(from),
        }
    }
}

impl<'a, E: Element> RangeMembership<'a, E> {
    // Whether a number is in the range, also that of a null.
    fn passes(&self, place: usize) -> bool
        requires { place < self.now.count }
        ensures { result ≡ is_within (E.value self.now.least) (E.value self.now.most)
            (E.value (E.of_bits (element_at E.WIDTH self.now.values.now place))) }
    {
        let number = E::read(self.values, place);
        (self.least <= number) & (number <= self.most)
    }

    // Which of the 64 numbers from `from` on are.
    fn passes_word(&self, from: usize) -> u64
        requires { from + 64 ≤ self.now.count }
        ensures { (row : ℕ) → row < 64 →
            bit result row ≡ is_within (E.value self.now.least) (E.value self.now.most)
            (E.value (E.of_bits (element_at E.WIDTH self.now.values.now (from + row)))) }
    {
        let mut flags = [0u8; 64];
        for k in 0..64usize {
            flags[k] = self.passes(from + k) as u8;
        }
        pack(u8x64::from_array(flags))
    }
}

/// What a test by a range says of `len` numbers of a type from `first` on.
///
/// # Errors
///
/// `AllocError` where memory is refused.
pub(crate) fn cells_in<E: Element + Bounded + FromPrimitive>(
    alloc: Global,
    packed: &PackedNumbers<'_>,
    range: &Range,
    first: usize,
    len: usize,
) -> Result<Mask, AllocError>
    requires within { first + len ≤ packed.now.count }
    requires room { E.WIDTH * packed.now.count ≤ length packed.now.values.now }
    requires long { IsLong packed.now.validity.now packed.now.count }
    requires small { first + len < 2 ^ 64 }
    requires fits { (place : ℕ) →
        E.fits (E.value (E.of_bits (element_at E.WIDTH packed.now.values.now place))) }
    requires wide { (place : ℕ) →
        FitsSigned w128 (E.value (E.of_bits (element_at E.WIDTH packed.now.values.now place))) }
    ensures { (test : Value → TruthValue) → TestsBy range.now test → IfOk result (λ mask. mask ≡ map
        (said_where_valid test packed.now.validity.now
        (λ place. E.value (E.of_bits (element_at E.WIDTH packed.now.values.now place))))
        (range_with_len first len)) }
{
    let kernel = within_ends(packed, &ends_of::<E>(range));
    let mask = mask_by(alloc, &kernel, first, len)?;
    Ok(mask.not_if(range.turned))
}

// Whether each slot is between the ends.
fn within_ends<'a, E: Element>(packed: &PackedNumbers<'a>, ends: &Ends<E>) -> RangeMembership<'a, E>
    requires room { E.WIDTH * packed.now.count ≤ length packed.now.values.now }
    requires long { IsLong packed.now.validity.now packed.now.count }
    ensures values { result.values.now ≡ packed.now.values.now }
    ensures validity { result.validity.now ≡ packed.now.validity.now }
    ensures count { result.count ≡ packed.now.count }
    ensures least { result.least ≡ ends.now.least }
    ensures most { result.most ≡ ends.now.most }
{
    RangeMembership {
        values: packed.values,
        validity: packed.validity,
        count: packed.count,
        least: ends.least,
        most: ends.most,
    }
}
