//! Columns of texts, row by row.

ghost use Rattle.std.specs.Prelude.{◌≡◌, ◌≤◌, ◌<◌, ◌+◌, ◌^◌, ℕ, true, length, IfSome};
ghost use Rattle.arrays.specs.Column.{slot_of};
ghost use Rattle.arrays.specs.Indices.{index_stands};
ghost use Rattle.arrays.specs.declared.layout.Layout.TheVariants.{Texts as TextsLayout};
ghost use Rattle.arrays.specs.declared.layout.Layout.TheVariants.{Indices as IndicesLayout};
ghost use Rattle.arrays.specs.Validity.{IsLong};
ghost use Rattle.kernels.specs.Nulls.{IsLong-prop};
ghost use Rattle.kernels.specs.TextPairs.{indices_into, value_of_code};

use crate::code_membership::PackedIntegers;
use crate::dictionaries::packed_indices;
use crate::row_values::RowValues;
use arrays::{Cells, Column, Dictionary, Indices, TextsRef};
use scan_base::ValueRef;

/// A column whose texts are its own.
#[derive(Drop)]
pub(crate) struct PlainTexts<'a> {
    pub(crate) column: &'a Column,
    cells: TextsRef<'a>,
    first: usize,
    ghost layout: { column.now.layout ≡ TextsLayout cells },
    ghost begins: { first ≡ column.now.first },
    ghost within: { first + column.now.len ≤ cells.len },
    ghost small: { first + column.now.len < 2 ^ 64 },
    ghost long: { IsLong cells.validity cells.len } by { IsLong-prop cells.validity cells.len },
}

impl<'a> PlainTexts<'a> {
    pub(crate) fn new(column: &'a Column, cells: TextsRef<'a>) -> PlainTexts<'a>
        requires { column.now.layout ≡ TextsLayout cells }
        ensures { result.column.now ≡ column.now }
    {
        let _len = column.len();
        PlainTexts {
            column,
            cells,
            first: column.first(),
        }
    }
}

impl<'a> RowValues for PlainTexts<'a> {
    ghost column = { λ s. s.column.now };

    fn value_in(&self, row: usize) -> ValueRef<'_> {
        let place = self.first + row;
        if !self.cells.validity().is_valid(place) {
            return ValueRef::Null;
        }
        ValueRef::Text(self.cells.get(place))
    }
}

/// A column whose texts are those of a dictionary.
#[derive(Drop)]
pub(crate) struct CodedTexts<'a> {
    pub(crate) column: &'a Column,
    pub(crate) dictionary: &'a Dictionary,
    indices: PackedIntegers<'a>,
    first: usize,
    ghost layout: { column.now.layout ≡ IndicesLayout (indices_into dictionary.now indices) },
    ghost begins: { first ≡ column.now.first },
    ghost within: { first + column.now.len ≤ indices.count },
    ghost small: { first + column.now.len < 2 ^ 64 },
    ghost stand: { (place : ℕ) → place < indices.count →
        index_stands (indices_into dictionary.now indices) place ≡ true },
}

impl<'a> CodedTexts<'a> {
    pub(crate) fn new(column: &'a Column, cells: &Indices<'a>) -> CodedTexts<'a>
        requires { column.now.layout ≡ IndicesLayout cells.now }
        ensures { result.column.now ≡ column.now }
    {
        let _len = column.len();
        CodedTexts {
            column,
            dictionary: cells.dictionary(),
            indices: packed_indices(cells, cells.len()),
            first: column.first(),
        }
    }

    /// The code of a row's text; none where the slot is null.
    pub(crate) fn code(&self, row: usize) -> Option<usize>
        requires { row < self.now.column.now.len }
        ensures value { slot_of self.now.column.now row
            ≡ value_of_code self.now.dictionary.now result }
        ensures within { IfSome result (λ code. code < length self.now.dictionary.now) }
    {
        let place = self.first + row;
        if !self.indices.is_valid(place) {
            return None;
        }
        Some(self.indices.code(place) as usize)
    }
}

impl<'a> RowValues for CodedTexts<'a> {
    ghost column = { λ s. s.column.now };

    fn value_in(&self, row: usize) -> ValueRef<'_> {
        match self.code(row) {
            Some(code) => self.dictionary.get(code).unwrap_or(ValueRef::Null),
            None => ValueRef::Null,
        }
    }
}
