//! Keys whose long texts have a number.

ghost use Rattle.std.specs.Prelude.{◌≡◌, ◌<◌, IsTrue, None, get_or, length, nat_lt, option_map};
ghost use Rattle.std.specs.List.{list_all};
ghost use Rattle.scan_base.specs.Value.{value_of};

use crate::cell::{are_same_parts, hash_part, hash_texts, rest};
use crate::key::{RowKey, cell_at};
use arrays::Batch;
use scan_base::ValueRef;
use std::hash::{Hash, Hasher};

/// A first row, and the number of the long texts of its key: 0 where none has one. Then the texts
/// themselves are compared. The two numbers of 32 bits lie side by side, so that a key takes no
/// more than its row.
#[derive(Clone, Copy, Drop)]
pub(crate) struct NumberedKey<'t> {
    pub(crate) number: usize,
    pub(crate) batch: &'t Batch,
    pub(crate) columns: &'t [usize],
    pub(crate) row: u32,
    pub(crate) texts: u32,
    ghost there: { IsTrue
        (list_all (λ column. nat_lt column (length batch.now.columns)) columns.now) },
    ghost within: { row < batch.now.rows },
}

impl<'t> NumberedKey<'t> {
    ghost use Rattle.first_rows.specs.NumberedKeys.{first_of, rest_of};
    ghost use Rattle.first_rows.specs.RowKeys.{key_of};

    /// A row, and the number of its long texts.
    pub(crate) fn new(first: RowKey<'t>, texts: u32) -> NumberedKey<'t>
        ensures first { first_of result ≡ first.entry }
        ensures texts { result.texts ≡ texts }
    {
        NumberedKey {
            number: first.number,
            batch: first.batch,
            columns: first.columns,
            row: first.row,
            texts,
        }
    }

    /// The row.
    pub(crate) fn first(&self) -> RowKey<'t>
        ensures { result ≡ first_of self.now }
    {
        RowKey {
            number: self.number,
            batch: self.batch,
            columns: self.columns,
            row: self.row,
        }
    }

    // What is compared of the value at a place of the key, next to the number.
    fn part(&self, place: usize) -> Option<ValueRef<'t>>
        requires { place < length self.now.columns.now }
        ensures { option_map value_of result ≡ get_or (rest_of self.now) place None }
    {
        rest(
            self.texts,
            cell_at(self.batch, self.columns, self.row, place),
        )
    }
}

impl<'t> PartialEq for NumberedKey<'t> {
    ghost use Rattle.std.specs.Cmp.{on_per, partial_equiv_from_equiv};
    ghost use Rattle.first_rows.specs.NumberedKeys.{coded};
    ghost use Rattle.first_rows.specs.Parts.{same_parts, same_parts_laws};

    ghost eq = { λ a b. same_parts (coded a) (coded b) };

    ghost laws = { on_per coded (partial_equiv_from_equiv same_parts_laws) };

    fn eq(&self, other: &NumberedKey<'t>) -> bool {
        if self.texts != other.texts || self.columns.len() != other.columns.len() {
            return false;
        }
        for place in 0..self.columns.len() {
            if !are_same_parts(self.part(place), other.part(place)) {
                return false;
            }
        }
        true
    }
}

impl<'t> Eq for NumberedKey<'t> {
    ghost use Rattle.std.specs.Cmp.{on_equiv};
    ghost use Rattle.first_rows.specs.NumberedKeys.{coded};
    ghost use Rattle.first_rows.specs.Parts.{same_parts_laws};

    ghost laws = { on_equiv coded same_parts_laws };
}

impl<'t> Hash for NumberedKey<'t> {
    ghost use Rattle.first_rows.specs.NumberedKeys.{coded_input, same_coded_input};

    ghost hash_input = { coded_input };

    ghost respects_eq = { same_coded_input };

    fn hash<H: Hasher>(&self, state: &mut H) {
        hash_texts(self.texts, state);
        for place in 0..self.columns.len() {
            hash_part(self.part(place), state);
        }
    }
}
