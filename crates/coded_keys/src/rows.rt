//! Rows of a batch by their keys.

ghost use Rattle.std.specs.Prelude.{◌≡◌, ◌<◌, All, IsTrue, get_or, length, nat_lt, true};
ghost use Rattle.std.specs.List.{list_all};
ghost use Rattle.scan_base.specs.declared.value.Value.TheVariants.{Null};

use crate::codes::{code_at, have_one_code, take_code};
use arrays::{Batch, Layout};
use std::hash::{DefaultHasher, Hasher};

/// Rows of a batch, and the columns whose values in them are their keys. A row is named by its
/// place in the list of rows.
#[derive(Clone, Copy, Drop)]
pub struct KeyRows<'a> {
    pub batch: &'a Batch,
    pub columns: &'a [usize],
    pub rows: &'a [u32],
    ghost there: { IsTrue
        (list_all (λ column. nat_lt column (length batch.now.columns)) columns.now) },
    ghost within: { All (λ row. row < batch.now.rows) rows.now },
}

impl<'a> KeyRows<'a> {
    ghost use Rattle.coded_keys.specs.Keys.{key_at_place};

    /// Whether a column of the key has indices into a dictionary.
    pub fn has_codes(&self) -> bool {
        let columns = self.batch.columns();
        for part in 0..self.columns.len() {
            if let Layout::Indices(_) = columns[self.columns[part]].layout() {
                return true;
            }
        }
        false
    }

    // The hash of the codes of a row's key, begun with what a hasher has taken in.
    pub(crate) fn hash_from(&self, begun: DefaultHasher, place: usize) -> u64
        requires { place < length self.now.rows.now }
    {
        let columns = self.batch.columns();
        let row = self.rows[place] as usize;
        let mut hasher = begun;
        for part in 0..self.columns.len() {
            take_code(&mut hasher, code_at(&columns[self.columns[part]], row));
        }
        hasher.finish()
    }

    // Whether two rows have the same codes in each part of the key. Then they have the same key.
    pub(crate) fn are_alike(&self, place: usize, other: usize) -> bool
        requires place { place < length self.now.rows.now }
        requires other { other < length self.now.rows.now }
        ensures { result ≡ true → key_at_place self.now place ≡ key_at_place self.now other }
    {
        for part in 0..self.columns.len() {
            if !self.is_alike(part, place, other) {
                return false;
            }
        }
        true
    }

    // Whether two rows have the same code in a part of the key.
    fn is_alike(&self, part: usize, place: usize, other: usize) -> bool
        requires part { part < length self.now.columns.now }
        requires place { place < length self.now.rows.now }
        requires other { other < length self.now.rows.now }
        ensures { result ≡ true →
            get_or (key_at_place self.now place) part Null
            ≡ get_or (key_at_place self.now other) part Null }
    {
        let columns = self.batch.columns();
        have_one_code(
            &columns[self.columns[part]],
            self.rows[place] as usize,
            self.rows[other] as usize,
        )
    }
}
