//! Rows by the parts of their keys.

ghost use Rattle.std.specs.Prelude.{◌≡◌, ◌<◌, ℕ, List, get_or, length, map, true};
ghost use Rattle.scan_base.specs.Value.{value_of};
ghost use Rattle.scan_base.specs.declared.value.Value.{Value};
ghost use Rattle.scan_base.specs.declared.value.Value.TheVariants.{Null};
ghost use Rattle.hash_join.specs.KeyRows.{IsKeyRow};

use crate::key_row::KeyRow;
use scan_base::ValueRef;

// Rows whose keys have so many parts.
pub(crate) trait PartRows {
    ghost count: { Self → ℕ };

    ghost parts: { Self → ℕ };

    ghost key: { Self → ℕ → List Value };

    // How many rows there are.
    fn row_count(&self) -> usize
        ensures { result ≡ count self.now };

    // How many parts a key has.
    fn part_count(&self) -> usize
        ensures count { result ≡ parts self.now }
        ensures each { (row : ℕ) → length (key self.now row) ≡ parts self.now };

    // The number of a row's batch. No contract rests on it.
    fn batch_number(&self, row: usize) -> usize
        requires { row < count self.now };

    // The value of a part of a row's key, where it lies.
    fn part(&self, row: usize, part: usize) -> ValueRef<'_>
        requires row { row < count self.now }
        requires part { part < parts self.now }
        ensures { value_of result ≡ get_or (key self.now row) part Null };

    // The number of a part's column. No contract rests on it.
    fn part_column(&self, part: usize) -> usize
        requires { part < parts self.now };

    // Whether two parts of a key are one column, as far as it may be told.
    fn is_one_column(&self, part: usize, other: usize) -> bool
        requires { part < parts self.now }
        ensures { result ≡ true → (row : ℕ) →
            get_or (key self.now row) part Null ≡ get_or (key self.now row) other Null };

    // The code of a part of a row's key.
    fn part_code(&self, row: usize, part: usize) -> Option<i128>
        requires row { row < count self.now }
        requires part { part < parts self.now };

    // Whether the keys of two rows are the same in a part by its codes alone.
    fn have_part_code(&self, row: usize, other: usize, part: usize) -> bool
        requires row { row < count self.now }
        requires other { other < count self.now }
        requires part { part < parts self.now }
        ensures { result ≡ true →
            get_or (key self.now row) part Null ≡ get_or (key self.now other) part Null };
}

// Whether two parts of a key are one column: whatever its cells are, they are the same in both.
pub(crate) fn are_one_column(key: &[usize], part: usize, other: usize) -> bool
    requires { part < length key.now }
    ensures { result ≡ true → (cell : ℕ → Value) →
        get_or (map cell key.now) part Null ≡ get_or (map cell key.now) other Null }
{
    if other >= key.len() {
        return false;
    }
    key[part] == key[other]
}

// The rows of one batch, by the key of one of them.
#[derive(Clone, Copy, Drop)]
pub(crate) struct BatchRows<'a> {
    pub(crate) at: KeyRow<'a>,
    ghost there: { IsKeyRow at },
}

impl<'a> PartRows for BatchRows<'a> {
    ghost use Rattle.hash_join.specs.KeyRows.{key_beside};

    ghost count = { λ rows. rows.at.batch.now.rows };

    ghost parts = { λ rows. length rows.at.key.now };

    ghost key = { λ rows row. key_beside rows.at row };

    fn row_count(&self) -> usize {
        self.at.batch.rows()
    }

    fn part_count(&self) -> usize {
        self.at.key.len()
    }

    fn batch_number(&self, _row: usize) -> usize {
        0
    }

    fn part(&self, row: usize, part: usize) -> ValueRef<'_> {
        self.at.part_in(row, part)
    }

    fn part_column(&self, part: usize) -> usize {
        self.at.key[part]
    }

    fn is_one_column(&self, part: usize, other: usize) -> bool {
        are_one_column(self.at.key, part, other)
    }

    fn part_code(&self, row: usize, part: usize) -> Option<i128> {
        let at = KeyRow {
            batch: self.at.batch,
            key: self.at.key,
            row,
        };
        at.part_code(part)
    }

    fn have_part_code(&self, row: usize, other: usize, part: usize) -> bool {
        let at = KeyRow {
            batch: self.at.batch,
            key: self.at.key,
            row,
        };
        at.has_part_of(part, other)
    }
}
