//! Parts of the keys of rows.

ghost use Rattle.std.specs.Prelude.{◌≡◌, ◌<◌, IsTrue, length, nat_lt, true};
ghost use Rattle.std.specs.List.{list_all};

use crate::codes::{code_at, have_one_code};
use arrays::Batch;
use scan_base::ValueRef;

/// A part of the key of a row of a batch.
#[derive(Clone, Copy, Drop)]
pub struct KeyPart<'a> {
    pub batch: &'a Batch,
    pub columns: &'a [usize],
    pub row: u32,
    pub part: u32,
    ghost there: { IsTrue
        (list_all (λ column. nat_lt column (length batch.now.columns)) columns.now) },
    ghost within: { row < batch.now.rows },
    ghost named: { part < length columns.now },
}

impl<'a> KeyPart<'a> {
    ghost use Rattle.coded_keys.specs.Keys.{part_in};
    ghost use Rattle.coded_keys.specs.Numbers.{value_in};

    // The code there.
    pub(crate) fn code(&self) -> ValueRef<'a> {
        let columns = self.batch.columns();
        code_at(
            &columns[self.columns[self.part as usize]],
            self.row as usize,
        )
    }

    // Whether another row has the same code there. Then it has the same value.
    pub(crate) fn has_code_of(&self, row: u32) -> bool
        requires { row < self.now.batch.now.rows }
        ensures { result ≡ true →
            value_in self.now ≡ part_in self.now.batch.now self.now.columns.now row self.now.part }
    {
        let columns = self.batch.columns();
        have_one_code(
            &columns[self.columns[self.part as usize]],
            self.row as usize,
            row as usize,
        )
    }
}
