//! Vectors of tables.

ghost use Rattle.std.specs.Prelude.{◌≡◌, ◌≤◌, ◌<◌, ◌+◌, ◌^◌, ◌↔◌, length, IsTrue};
ghost use Rattle.scan_base.specs.Reading.{Gives};
ghost use Rattle.flatbuf.specs.Place.{element_of};

use crate::number::target;
use crate::table::Table;
use scan_base::Fault;
use std::marker::Model;

/// A vector of tables of a FlatBuffers buffer. An offset is read when its table is asked for.
#[derive(Drop)]
pub struct Vector<'a> {
    bytes: &'a [u8],
    first: usize,
    count: usize,
}

// A contract sees the whole buffer, where the first offset lies, and how many there are.
impl<'a> Model for Vector<'a> {
    ghost use Rattle.std.specs.Prelude.{◌≤◌, ◌<◌, ◌+◌, ◌^◌, length};
    ghost use Rattle.flatbuf.specs.Layout.{VectorAt};

    ghost Value = { VectorAt };

    ghost view = { λ v. record { bytes = v.bytes.now; first = v.first; count = v.count } };

    ghost invariant = { λ v. (v.first ≤ length v.bytes.now + 2 ^ 33) × (v.count < 2 ^ 32) };
}

impl<'a> Vector<'a> {
    pub(crate) fn new(bytes: &'a [u8], first: usize, count: usize) -> Vector<'a>
        requires near { first ≤ length bytes.now + 2 ^ 33 }
        requires counted { count < 2 ^ 32 }
        ensures { result ≡ record { bytes = bytes.now; first = first; count = count } }
    {
        Vector {
            bytes,
            first,
            count,
        }
    }

    /// How many tables there are, by the vector's own count.
    pub fn len(&self) -> usize
        ensures { result ≡ self.now.count }
    {
        self.count
    }

    /// Whether there is no table.
    pub fn is_empty(&self) -> bool
        ensures { IsTrue result ↔ (self.now.count ≡ 0) }
    {
        self.len() == 0
    }

    /// The table of an index, from 0.
    ///
    /// # Errors
    ///
    /// `Fault::BadFlatbuffer` if the table's offset lies outside the buffer. Of the table itself
    /// nothing is read yet.
    #[tactic(auto, unfolding(crate::specs::Place::element_of))]
    pub fn table(&self, index: usize) -> Result<Table<'a>, Fault>
        requires { index < self.now.count }
        ensures { Gives (λ table. table) result (element_of self.now index) }
    {
        let at = target(self.bytes, self.first + 4 * index)?;
        Ok(Table::new(self.bytes, at))
    }
}
