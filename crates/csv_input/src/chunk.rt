//! Records of one length, whose fields stand one after another.

ghost use Rattle.std.specs.Prelude.{◌≡◌, ◌<◌, ◌+◌, ◌++◌, [], OnOk, length};
ghost use Rattle.csv.specs.Records.{fields_of, partial_of};
ghost use Rattle.csv_input.specs.inside.Chunks.{field_in};

use array_select::MOST_BATCH_ROWS;
use csv::ByteRecord;
use std::alloc::{AllocError, Global};
use std::marker::Model;

/// Records of one length, whose fields stand one after another, so that none takes memory of its
/// own. A contract sees how many fields each has, how many records there are, and all fields.
#[derive(Drop)]
pub(crate) struct Chunk {
    fields: ByteRecord,
    width: usize,
    rows: usize,
}

impl Model for Chunk {
    ghost use Rattle.std.specs.Prelude.{◌≡◌, ◌*◌, [], length};
    ghost use Rattle.csv.specs.Records.{fields_of, partial_of};
    ghost use Rattle.csv_input.specs.inside.Chunks.{ChunkAt};

    ghost Value = { ChunkAt };

    ghost view = { λ chunk.
        record { width = chunk.width; rows = chunk.rows; fields = fields_of chunk.fields } };

    ghost invariant = { λ chunk. (length (fields_of chunk.fields) ≡ chunk.width * chunk.rows)
        × (partial_of chunk.fields ≡ []) };
}

impl Chunk {
    /// No records of so many fields. It takes no memory.
    pub(crate) fn new(alloc: Global, width: usize) -> Chunk
        ensures { result ≡ record { width = width; rows = 0; fields = [] } }
    {
        Chunk {
            fields: ByteRecord::new(alloc),
            width,
            rows: 0,
        }
    }

    /// How many fields each record has.
    pub(crate) fn width(&self) -> usize
        ensures { result ≡ self.now.width }
    {
        self.width
    }

    /// How many records there are.
    pub(crate) fn rows(&self) -> usize
        ensures { result ≡ self.now.rows }
    {
        self.rows
    }

    /// How many bytes all fields have.
    pub(crate) fn bytes(&self) -> usize {
        self.fields.as_slice().len()
    }

    /// A field of a record.
    pub(crate) fn field(&self, row: usize, column: usize) -> &[u8]
        requires row { row < self.now.rows }
        requires column { column < self.now.width }
        ensures { result.now ≡ field_in self.now row column }
    {
        let _count = self.fields.len();
        self.fields.get(self.width * row + column).unwrap_or(&[])
    }

    /// Adds a record of so many fields after the others. Where memory is refused there are none.
    pub(crate) fn push(&mut self, fields: &ByteRecord) -> Result<(), AllocError>
        requires room { self.old.rows < MOST_BATCH_ROWS }
        requires long { length (fields_of fields.now) ≡ self.old.width }
        ensures { OnOk result (self.new ≡ record {
          width = self.old.width;
          rows = self.old.rows + 1;
          fields = self.old.fields ++ fields_of fields.now;
        }) }
    {
        let pushed = push_fields(&mut self.fields, fields);
        match pushed {
            Ok(()) => self.rows += 1,
            Err(_) => {
                self.fields.clear();
                self.rows = 0;
            }
        }
        pushed
    }

    /// Takes all records away.
    pub(crate) fn clear(&mut self)
        ensures { self.new ≡ record { width = self.old.width; rows = 0; fields = [] } }
    {
        self.fields.clear();
        self.rows = 0;
    }
}

// Adds the fields of a record after others.
fn push_fields(all: &mut ByteRecord, fields: &ByteRecord) -> Result<(), AllocError>
    requires { partial_of all.old ≡ [] }
    ensures fields { OnOk result (fields_of all.new ≡ fields_of all.old ++ fields_of fields.now) }
    ensures partial { OnOk result (partial_of all.new ≡ []) }
{
    for place in 0..fields.len() {
        all.push_field(fields.get(place).unwrap_or(&[]))?;
    }
    Ok(())
}
