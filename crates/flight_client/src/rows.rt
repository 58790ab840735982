//! The rows of an answer.

ghost use Rattle.std.specs.Prelude.{◌≡◌, All};
ghost use Rattle.std.specs.List.{flat_map};
ghost use Rattle.scan_base.specs.Reading.{GivesUnlessMemory};
ghost use Rattle.arrays.specs.Batch.{rows_of};
ghost use Rattle.arrays.specs.TypedLayouts.{AreOfTypes};
ghost use Rattle.arrow_types.specs.Schema.{IsSchema};
ghost use Rattle.flight_client.specs.inside.GatheredStreams.{gathered_with};
ghost use Rattle.flight_client.specs.inside.TypedColumns.{FitsRows};

use crate::stream::Stream;
use arrays::Batch;
use arrow_types::Schema;
use scan_base::Fault;
use std::marker::Model;

/// The rows of an answer: a schema, and batches one after another. A contract sees the table that
/// they make.
#[derive(Drop)]
pub struct Rows {
    schema: Schema,
    batches: Vec<Batch>,
}

impl Model for Rows {
    ghost use Rattle.std.specs.List.{flat_map};
    ghost use Rattle.arrays.specs.Batch.{rows_of};
    ghost use Rattle.arrow_types.specs.Schema.{IsSchema};
    ghost use Rattle.table_versions.specs.Table.{Table};
    ghost use Rattle.flight_client.specs.inside.TypedColumns.{HaveColumns};

    ghost Value = { Table };

    ghost view = { λ r. record { schema = r.schema; rows = flat_map rows_of r.batches.items } };

    ghost invariant = { λ r. IsSchema r.schema × HaveColumns r.schema r.batches.items };
}

impl Rows {
    /// The columns, which may be written.
    pub fn schema(&self) -> &Schema
        ensures schema { result.now ≡ self.now.schema }
        ensures valid { IsSchema result.now }
    {
        &self.schema
    }

    /// The batches: the rows of each, in order, are all rows. Each has a column for each column of
    /// the schema, of its type.
    pub fn batches(&self) -> &[Batch]
        ensures rows { flat_map rows_of result.now ≡ self.now.rows }
        ensures typed { All (λ batch. AreOfTypes self.now.schema.fields batch.columns) result.now }
    {
        self.batches.as_slice()
    }

    // The rows of streams before this one, and after them its own. The first stream gives the
    // schema. The batches are moved.
    pub(crate) fn with(rows: Option<Rows>, stream: Stream) -> Result<Rows, Fault>
        requires { FitsRows rows stream }
        ensures { GivesUnlessMemory (λ rows. rows) result (gathered_with rows stream) }
    {
        let Stream {
            reader,
            mut batches,
            ..
        } = stream;
        let Some(mut rows) = rows else {
            let schema = reader.into_schema().ok_or(Fault::BadBatch)?;
            return Ok(Rows { schema, batches });
        };
        rows.batches.append(&mut batches)?;
        Ok(rows)
    }
}
