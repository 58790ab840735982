//! Streams joined.

ghost use Rattle.std.specs.Prelude.{Ok, None, List};
ghost use Rattle.scan_base.specs.Reading.{Gives, GivesUnlessMemory, RefusesFirst};
ghost use Rattle.arrow_types.specs.declared.schema.Schema.{Schema};
ghost use Rattle.flight_client.specs.Join.{Answer, AreOf, joined, schema_of_all, rows_together};
ghost use Rattle.flight_client.specs.inside.GatheredStreams.{gathered};
ghost use Rattle.flight_client.specs.inside.TypedColumns.{FitRows};

use crate::rows::Rows;
use crate::stream::Stream;
use arrow_types::Schema;
use scan_base::Fault;
use table_versions::same_fields;

// The one schema of streams: none has a fault, and all have the columns of the first.
fn schema_of_all(streams: &[Stream]) -> Result<&Schema, Fault>
    ensures { Gives (λ schema. schema.now) result (schema_of_all streams.now) }
{
    let [first, others @ ..] = streams else {
        return Err(Fault::BadBatch);
    };
    let schema = first.schema()?;
    let mut all_same = true;
    for other in others {
        let other = other.schema()?;
        all_same = all_same && same_fields(schema.fields.as_slice(), other.fields.as_slice());
    }
    if !all_same {
        return Err(Fault::SchemaMismatch);
    }
    Ok(schema)
}

// The rows of streams, one stream's after another's, after the schema of the first, whose columns
// all have.
fn gather(streams: Vec<Stream>) -> Result<Rows, Fault>
    requires { FitRows None streams.items }
    ensures { GivesUnlessMemory (λ rows. rows) result (gathered None streams.items) }
{
    let mut rows = None;
    for stream in streams {
        rows = Some(Rows::with(rows, stream)?);
    }
    rows.ok_or(Fault::BadBatch)
}

/// The rows that streams say, one stream's after another's in the order in which they stand, after
/// their one schema. The batches are moved: no row is copied.
///
/// # Errors
///
/// - The first fault of a stream in their order: that of its status, F8 (`Fault::BadBatch`) where
///   status 0 came without a schema, or F22 (`Fault::Transport`) where no status came.
/// - F11 (`Fault::SchemaMismatch`) where the schemas of two streams differ.
/// - F8 where there is no stream.
/// - F21 (`Fault::OutOfMemory`) where memory is refused, and none of the others is due.
pub fn join(streams: Vec<Stream>) -> Result<Rows, Fault>
    ensures exact { GivesUnlessMemory (λ rows. rows) result (joined streams.items) }
    ensures first { RefusesFirst result (joined streams.items) }
    ensures said { (schema : Schema) (answers : List Answer) → AreOf schema answers streams.items
        → GivesUnlessMemory (λ rows. rows) result (Ok (rows_together schema answers)) }
{
    schema_of_all(&streams)?;
    gather(streams)
}
