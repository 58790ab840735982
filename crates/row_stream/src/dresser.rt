//! The schema of a stream, and what its batches are dressed by.

ghost use Rattle.std.specs.Prelude.{◌≡◌, IfOk};
ghost use Rattle.arrow_types.specs.Schema.{IsSchema};
ghost use Rattle.row_stream.specs.Stream.{numbered_schema};

use arrow_types::Schema;
use scan_base::{HashSeed, Items};
use std::alloc::{AllocError, Global};
use std::marker::Model;

/// What batches are dressed by: whence memory is taken, what the hashes of texts begin with, and
/// the schema of the stream, in which the id of each dictionary is the number of its column. A
/// contract sees the schema.
#[derive(Drop)]
pub(crate) struct Dresser {
    pub alloc: Global,
    pub seed: HashSeed,
    pub schema: Schema,
}

impl Model for Dresser {
    ghost use Rattle.arrow_types.specs.declared.schema.Schema.{Schema};
    ghost use Rattle.arrow_types.specs.Schema.{IsSchema};
    ghost use Rattle.dictionary_answers.specs.Dress.{AreNumbered};

    ghost Value = { Schema };

    ghost view = { λ d. d.schema };

    ghost invariant = { λ d. IsSchema d.schema × AreNumbered 0 (d.schema).fields };
}

impl Dresser {
    /// Dresses batches with these columns.
    pub fn new(alloc: Global, seed: HashSeed, schema: &Schema) -> Result<Dresser, AllocError>
        requires { IsSchema schema.now }
        ensures { IfOk result (λ dresser. dresser ≡ numbered_schema schema.now) }
    {
        let schema = number(alloc, schema)?;
        Ok(Dresser {
            alloc,
            seed,
            schema,
        })
    }
}

// The same columns, where the id of each dictionary is the number of its column, and its indices
// have 32 bits.
fn number(alloc: Global, schema: &Schema) -> Result<Schema, AllocError>
    ensures { IfOk result (λ made. made ≡ numbered_schema schema.now) }
{
    let mut fields = Items::new(alloc);
    let mut number = 0;
    for field in schema.fields.as_slice() {
        fields.push(field.answered(number)?)?;
        number += 1;
    }
    Ok(Schema { fields })
}
