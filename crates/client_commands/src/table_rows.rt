//! Rows as a table for people.

use crate::row_writer::RowWriter;
use arrays::Batch;
use arrow_types::Schema;
use grpc_frame::Output;
use row_text::write_table;
use scan_base::{Fault, HashSeed};
use std::alloc::Global;
use std::marker::Model;

/// The rows of a table for people. A column is as wide as its widest cell, so they are held, and
/// nothing is written before all came.
#[derive(Drop)]
pub(crate) struct TableWriter {
    alloc: Global,
    schema: Schema,
    batches: Vec<Batch>,
}

impl Model for TableWriter {
    ghost use Rattle.std.specs.Prelude.{[], All};
    ghost use Rattle.arrow_types.specs.Schema.{IsSchema};
    ghost use Rattle.arrays.specs.TypedLayouts.{AreOfTypes};
    ghost use Rattle.client_commands.specs.inside.Writers.{WriterAt};

    ghost Value = { WriterAt };

    ghost view = { λ t. record { schema = t.schema; waiting = []; batches = t.batches.items } };

    ghost invariant = { λ t. IsSchema t.schema
        × All (λ batch. AreOfTypes (t.schema).fields batch.columns) t.batches.items };
}

impl RowWriter for TableWriter {
    ghost use Rattle.command_line.specs.declared.request.Format.TheVariants as form;

    ghost format = { form.Table };

    ghost state = { λ t. t };

    fn begin<W: Output>(
        alloc: Global,
        _seed: HashSeed,
        _output: &mut W,
        schema: &Schema,
    ) -> Result<TableWriter, Fault> {
        let schema = schema.copy(alloc)?;
        Ok(TableWriter {
            alloc,
            schema,
            batches: Vec::new(alloc),
        })
    }

    fn schema(&self) -> &Schema {
        &self.schema
    }

    fn write_batch<W: Output>(&mut self, _output: &mut W, batch: Batch) -> Result<(), Fault> {
        self.batches.push(batch)?;
        Ok(())
    }

    fn break_off<W: Output>(&mut self, _output: &mut W) {}

    fn end<W: Output>(self, output: &mut W) -> Result<(), Fault> {
        write_table(self.alloc, &self.schema, &self.batches, output)
    }
}
