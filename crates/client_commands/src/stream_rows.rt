//! Rows as an Arrow IPC stream.

use crate::row_writer::RowWriter;
use arrays::Batch;
use arrow_types::Schema;
use grpc_frame::Output;
use row_stream::StreamWriter;
use scan_base::{Fault, HashSeed};
use std::alloc::Global;

impl RowWriter for StreamWriter {
    ghost use Rattle.command_line.specs.declared.request.Format.TheVariants.{Arrow};
    ghost use Rattle.client_commands.specs.inside.Writers.{stream_state};

    ghost format = { Arrow };

    ghost state = { stream_state };

    fn begin<W: Output>(
        alloc: Global,
        seed: HashSeed,
        output: &mut W,
        schema: &Schema,
    ) -> Result<StreamWriter, Fault> {
        StreamWriter::begin(alloc, seed, output, schema)
    }

    fn schema(&self) -> &Schema {
        StreamWriter::schema(self)
    }

    fn write_batch<W: Output>(&mut self, output: &mut W, batch: Batch) -> Result<(), Fault> {
        StreamWriter::write_batch(self, output, &batch)
    }

    fn break_off<W: Output>(&mut self, output: &mut W) {
        StreamWriter::break_off(self, output);
    }

    fn end<W: Output>(self, output: &mut W) -> Result<(), Fault> {
        StreamWriter::end(self, output)
    }
}
