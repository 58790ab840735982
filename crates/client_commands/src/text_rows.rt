//! Rows as lines, and as CSV.

use crate::row_writer::RowWriter;
use arrays::Batch;
use arrow_types::{Field, Schema};
use grpc_frame::{Outbox, Output};
use row_text::{CsvFormat, Lines, send_batch, send_names};
use scan_base::{Fault, HashSeed};
use std::alloc::Global;
use std::marker::PhantomData;

/// A format of text in which each row stands by itself, after a row of names.
pub(crate) trait TextFormat: Drop {
    ghost use Rattle.std.specs.List.{flat_map};
    ghost use Rattle.arrays.specs.Batch.{rows_of};
    ghost use Rattle.grpc_frame.specs.Ends.{CanFail, CountsFailure, FailsByTransport};
    ghost use Rattle.grpc_frame.specs.Sending.{Sends};
    ghost use Rattle.row_text.specs.Rows.{names_row, values_row};
    ghost use Rattle.command_line.specs.declared.request.Format.{Format};
    ghost use Rattle.client_commands.specs.inside.Writers.{IsText, layout_of};

    // The format.
    ghost name: { Format };

    /// Sends the row of the columns' names.
    ///
    /// # Errors
    ///
    /// `Fault::Transport` where a write failed. It is counted.
    fn send_names<W: Output>(
        writer: &mut W,
        outbox: &mut Outbox,
        fields: &[Field],
    ) -> Result<(), Fault>
        requires { CanFail (W.failures writer.old) }
        ensures bytes { Sends result (W.contents writer.old) (W.contents writer.new)
            outbox.old outbox.new (names_row (layout_of name fields.now) fields.now) }
        ensures counted { CountsFailure result (W.failures writer.old) (W.failures writer.new) }
        ensures fault { FailsByTransport result };

    /// Sends the rows of a batch.
    ///
    /// # Errors
    ///
    /// `Fault::Transport` where a write failed. It is counted.
    fn send_rows<W: Output>(
        writer: &mut W,
        outbox: &mut Outbox,
        fields: &[Field],
        batch: &Batch,
    ) -> Result<(), Fault>
        requires { CanFail (W.failures writer.old) }
        ensures bytes { Sends result (W.contents writer.old) (W.contents writer.new)
            outbox.old outbox.new
            (flat_map (values_row (layout_of name fields.now)) (rows_of batch.now)) }
        ensures counted { CountsFailure result (W.failures writer.old) (W.failures writer.new) }
        ensures fault { FailsByTransport result };

    // It is such a format.
    ghost text: { IsText name };
}

/// A line for each row.
#[derive(Drop)]
pub(crate) struct LineText;

impl TextFormat for LineText {
    ghost use Rattle.command_line.specs.declared.request.Format.TheVariants as form;

    ghost name = { form.Lines };

    fn send_names<W: Output>(
        writer: &mut W,
        outbox: &mut Outbox,
        fields: &[Field],
    ) -> Result<(), Fault> {
        send_names(&Lines { fields }, writer, outbox, fields)
    }

    fn send_rows<W: Output>(
        writer: &mut W,
        outbox: &mut Outbox,
        fields: &[Field],
        batch: &Batch,
    ) -> Result<(), Fault> {
        send_batch(&Lines { fields }, writer, outbox, batch)
    }

    ghost text = { tt };
}

/// A record of CSV for each row.
#[derive(Drop)]
pub(crate) struct RecordText;

impl TextFormat for RecordText {
    ghost use Rattle.command_line.specs.declared.request.Format.TheVariants as form;

    ghost name = { form.Csv };

    fn send_names<W: Output>(
        writer: &mut W,
        outbox: &mut Outbox,
        fields: &[Field],
    ) -> Result<(), Fault> {
        send_names(&CsvFormat { fields }, writer, outbox, fields)
    }

    fn send_rows<W: Output>(
        writer: &mut W,
        outbox: &mut Outbox,
        fields: &[Field],
        batch: &Batch,
    ) -> Result<(), Fault> {
        send_batch(&CsvFormat { fields }, writer, outbox, batch)
    }

    ghost text = { tt };
}

/// A text while it is written: at most 16,384 bytes wait for the next write. Where memory for them
/// is refused, each part is a write.
#[derive(Drop)]
pub(crate) struct TextWriter<K: TextFormat> {
    schema: Schema,
    outbox: Outbox,
    format: PhantomData<K>,
}

impl<K: TextFormat> RowWriter for TextWriter<K> {
    ghost use Rattle.std.specs.Prelude.{[]};

    ghost format = { K.name };

    ghost state = { λ t. record { schema = t.schema; waiting = t.outbox; batches = [] } };

    fn begin<W: Output>(
        alloc: Global,
        _seed: HashSeed,
        output: &mut W,
        schema: &Schema,
    ) -> Result<TextWriter<K>, Fault> {
        let schema = schema.copy(alloc)?;
        let mut outbox = Outbox::new(alloc);
        K::send_names(output, &mut outbox, schema.fields.as_slice())?;
        Ok(TextWriter {
            schema,
            outbox,
            format: PhantomData,
        })
    }

    fn schema(&self) -> &Schema {
        &self.schema
    }

    fn write_batch<W: Output>(&mut self, output: &mut W, batch: Batch) -> Result<(), Fault> {
        let fields = self.schema.fields.as_slice();
        K::send_rows(output, &mut self.outbox, fields, &batch)
    }

    fn break_off<W: Output>(&mut self, output: &mut W) {
        let _written = self.outbox.flush(output);
    }

    fn end<W: Output>(self, output: &mut W) -> Result<(), Fault> {
        let mut outbox = self.outbox;
        outbox.flush(output)
    }
}
