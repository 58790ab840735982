//! Whole tables for people.

ghost use Rattle.std.specs.Prelude.{◌≡◌, All, length};
ghost use Rattle.std.specs.List.{flat_map};
ghost use Rattle.arrow_types.specs.Schema.{IsSchema};
ghost use Rattle.arrays.specs.Batch.{rows_of};
ghost use Rattle.arrays.specs.TypedLayouts.{AreOfTypes};
ghost use Rattle.grpc_frame.specs.Ends.{CanFail, CountsFailure, FailsByTransport, Writes};
ghost use Rattle.grpc_frame.specs.Sending.{Sends};
ghost use Rattle.row_text.specs.Tables.{count_line, rule_cell, rule_line, table_of};

use crate::shape::dashes;
use crate::table_format::TableFormat;
use crate::walk::{send_batches, send_names};
use crate::widths::widths_of;
use arrays::Batch;
use arrow_types::Schema;
use grpc_frame::{Outbox, Output};
use itoa::Buffer;
use scan_base::Fault;
use std::alloc::Global;

/// Writes the columns' names, dashes under them, a line for each row of the batches, and how many
/// rows there are. All are looked at twice: a column is as wide as its widest cell, but no wider
/// than 40. At most 16,384 bytes wait for the next write; where memory for them is refused each
/// part is a write.
///
/// # Errors
///
/// `Fault::Transport` where a write failed. It is counted, and a beginning of the table is written.
pub fn write_table<W: Output>(
    alloc: Global,
    schema: &Schema,
    batches: &[Batch],
    output: &mut W,
) -> Result<(), Fault>
    requires failures { CanFail (W.failures output.old) }
    requires schema { IsSchema schema.now }
    requires typed { All (λ batch. AreOfTypes schema.now.fields batch.columns) batches.now }
    ensures bytes { Writes result (W.contents output.old) (W.contents output.new)
        (table_of schema.now (flat_map rows_of batches.now)) }
    ensures counted { CountsFailure result (W.failures output.old) (W.failures output.new) }
    ensures fault { FailsByTransport result }
{
    let fields = schema.fields.as_slice();
    let made = widths_of(fields, batches);
    let widths = made.as_slice();
    let format = TableFormat { fields, widths };
    let mut outbox = Outbox::new(alloc);
    send_names(&format, output, &mut outbox, fields)?;
    send_rule(output, &mut outbox, widths)?;
    send_batches(&format, output, &mut outbox, batches)?;
    send_count(output, &mut outbox, batches)?;
    outbox.flush(output)
}

// Sends the line of dashes under the names.
fn send_rule<W: Output>(writer: &mut W, outbox: &mut Outbox, widths: &[usize]) -> Result<(), Fault>
    requires { CanFail (W.failures writer.old) }
    ensures bytes { Sends result (W.contents writer.old) (W.contents writer.new)
        outbox.old outbox.new (rule_line widths.now) }
    ensures counted { CountsFailure result (W.failures writer.old) (W.failures writer.new) }
    ensures fault { FailsByTransport result }
{
    for width in widths {
        send_rule_cell(writer, outbox, *width)?;
    }
    outbox.send_part(writer, b"|\n")
}

// Sends the dashes under a name.
#[tactic(auto, using(grpc_frame::proofs::Sending::sending))]
fn send_rule_cell<W: Output>(writer: &mut W, outbox: &mut Outbox, width: usize) -> Result<(), Fault>
    requires { CanFail (W.failures writer.old) }
    ensures bytes { Sends result (W.contents writer.old) (W.contents writer.new)
        outbox.old outbox.new (rule_cell width) }
    ensures counted { CountsFailure result (W.failures writer.old) (W.failures writer.new) }
    ensures fault { FailsByTransport result }
{
    outbox.send_part(writer, b"|-")?;
    outbox.send_parts(writer, dashes(width), b"-")
}

// How many rows the batches have.
fn count_rows(batches: &[Batch]) -> u128
    ensures { result ≡ length (flat_map rows_of batches.now) }
{
    let mut count = 0;
    for batch in batches {
        count += batch.rows() as u128;
    }
    count
}

// Sends the line that says how many rows the batches have.
#[tactic(auto, using(grpc_frame::proofs::Sending::sending))]
fn send_count<W: Output>(
    writer: &mut W,
    outbox: &mut Outbox,
    batches: &[Batch],
) -> Result<(), Fault>
    requires { CanFail (W.failures writer.old) }
    ensures bytes { Sends result (W.contents writer.old) (W.contents writer.new)
        outbox.old outbox.new (count_line (length (flat_map rows_of batches.now))) }
    ensures counted { CountsFailure result (W.failures writer.old) (W.failures writer.new) }
    ensures fault { FailsByTransport result }
{
    let count = count_rows(batches);
    outbox.send_parts(writer, Buffer::new().format(count).as_bytes(), b" rows\n")
}
