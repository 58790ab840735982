//! The rows of batches, in any format.

ghost use Rattle.std.specs.Prelude.{◌<◌, All};
ghost use Rattle.std.specs.List.{flat_map};
ghost use Rattle.arrays.specs.Batch.{row_of, rows_of};
ghost use Rattle.grpc_frame.specs.Ends.{CanFail, CountsFailure, FailsByTransport};
ghost use Rattle.grpc_frame.specs.Sending.{Sends};
ghost use Rattle.row_text.specs.Rows.{names_row, values_row};

use crate::format::{Cell, RowFormat};
use arrays::{Batch, Cells, Column};
use arrow_types::Field;
use grpc_frame::{Outbox, Output};
use scan_base::Fault;

// Columns, and the place of a row in them.
#[derive(Clone, Copy)]
struct RowAt<'a> {
    columns: &'a [Column],
    place: usize,
}

/// Sends the row of the columns' names.
///
/// # Errors
///
/// `Fault::Transport` where a write failed. It is counted.
pub fn send_names<F: RowFormat, W: Output>(
    format: &F,
    writer: &mut W,
    outbox: &mut Outbox,
    fields: &[Field],
) -> Result<(), Fault>
    requires { CanFail (W.failures writer.old) }
    ensures bytes { Sends result (W.contents writer.old) (W.contents writer.new)
        outbox.old outbox.new (names_row (F.format format.now) fields.now) }
    ensures counted { CountsFailure result (W.failures writer.old) (W.failures writer.new) }
    ensures fault { FailsByTransport result }
{
    send_start(writer, outbox, format.start())?;
    let [first, others @ ..] = fields else {
        return outbox.send_part(writer, format.end());
    };
    format.send_name(writer, outbox, 0, first)?;
    for (index, field) in others.iter().enumerate() {
        outbox.send_part(writer, format.between())?;
        format.send_name(writer, outbox, index + 1, field)?;
    }
    outbox.send_part(writer, format.end())
}

/// Sends the rows of the batches.
///
/// # Errors
///
/// `Fault::Transport` where a write failed. It is counted.
pub(crate) fn send_batches<F: RowFormat, W: Output>(
    format: &F,
    writer: &mut W,
    outbox: &mut Outbox,
    batches: &[Batch],
) -> Result<(), Fault>
    requires { CanFail (W.failures writer.old) }
    ensures bytes { Sends result (W.contents writer.old) (W.contents writer.new)
        outbox.old outbox.new
        (flat_map (values_row (F.format format.now)) (flat_map rows_of batches.now)) }
    ensures counted { CountsFailure result (W.failures writer.old) (W.failures writer.new) }
    ensures fault { FailsByTransport result }
{
    for batch in batches {
        send_batch(format, writer, outbox, batch)?;
    }
    Ok(())
}

/// Sends the rows of a batch.
///
/// # Errors
///
/// `Fault::Transport` where a write failed. It is counted.
pub fn send_batch<F: RowFormat, W: Output>(
    format: &F,
    writer: &mut W,
    outbox: &mut Outbox,
    batch: &Batch,
) -> Result<(), Fault>
    requires { CanFail (W.failures writer.old) }
    ensures bytes { Sends result (W.contents writer.old) (W.contents writer.new)
        outbox.old outbox.new (flat_map (values_row (F.format format.now)) (rows_of batch.now)) }
    ensures counted { CountsFailure result (W.failures writer.old) (W.failures writer.new) }
    ensures fault { FailsByTransport result }
{
    let columns = batch.columns();
    for place in 0..batch.rows() {
        send_row(format, writer, outbox, RowAt { columns, place })?;
    }
    Ok(())
}

// Sends a row.
fn send_row<F: RowFormat, W: Output>(
    format: &F,
    writer: &mut W,
    outbox: &mut Outbox,
    row: RowAt<'_>,
) -> Result<(), Fault>
    requires failures { CanFail (W.failures writer.old) }
    requires within { All (λ column. row.place < column.len) row.columns.now }
    ensures bytes { Sends result (W.contents writer.old)
        (W.contents writer.new) outbox.old outbox.new
        (values_row (F.format format.now) (row_of row.entry.columns.now row.entry.place)) }
    ensures counted { CountsFailure result (W.failures writer.old) (W.failures writer.new) }
    ensures fault { FailsByTransport result }
{
    let place = row.place;
    let columns = row.columns;
    let count = columns.len();
    send_start(writer, outbox, format.start())?;
    let [first, others @ ..] = columns else {
        return outbox.send_part(writer, format.end());
    };
    let value = first.value_at(place);
    let number = 0;
    format.send_cell(
        writer,
        outbox,
        Cell {
            number,
            count,
            value,
        },
    )?;
    for (index, column) in others.iter().enumerate() {
        outbox.send_part(writer, format.between())?;
        let value = column.value_at(place);
        let number = index + 1;
        format.send_cell(
            writer,
            outbox,
            Cell {
                number,
                count,
                value,
            },
        )?;
    }
    outbox.send_part(writer, format.end())
}

// Sends what a row starts with, where it starts with something.
fn send_start<W: Output>(writer: &mut W, outbox: &mut Outbox, start: &[u8]) -> Result<(), Fault>
    requires { CanFail (W.failures writer.old) }
    ensures bytes { Sends result (W.contents writer.old) (W.contents writer.new)
        outbox.old outbox.new start.now }
    ensures counted { CountsFailure result (W.failures writer.old) (W.failures writer.new) }
    ensures fault { FailsByTransport result }
{
    if start.is_empty() {
        return Ok(());
    }
    outbox.send_part(writer, start)
}
