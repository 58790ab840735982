//! The buffers of a body, without a copy where they came as they are written.

ghost use Rattle.std.specs.Prelude.{◌≡◌, ◌<◌, ◌^◌, ◌++◌, length, OnOk};
ghost use Rattle.array_buffers.specs.ColumnBuffers.{buffers_written as column_written};
ghost use Rattle.ipc_batch.specs.WrittenMessages.{body_of, batch_buffers_written};

use array_buffers::{buffer, buffer_count};
use arrays::Column;
use bytes::Bytes;
use std::alloc::{AllocError, Global};

// Puts the buffers of a column after the others. `rooms` says how many bytes those have that are
// built, each at the number of its buffer.
fn push_column(
    alloc: Global,
    buffers: &mut Vec<Bytes>,
    column: &Column,
    rooms: &[usize],
) -> Result<(), AllocError>
    requires { length (body_of (column_written column.now)) < 2 ^ 31 }
    ensures { OnOk result (buffers.new.items ≡ buffers.old.items ++ column_written column.now) }
{
    for index in 0..buffer_count(column) {
        let room = rooms.get(buffers.len()).copied().unwrap_or(0);
        buffers.push(buffer(alloc, column, index, room)?)?;
    }
    Ok(())
}

/// Puts the buffers of columns after the others.
pub(crate) fn push_columns(
    alloc: Global,
    buffers: &mut Vec<Bytes>,
    columns: &[Column],
    rooms: &[usize],
) -> Result<(), AllocError>
    requires { length (body_of (batch_buffers_written columns.now)) < 2 ^ 31 }
    ensures { OnOk result (buffers.new.items
        ≡ buffers.old.items ++ batch_buffers_written columns.now) }
{
    for column in columns {
        push_column(alloc, buffers, column, rooms)?;
    }
    Ok(())
}
