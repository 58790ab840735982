//! Formats of rows.

ghost use Rattle.std.specs.Prelude.{◌≡◌};
ghost use Rattle.scan_base.specs.Value.{value_of};
ghost use Rattle.grpc_frame.specs.Ends.{CanFail, CountsFailure, FailsByTransport};
ghost use Rattle.grpc_frame.specs.Sending.{Sends};
ghost use Rattle.row_text.specs.Rows.{Format};

use arrow_types::Field;
use grpc_frame::{Outbox, Output};
use scan_base::{Fault, ValueRef};

/// A value in a row: the number of its column, how many values the row has, and what it is.
#[derive(Clone, Copy)]
pub struct Cell<'a> {
    pub number: usize,
    pub count: usize,
    pub value: ValueRef<'a>,
}

/// How rows are written.
pub trait RowFormat {
    // How they are.
    ghost format: { Self → Format };

    /// What stands before the first cell of a row.
    fn start(&self) -> &'static [u8]
        ensures { result.now ≡ (format self.now).start };

    /// What stands between two cells.
    fn between(&self) -> &'static [u8]
        ensures { result.now ≡ (format self.now).between };

    /// What stands after the last cell.
    fn end(&self) -> &'static [u8]
        ensures { result.now ≡ (format self.now).end };

    /// Sends the cell of the name of a column, by the column's number.
    ///
    /// # Errors
    ///
    /// `Fault::Transport` where a write failed. It is counted.
    fn send_name<W: Output>(
        &self,
        writer: &mut W,
        outbox: &mut Outbox,
        number: usize,
        field: &Field,
    ) -> Result<(), Fault>
        requires { CanFail (W.failures writer.old) }
        ensures bytes { Sends result (W.contents writer.old) (W.contents writer.new)
            outbox.old outbox.new ((format self.now).name number field.now) }
        ensures counted { CountsFailure result (W.failures writer.old) (W.failures writer.new) }
        ensures fault { FailsByTransport result };

    /// Sends the cell of a value.
    ///
    /// # Errors
    ///
    /// `Fault::Transport` where a write failed. It is counted.
    fn send_cell<W: Output>(
        &self,
        writer: &mut W,
        outbox: &mut Outbox,
        cell: Cell<'_>,
    ) -> Result<(), Fault>
        requires { CanFail (W.failures writer.old) }
        ensures bytes { Sends result (W.contents writer.old) (W.contents writer.new) outbox.old
            outbox.new ((format self.now).value cell.entry.number cell.entry.count
            (value_of cell.entry.value)) }
        ensures counted { CountsFailure result (W.failures writer.old) (W.failures writer.new) }
        ensures fault { FailsByTransport result };
}
