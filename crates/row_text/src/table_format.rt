//! The rows of a table for people.

ghost use Rattle.std.specs.Prelude.{◌≡◌};
ghost use Rattle.row_text.specs.Tables.{shape_of};

use crate::format::{Cell, RowFormat};
use crate::shape::{Shape, before, behind};
use crate::text::{CellEscapes, send_spelled};
use crate::value::{TypedValue, ValueFormat, send_value, type_shown};
use crate::widths::{text_width, value_width};
use arrow_types::{Field, NumberType};
use grpc_frame::{Outbox, Output};
use number_words::NumberText;
use scan_base::Fault;

/// Rows in columns of these fields and widths.
#[derive(Clone, Copy)]
pub(crate) struct TableFormat<'a> {
    pub fields: &'a [Field],
    pub widths: &'a [usize],
}

impl<'a> TableFormat<'a> {
    // The column of a number.
    fn shape(&self, number: usize) -> Shape
        ensures { result ≡ shape_of self.now.fields.now self.now.widths.now number }
    {
        let data_type = type_shown(self.fields, number);
        let width = self.widths.get(number).copied().unwrap_or(0);
        Shape { data_type, width }
    }
}

impl<'a> ValueFormat for TableFormat<'a> {
    ghost use Rattle.row_text.specs.TableCells.{table_notation};

    ghost notation = { table_notation };

    fn null(&self) -> &'static [u8] {
        b"NULL"
    }

    fn truth(&self, flag: bool) -> &'static [u8] {
        if flag { b"TRUE" } else { b"FALSE" }
    }

    fn send_text<W: Output>(
        &self,
        writer: &mut W,
        outbox: &mut Outbox,
        text: &str,
    ) -> Result<(), Fault> {
        send_spelled(&CellEscapes, writer, outbox, text)
    }

    fn number<'b>(&self, room: &'b mut NumberText, kind: NumberType, number: i128) -> &'b str {
        room.shown(kind, number)
    }
}

impl<'a> RowFormat for TableFormat<'a> {
    ghost use Rattle.row_text.specs.Tables.{table_format};

    ghost format = { λ aligned. table_format aligned.fields.now aligned.widths.now };

    fn start(&self) -> &'static [u8] {
        b"| "
    }

    fn between(&self) -> &'static [u8] {
        b" | "
    }

    fn end(&self) -> &'static [u8] {
        b" |\n"
    }

    fn send_name<W: Output>(
        &self,
        writer: &mut W,
        outbox: &mut Outbox,
        number: usize,
        field: &Field,
    ) -> Result<(), Fault> {
        let shape = self.shape(number);
        let name = field.name.as_str();
        let taken = text_width(name);
        outbox.send_part(writer, before(shape, taken))?;
        send_spelled(&CellEscapes, writer, outbox, name)?;
        outbox.send_part(writer, behind(shape, taken))
    }

    fn send_cell<W: Output>(
        &self,
        writer: &mut W,
        outbox: &mut Outbox,
        cell: Cell<'_>,
    ) -> Result<(), Fault> {
        let shape = self.shape(cell.number);
        let data_type = shape.data_type;
        let value = cell.value;
        let taken = value_width(data_type, value);
        outbox.send_part(writer, before(shape, taken))?;
        send_value(self, writer, outbox, TypedValue { data_type, value })?;
        outbox.send_part(writer, behind(shape, taken))
    }
}
