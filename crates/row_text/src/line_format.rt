//! Rows as lines, and lines of names.

ghost use Rattle.std.specs.List.{flat_map};
ghost use Rattle.grpc_frame.specs.Ends.{CanFail, CountsFailure, FailsByTransport, Writes};
ghost use Rattle.grpc_frame.specs.Sending.{Sends};
ghost use Rattle.row_text.specs.Lines.{name_line};

use crate::format::{Cell, RowFormat};
use crate::text::{BackslashEscapes, Spelling, send_spelled};
use crate::value::{TypedValue, ValueFormat, send_value, type_shown};
use arrow_types::{Field, NumberType};
use grpc_frame::{Outbox, Output};
use number_words::NumberText;
use scan_base::{Fault, Text};
use std::alloc::Global;

/// Writes a line for each name. At most 16,384 bytes wait for the next write; where memory for them
/// is refused each part is a write.
///
/// # Errors
///
/// `Fault::Transport` where a write failed. It is counted, and a beginning of the lines is written.
pub fn write_names<W: Output>(alloc: Global, names: &[Text], output: &mut W) -> Result<(), Fault>
    requires { CanFail (W.failures output.old) }
    ensures bytes { Writes result (W.contents output.old) (W.contents output.new)
        (flat_map name_line names.now) }
    ensures counted { CountsFailure result (W.failures output.old) (W.failures output.new) }
    ensures fault { FailsByTransport result }
{
    let mut outbox = Outbox::new(alloc);
    for name in names {
        send_name_line(output, &mut outbox, name.as_str())?;
    }
    outbox.flush(output)
}

// Sends a name, and LF.
fn send_name_line<W: Output>(writer: &mut W, outbox: &mut Outbox, name: &str) -> Result<(), Fault>
    requires { CanFail (W.failures writer.old) }
    ensures bytes { Sends result (W.contents writer.old) (W.contents writer.new)
        outbox.old outbox.new (name_line name.now) }
    ensures counted { CountsFailure result (W.failures writer.old) (W.failures writer.new) }
    ensures fault { FailsByTransport result }
{
    send_spelled(&BackslashEscapes, writer, outbox, name)?;
    outbox.send_part(writer, b"\n")
}

/// Lines of columns of these fields.
#[derive(Clone, Copy)]
pub struct Lines<'a> {
    pub fields: &'a [Field],
}

impl<'a> ValueFormat for Lines<'a> {
    ghost use Rattle.row_text.specs.Lines.{line_notation};

    ghost notation = { line_notation };

    fn null(&self) -> &'static [u8] {
        b"NULL"
    }

    fn truth(&self, flag: bool) -> &'static [u8] {
        if flag { b"TRUE" } else { b"FALSE" }
    }

    fn send_text<W: Output>(
        &self,
        writer: &mut W,
        outbox: &mut Outbox,
        text: &str,
    ) -> Result<(), Fault> {
        outbox.send_part(writer, b"'")?;
        send_spelled(&SingleQuotes, writer, outbox, text)?;
        outbox.send_part(writer, b"'")
    }

    fn number<'b>(&self, room: &'b mut NumberText, kind: NumberType, number: i128) -> &'b str {
        room.literal(kind, number)
    }
}

impl<'a> RowFormat for Lines<'a> {
    ghost use Rattle.row_text.specs.Lines.{line_format};

    ghost format = { λ lines. line_format lines.fields.now };

    fn start(&self) -> &'static [u8] {
        b""
    }

    fn between(&self) -> &'static [u8] {
        b"\t"
    }

    fn end(&self) -> &'static [u8] {
        b"\n"
    }

    fn send_name<W: Output>(
        &self,
        writer: &mut W,
        outbox: &mut Outbox,
        _number: usize,
        field: &Field,
    ) -> Result<(), Fault> {
        send_spelled(&BackslashEscapes, writer, outbox, field.name.as_str())
    }

    fn send_cell<W: Output>(
        &self,
        writer: &mut W,
        outbox: &mut Outbox,
        cell: Cell<'_>,
    ) -> Result<(), Fault> {
        let data_type = type_shown(self.fields, cell.number);
        let value = cell.value;
        send_value(self, writer, outbox, TypedValue { data_type, value })
    }
}

// The spelling of a text in single quotes, which stand twice in it.
struct SingleQuotes;

impl Spelling for SingleQuotes {
    ghost use Rattle.row_text.specs.Lines.{quoted_byte};

    ghost spelled = { quoted_byte };

    fn escape(&self, byte: u8) -> Option<&'static [u8]> {
        match byte {
            b'\'' => Some(b"''"),
            _ => BackslashEscapes.escape(byte),
        }
    }
}
