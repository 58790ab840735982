//! Rows as CSV, as RFC 4180 has it.

ghost use Rattle.std.specs.Prelude.{◌≡◌};
ghost use Rattle.csv.specs.Writing.{needs_byte, needs_quotes, quoted};
ghost use Rattle.grpc_frame.specs.Ends.{CanFail, CountsFailure, FailsByTransport};
ghost use Rattle.grpc_frame.specs.Sending.{Sends};
ghost use Rattle.row_text.specs.Records.{comma_writer, stands_in_quotes};

use crate::format::{Cell, RowFormat};
use crate::text::{Spelling, send_spelled};
use crate::value::{TypedValue, ValueFormat, send_value, type_shown};
use arrow_types::{Field, NumberType};
use grpc_frame::{Outbox, Output};
use number_words::NumberText;
use scan_base::{Fault, ValueRef};

/// Records of columns of these fields.
#[derive(Clone, Copy)]
pub struct CsvFormat<'a> {
    pub fields: &'a [Field],
}

impl<'a> ValueFormat for CsvFormat<'a> {
    ghost use Rattle.row_text.specs.Records.{csv_notation};

    ghost notation = { csv_notation };

    fn null(&self) -> &'static [u8] {
        b""
    }

    fn truth(&self, flag: bool) -> &'static [u8] {
        if flag { b"true" } else { b"false" }
    }

    fn send_text<W: Output>(
        &self,
        writer: &mut W,
        outbox: &mut Outbox,
        text: &str,
    ) -> Result<(), Fault> {
        if stands_in_quotes(text.as_bytes()) {
            return send_quoted(writer, outbox, text);
        }
        outbox.send_part(writer, text.as_bytes())
    }

    fn number<'b>(&self, room: &'b mut NumberText, kind: NumberType, number: i128) -> &'b str {
        room.shown(kind, number)
    }
}

impl<'a> RowFormat for CsvFormat<'a> {
    ghost use Rattle.row_text.specs.Records.{csv_format};

    ghost format = { λ records. csv_format records.fields.now };

    fn start(&self) -> &'static [u8] {
        b""
    }

    fn between(&self) -> &'static [u8] {
        b","
    }

    fn end(&self) -> &'static [u8] {
        b"\r\n"
    }

    fn send_name<W: Output>(
        &self,
        writer: &mut W,
        outbox: &mut Outbox,
        _number: usize,
        field: &Field,
    ) -> Result<(), Fault> {
        self.send_text(writer, outbox, field.name.as_str())
    }

    fn send_cell<W: Output>(
        &self,
        writer: &mut W,
        outbox: &mut Outbox,
        cell: Cell<'_>,
    ) -> Result<(), Fault> {
        let value = cell.value;
        if cell.count == 1 && matches!(value, ValueRef::Null) {
            return outbox.send_part(writer, b"\"\"");
        }
        let data_type = type_shown(self.fields, cell.number);
        send_value(self, writer, outbox, TypedValue { data_type, value })
    }
}

// Whether a byte calls for quotes.
fn calls_for_quotes(byte: u8) -> bool
    ensures { result ≡ needs_byte comma_writer byte }
{
    byte == b',' || byte == b'"' || byte == b'\r' || byte == b'\n'
}

// Whether a text needs quotes.
fn needs_quotes(text: &[u8]) -> bool
    ensures { result ≡ needs_quotes comma_writer text.now }
{
    text.iter().any(|byte| calls_for_quotes(*byte))
}

// Whether a text stands in quotes.
fn stands_in_quotes(text: &[u8]) -> bool
    ensures { result ≡ stands_in_quotes text.now }
{
    text.is_empty() || needs_quotes(text)
}

// The spelling of a text in quotes, which stand twice in it.
struct DoubleQuotes;

impl Spelling for DoubleQuotes {
    ghost use Rattle.row_text.specs.inside.Quotes.{doubled_byte};

    ghost spelled = { doubled_byte };

    fn escape(&self, byte: u8) -> Option<&'static [u8]> {
        match byte {
            b'"' => Some(b"\"\""),
            _ => None,
        }
    }
}

// Sends a text in quotes.
fn send_quoted<W: Output>(writer: &mut W, outbox: &mut Outbox, text: &str) -> Result<(), Fault>
    requires { CanFail (W.failures writer.old) }
    ensures bytes { Sends result (W.contents writer.old) (W.contents writer.new)
        outbox.old outbox.new (quoted comma_writer text.now) }
    ensures counted { CountsFailure result (W.failures writer.old) (W.failures writer.new) }
    ensures fault { FailsByTransport result }
{
    outbox.send_part(writer, b"\"")?;
    send_spelled(&DoubleQuotes, writer, outbox, text)?;
    outbox.send_part(writer, b"\"")
}
