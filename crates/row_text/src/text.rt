//! Texts, as they are spelled.

ghost use Rattle.std.specs.Prelude.{◌≡◌, ◌∷◌, [], ℕ, List, MatchOption};
ghost use Rattle.std.specs.List.{flat_map};
ghost use Rattle.grpc_frame.specs.Ends.{CanFail, CountsFailure, FailsByTransport};
ghost use Rattle.grpc_frame.specs.Sending.{Sends};
ghost use Rattle.row_text.specs.TableCells.{control_text, is_control, is_escaped};

use grpc_frame::{Outbox, Output};
use scan_base::Fault;

/// How the bytes of a text are spelled.
pub(crate) trait Spelling {
    // What is written in the place of a byte.
    ghost spelled: { ℕ → List ℕ };

    /// What is written in the place of a byte, where it is not the byte itself.
    fn escape(&self, byte: u8) -> Option<&'static [u8]>
        ensures { MatchOption result (spelled byte ≡ byte ∷ [])
            (λ escape. spelled byte ≡ escape.now) };
}

/// A backslash, a tab, LF and CR are written as a backslash and a letter.
pub(crate) struct BackslashEscapes;

impl Spelling for BackslashEscapes {
    ghost use Rattle.row_text.specs.Lines.{escaped_byte};

    ghost spelled = { escaped_byte };

    fn escape(&self, byte: u8) -> Option<&'static [u8]> {
        match byte {
            b'\\' => Some(b"\\\\"),
            b'\t' => Some(b"\\t"),
            b'\n' => Some(b"\\n"),
            b'\r' => Some(b"\\r"),
            _ => None,
        }
    }
}

// The texts for the control bytes below 16, and for those below 32, of four bytes each.
const LOW_CONTROLS: &[u8] =
    b"\\x00\\x01\\x02\\x03\\x04\\x05\\x06\\x07\\x08\\x09\\x0A\\x0B\\x0C\\x0D\\x0E\\x0F";

const HIGH_CONTROLS: &[u8] =
    b"\\x10\\x11\\x12\\x13\\x14\\x15\\x16\\x17\\x18\\x19\\x1A\\x1B\\x1C\\x1D\\x1E\\x1F";

/// Whether a line has a byte as a backslash and a letter.
pub(crate) fn is_escaped(byte: u8) -> bool
    ensures { result ≡ is_escaped byte }
{
    byte == b'\\' || byte == b'\t' || byte == b'\n' || byte == b'\r'
}

/// Whether a byte is any other control byte, which a terminal would obey.
pub(crate) fn is_control(byte: u8) -> bool
    ensures { result ≡ is_control byte }
{
    !is_escaped(byte) && (byte < 32 || byte == 127)
}

// The text for a control byte.
fn control_text(byte: u8) -> &'static [u8]
    ensures { result.now ≡ control_text byte }
{
    let place = usize::from(byte);
    if place < 16 {
        return &LOW_CONTROLS[4 * place..4 * place + 4];
    }
    if place < 32 {
        return &HIGH_CONTROLS[4 * (place - 16)..4 * (place - 16) + 4];
    }
    b"\\x7F"
}

/// In a cell of a table no control byte is printed.
pub(crate) struct CellEscapes;

impl Spelling for CellEscapes {
    ghost use Rattle.row_text.specs.TableCells.{cell_byte};

    ghost spelled = { cell_byte };

    fn escape(&self, byte: u8) -> Option<&'static [u8]> {
        if is_control(byte) {
            return Some(control_text(byte));
        }
        BackslashEscapes.escape(byte)
    }
}

/// Sends a text, as it is spelled: the bytes between two that are escaped are one part.
///
/// # Errors
///
/// `Fault::Transport` where a write failed. It is counted.
pub(crate) fn send_spelled<S: Spelling, W: Output>(
    spelling: &S,
    writer: &mut W,
    outbox: &mut Outbox,
    text: &str,
) -> Result<(), Fault>
    requires { CanFail (W.failures writer.old) }
    ensures bytes { Sends result (W.contents writer.old) (W.contents writer.new)
        outbox.old outbox.new (flat_map S.spelled text.now) }
    ensures counted { CountsFailure result (W.failures writer.old) (W.failures writer.new) }
    ensures fault { FailsByTransport result }
{
    let bytes = text.as_bytes();
    let mut from = 0;
    for (at, byte) in bytes.iter().enumerate() {
        if let Some(escape) = spelling.escape(*byte) {
            outbox.send_parts(writer, &bytes[from..at], escape)?;
            from = at + 1;
        }
    }
    outbox.send_part(writer, &bytes[from..])
}
