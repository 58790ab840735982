//! What an input is that is no Arrow IPC stream.

ghost use Rattle.std.specs.Prelude.{◌≡◌};
ghost use Rattle.fault_hints.specs.InputKinds.{begins_text, input_line, is_text};

// Whether a byte may begin a text.
fn begins_text(byte: u8) -> bool
    ensures { result ≡ begins_text byte }
{
    matches!(byte, 32..127 | 9..=13 | 194..=244)
}

fn is_text(input: &[u8]) -> bool
    ensures { result ≡ is_text input.now }
{
    match input {
        [] => false,
        [first, ..] => begins_text(*first),
    }
}

/// What an input is that is no Arrow IPC stream, in a line, by its first bytes.
#[tactic(auto, unfolding(crate::specs::InputKinds::input_line))]
pub fn input_line(input: &[u8]) -> &'static [u8]
    ensures { result.now ≡ input_line input.now }
{
    if input.starts_with(b"PAR1") {
        return b"the input is a Parquet file: write it as an Arrow IPC stream\n";
    }
    if input.starts_with(b"ARROW1") {
        return b"the input is an Arrow file, as Feather has it: write it as an Arrow IPC stream\n";
    }
    if input.starts_with(b"FEA1") {
        return b"the input is an old Feather file: write it as an Arrow IPC stream\n";
    }
    if input.starts_with(&[0x1F, 0x8B]) {
        return b"the input is compressed by gzip: pipe it through gunzip\n";
    }
    if input.starts_with(&[0x28, 0xB5, 0x2F, 0xFD]) {
        return b"the input is compressed by zstd: pipe it through unzstd\n";
    }
    if input.starts_with(b"PK") {
        return b"the input is a zip archive, as a spreadsheet is: write it as CSV\n";
    }
    if input.starts_with(b"{") || input.starts_with(b"[") {
        return b"the input is JSON: write it as CSV or as an Arrow IPC stream\n";
    }
    if is_text(input) {
        return b"the input is text: CSV is put with --format csv\n";
    }
    b"the input is no Arrow IPC stream, or is cut short\n"
}
