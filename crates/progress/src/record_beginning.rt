//! The beginning of a record.

use arrow_schema::{HeaderKind, read_message};
use flatbuf::Width;
use proto_wire::{Fields, Payload};
use scan_base::Fault;

/// So many bytes of a record are looked at. The header of a batch of 64 columns lies within them.
pub(crate) const MOST_LOOKED: u64 = 8_192;

/// How many bytes a record has, once its beginning tells. What begins no record has no end.
pub(crate) fn record_length(beginning: &[u8]) -> Option<u64> {
    match beginning {
        // Open: the length of its path
        [1, high, low, ..] => Some(3 + u64::from(u16::from_be_bytes([*high, *low]))),
        // Message: a flag, and its length
        [2, _, a, b, c, d, ..] => Some(6 + u64::from(u32::from_be_bytes([*a, *b, *c, *d]))),
        // End
        [3, ..] => Some(1),
        // Status: a code, and the length of its text
        [4, _, high, low, ..] => Some(4 + u64::from(u16::from_be_bytes([*high, *low]))),
        [] | [1 | 2 | 4, ..] => None,
        _ => Some(u64::MAX),
    }
}

/// How many rows the record batch has that a record begins, and 0 for any other record.
pub(crate) fn rows_begun(beginning: &[u8]) -> u64 {
    match beginning {
        [2, _, _, _, _, _, message @ ..] => match header_of(message) {
            Some(header) => rows_of(header).unwrap_or(0),
            None => 0,
        },
        _ => 0,
    }
}

// The header of an Arrow message in a FlightData of which the beginning is there (field 2).
fn header_of(message: &[u8]) -> Option<&[u8]> {
    let mut fields = Fields::new(message);
    while let Ok(Some(field)) = fields.next() {
        if let (2, Payload::Bytes(header)) = (field.number, field.payload) {
            return Some(header);
        }
    }
    None
}

// How many rows the header of a record batch says.
fn rows_of(header: &[u8]) -> Result<u64, Fault> {
    let message = read_message(header)?;
    match message.kind {
        HeaderKind::RecordBatch => message.header()?.scalar(0, Width::Eight, 0),
        HeaderKind::Schema | HeaderKind::DictionaryBatch => Ok(0),
    }
}
