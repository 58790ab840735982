//! The bytes of a first run, written by hand from the published formats: the appendix of
//! docs/PROTOCOL.md has them part by part.

use std::alloc::{AllocError, Global};

/// A put of the rows 1 and 2 into a new table `t`, which has a nullable 64-bit integer column `a`:
/// its path, its command, the schema's header, the batch's header and its body.
pub const PUT: &[u8] = b"\x01\x00*/arrow.flight.protocol.FlightService/DoPut\
    \x02\x00\x00\x00\x00\xc7\x0aS\x08\x02\x12O\x0aD\
    type.googleapis.com/arrow.flight.protocol.sql.CommandStatementIngest\
    \x12\x07\x0a\x02\x08\x01\x12\x01t\x12p\
    \x10\x00\x00\x00\x00\x00\x0a\x00\x0c\x00\x08\x00\x0a\x00\x04\x00\x0a\x00\x00\x00\x10\x00\x00\
    \x00\x04\x00\x01\x00\x08\x00\x08\x00\x00\x00\x04\x00\x08\x00\x00\x00\x04\x00\x00\x00\x01\x00\
    \x00\x00\x10\x00\x00\x00\x0c\x00\x10\x00\x04\x00\x0c\x00\x0d\x00\x08\x00\x0c\x00\x00\x00\x0c\
    \x00\x00\x00\x18\x00\x00\x00\x01\x02\x00\x00\x01\x00\x00\x00a\x00\x00\x00\x08\x00\x0c\x00\
    \x04\x00\x08\x00\x08\x00\x00\x00@\x00\x00\x00\x01\x00\x00\x00\x00\x00\x00\x00\
    \x02\x00\x00\x00\x00\x96\x12\x80\x01\
    \x10\x00\x00\x00\x0c\x00\x14\x00\x10\x00\x12\x00\x04\x00\x08\x00\x0c\x00\x00\x00\x1c\x00\x00\
    \x00\x10\x00\x00\x00\x00\x00\x00\x00\x04\x00\x03\x00\x00\x00\x0a\x00\x14\x00\x08\x00\x04\x00\
    \x10\x00\x0a\x00\x00\x00\x10\x00\x00\x00\x02\x00\x00\x00\x00\x00\x00\x00\x1c\x00\x00\x00\x01\
    \x00\x00\x00\x02\x00\x00\x00\x00\x00\x00\x00\x00\x00\x00\x00\x00\x00\x00\x00\x00\x00\x00\x00\
    \x02\x00\x00\x00\x00\x00\x00\x00\x00\x00\x00\x00\x00\x00\x00\x00\x00\x00\x00\x00\x00\x00\x00\
    \x00\x00\x00\x00\x00\x10\x00\x00\x00\x00\x00\x00\x00\
    \xc2>\x10\
    \x01\x00\x00\x00\x00\x00\x00\x00\x02\x00\x00\x00\x00\x00\x00\x00\
    \x03";

/// Where in the put the option stands that makes the table, what follows it, and where its batch
/// begins and ends.
pub const MODE_AT: usize = 131;

pub const AFTER_MODE: usize = 133;

pub const BATCH_AT: usize = 250;

pub const PUT_END_AT: usize = 406;

/// A fetch of `SELECT * FROM t` at version 1, rows 0 to 2: its path, its Ticket and the handle.
pub const FETCH: &[u8] = b"\x01\x00*/arrow.flight.protocol.FlightService/DoGet\
    \x02\x00\x00\x00\x00j\x0ah\x0aB\
    type.googleapis.com/arrow.flight.protocol.sql.TicketStatementQuery\
    \x12\x22\x0a \
    \x01\x00\x00\x00\x00\x00\x00\x00\x01\x00\x00\x00\x00\x00\x00\x00\x02SELECT * FROM t\x03";

/// Where in the fetch the handle begins and ends.
pub const HANDLE_AT: usize = 125;

pub const FETCH_END_AT: usize = 157;

/// The answer to the put: two rows, and status 0.
pub const PUT_ANSWER: &[u8] = b"\x02\x00\x00\x00\x00\x04\x0a\x02\x08\x02\x04\x00\x00\x00";

/// The body of the batch: the two rows.
pub const ROWS: &[u8] = b"\x01\x00\x00\x00\x00\x00\x00\x00\x02\x00\x00\x00\x00\x00\x00\x00";

/// The bytes from one place up to another, or none where there are fewer.
pub fn part(bytes: &[u8], from: usize, to: usize) -> &[u8] {
    bytes.get(from..to).unwrap_or(&[])
}

/// The bytes from a place on.
pub fn rest(bytes: &[u8], from: usize) -> &[u8] {
    bytes.get(from..).unwrap_or(&[])
}

/// The bytes of these parts.
pub fn joined(alloc: Global, parts: &[&[u8]]) -> Result<Vec<u8>, AllocError> {
    let mut bytes = Vec::new(alloc);
    for part in parts {
        bytes.extend_from_slice(part)?;
    }
    Ok(bytes)
}

/// Whether the bytes are those of these parts.
pub fn is_joined(bytes: &[u8], parts: &[&[u8]]) -> bool {
    let mut rest = bytes;
    for part in parts {
        let Some(behind) = rest.strip_prefix(*part) else {
            return false;
        };
        rest = behind;
    }
    rest.is_empty()
}
