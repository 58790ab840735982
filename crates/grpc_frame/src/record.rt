//! Records.

use bytes::{ByteStr, Bytes};

/// The most bytes of a path.
pub const MAX_PATH_LEN: usize = 256;

/// The most bytes of a message.
pub const MAX_MESSAGE_LEN: usize = 16_777_216;

// The kind byte of each record.
pub(crate) const OPEN: u8 = 1;

pub(crate) const MESSAGE: u8 = 2;

pub(crate) const END: u8 = 3;

pub(crate) const STATUS: u8 = 4;

/// A record of a connection. What it holds lies in memory of its own, of just its size.
#[derive(Debug, PartialEq, Eq, Drop)]
pub enum Record {
    /// Begins a call of the method at this path, of at most `MAX_PATH_LEN` bytes.
    Open(Bytes),
    /// One message of a call or an answer, of at most `MAX_MESSAGE_LEN` bytes.
    Message(Bytes),
    /// Ends a call.
    End,
    /// Ends an answer: a gRPC status code and its text, of at most 65,535 bytes.
    Status { code: u8, text: ByteStr },
}
