//! A message of a stream.

use bytes::Bytes;

/// A message of an Arrow IPC stream: its header, with the zeros after it that its length counts,
/// and its body.
#[derive(Debug, Drop)]
pub struct IpcMessage {
    pub header: Bytes,
    pub body: Bytes,
}
