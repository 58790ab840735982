//! An Arrow IPC stream, cut into its messages.
#![tactic(auto)]

mod frame;
pub mod laws;
pub mod message;
pub mod stream;

pub use crate::message::IpcMessage;
pub use crate::stream::ipc_messages;
