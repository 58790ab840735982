//! The records of a connection: read however the stream is cut, and written to ends that count
//! their failures.
//!
//! A Message is a gRPC length-prefixed message after a kind byte. The other records are this
//! project's own. `specs/Records.antt` has the rules.
#![tactic(auto)]

mod arrivals;
mod counted_end;
mod ends;
mod head;
mod inbox;
pub mod laws;
mod memory;
mod outbox;
mod place;
mod read_buffer;
mod record;
mod sender;
mod transcript;
mod write;

pub use crate::counted_end::CountedEnd;
pub use crate::ends::{Input, Output};
pub use crate::inbox::Inbox;
pub use crate::memory::{MemoryInput, MemoryOutput};
pub use crate::outbox::{MAX_GATHERED_LEN, Outbox};
pub use crate::place::Place;
pub use crate::record::{MAX_MESSAGE_LEN, MAX_PATH_LEN, Record};
pub use crate::sender::Sender;
