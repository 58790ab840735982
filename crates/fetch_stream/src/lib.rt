//! The answer to a fetch: the rows of a handle at its version, as messages.
//!
//! `specs/Fetches.antt` says what a fetch shows, and what its handle answers; `specs/Streams.antt`
//! what a stream gives of an answer, one payload at a time.
#![tactic(auto)]

mod ahead_parcel;
mod cutter;
pub mod executor;
pub mod fetch;
pub mod laws;
mod message;
pub mod morsel_parcels;
pub mod morsels;
pub mod opening;
pub mod parcel;
pub mod payload;
mod payload_work;
mod source;
pub mod stream;

pub use crate::executor::{Execution, Executor, OneWorker, Payloads, ReadsPayloads};
pub use crate::fetch::{read_ticket, version_of};
pub use crate::morsel_parcels::MorselParcels;
pub use crate::morsels::Morsels;
pub use crate::opening::Opening;
pub use crate::parcel::Parcel;
pub use crate::payload::Payload;
pub use crate::stream::FetchStream;
