//! The core: what is asked is answered by one step, over a log of accepted puts.
//!
//! `specs/Machine.antt` says what a step and a run are, `specs/Reacts.antt` what a step is over a
//! backend, and `specs/Puts.antt` what a put's payloads say.
#![tactic(auto)]

pub mod answer;
pub mod backend;
pub mod event;
pub mod laws;
pub mod machine;
pub mod operation;
pub mod payload_collector;
mod payloads;
pub mod plain;
pub mod put;
pub mod steps;

pub use crate::answer::Answer;
pub use crate::backend::{Backend, PlainBackend};
pub use crate::event::Event;
pub use crate::machine::{reply_to, run};
pub use crate::operation::Operation;
pub use crate::payload_collector::{answer_fetch, collect};
pub use crate::plain::Plain;
pub use crate::put::{PutReader, read_put};
pub use crate::steps::step;
pub use fetch_stream::{
    Execution, Executor, FetchStream, OneWorker, Parcel, Payload, Payloads, ReadsPayloads,
    read_ticket,
};
pub use flight_info::{Reply, answer_info, answer_schema, answer_tables};
