//! The calls of a connection, answered one after another.
//!
//! `specs/Calls.antt` says what a call asks and what answers it, and `specs/OwedAnswers.antt` what
//! a server owes for the bytes that it reads.
#![tactic(auto)]

mod answer;
mod call;
mod kept_versions;
pub mod laws;
mod request;
mod server;
mod setting;

pub use crate::server::{serve, serve_alone};
pub use crate::setting::{Options, Setting};
pub use fetch_stream::{Executor, OneWorker};
