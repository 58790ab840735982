//! Rows as an Arrow IPC stream.
//!
//! `specs/Stream.antt` says what a written stream is, and `specs/Writing.antt` how it is written,
//! batch by batch.
#![tactic(auto)]

mod batch_cuts;
mod dresser;
mod message;
mod sending;
mod writer;

pub use crate::writer::StreamWriter;
