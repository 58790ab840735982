//! The backend of a server whose connections share one history.
//!
//! `specs/Sharing.antt` says how its seat is seen.
#![tactic(auto)]

mod backend;

pub use crate::backend::{RestingBackend, SeatName, SharedBackend};
