//! What is asked for at a version, and the answers to GetFlightInfo and GetSchema.
//!
//! `specs/QueryMeaning.antt` says what a text asks and means, `specs/Infos.antt` and
//! `specs/Forms.antt` what an info and a schema answer, and `specs/Payloads.antt` what the payloads
//! of an answer say.
#![tactic(auto)]

pub mod info;
pub mod query_plan;
pub mod reply;
pub mod tables;

pub use crate::info::{answer_info, answer_schema, answer_tables};
pub use crate::query_plan::{QueryPlan, plan_text};
pub use crate::reply::{Reply, payload_of};
pub use crate::tables::{tables_batch, tables_schema};
