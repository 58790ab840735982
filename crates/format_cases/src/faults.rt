//! Faults and texts.

use crate::words::{Word, told};
use grpc_frame::{MemoryOutput, Outbox};
use scan_base::{Fault, read_text};
use std::alloc::Global;

static FAULTS: [Fault; 22] = [
    Fault::BadFrame,
    Fault::MessageTooLarge,
    Fault::UnknownMethod,
    Fault::BadProto,
    Fault::UnknownCommand,
    Fault::BadFlatbuffer,
    Fault::UnsupportedArrow,
    Fault::BadBatch,
    Fault::TableMissing,
    Fault::TableExists,
    Fault::SchemaMismatch,
    Fault::LimitReached,
    Fault::BadSql {
        position: 4294967295,
    },
    Fault::UnknownName,
    Fault::TypeClash,
    Fault::NotInSubset,
    Fault::BadTicket,
    Fault::VersionUnknown,
    Fault::VersionExpired,
    Fault::ResultTooLarge,
    Fault::OutOfMemory,
    Fault::Transport,
];

// The fault at a place of the table.
fn fault_at(place: &[u8]) -> Option<Fault> {
    let place = place.first()?;
    FAULTS.get(usize::from(*place)).copied()
}

/// The text of the fault at a place, and its gRPC number.
pub fn fault(alloc: Global, place: &[u8]) -> Result<String, Fault> {
    let fault = fault_at(place).ok_or(Fault::BadFrame)?;
    let (text, code) = (fault.text(), fault.code().number());
    told(
        alloc,
        &[Word::Text(text.as_str()), Word::Number(i128::from(code))],
    )
}

/// The record that answers a call with the fault at a place, or with none.
pub fn status(alloc: Global, place: &[u8]) -> Result<String, Fault> {
    let mut out = MemoryOutput::new(alloc);
    let mut outbox = Outbox::new(alloc);
    outbox.send_status(&mut out, fault_at(place))?;
    outbox.flush(&mut out)?;
    told(alloc, &[Word::Bytes(out.as_slice())])
}

/// The text that bytes are.
pub fn text(alloc: Global, bytes: &[u8]) -> Result<String, Fault> {
    let text = read_text(bytes, Fault::BadProto)?;
    told(alloc, &[Word::Text(text)])
}
