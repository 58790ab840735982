//! Reading the payloads of a put.

ghost use Rattle.std.specs.Prelude.{◌≡◌, ◌++◌, ◌∷◌, [], Ok, Err, None, Some, IfOk, IfErr, OnErr};
ghost use Rattle.std.specs.Prelude.{List, Option};
ghost use Rattle.scan_base.specs.declared.fault.Fault.{Fault};
ghost use Rattle.scan_base.specs.Reading.{Gives, GivesUnlessMemory, RefusesFirst};
ghost use Rattle.flight_proto.specs.Ingest.{ingest_of};
ghost use Rattle.arrays.specs.Batch.{BatchAt};
ghost use Rattle.table_versions.specs.StoredTables.{put_of};
ghost use Rattle.flight_info.specs.Payloads.{Payload};
ghost use Rattle.flight_core.specs.Puts.{news_in_payload, message_glance, first_glance, put_glance};
ghost use Rattle.flight_core.specs.Puts.{put_said};
ghost use Rattle.flight_core.specs.Refusals.{GivesBehind};
ghost use Rattle.flight_core.specs.StoredPayloads.{MayBeStored, batches_in};
ghost use Rattle.flight_core.specs.Arriving.{StartedPutAt, begun_by, after_payload, glance_next};
ghost use Rattle.flight_core.specs.Arriving.{said_next, whole_put, put_from, HasRead};

use arrays::Batch;
use batch_stats::MeasuredBatch;
use bytes::Bytes;
use flight_proto::{BorrowedData, FlightData, Ingest, read_ingest};
use ipc_batch::Reader;
use scan_base::{Fault, IfExists, IfNotExist, Text};
use std::alloc::Global;
use std::marker::Model;
use table_versions::Put;

// What is refused of a payload before anything grows or is cut.
#[tactic(auto, unfolding(crate::specs::Puts::message_glance))]
fn glance(alloc: Global, reader: &Reader, payload: &[u8]) -> Result<(), Fault>
    ensures { Gives (λ done. done) result (message_glance reader.now payload.now) }
{
    let data = BorrowedData::read(payload)?;
    if data.data_header.is_empty() {
        return Ok(());
    }
    reader.glance(alloc, data.data_header, data.data_body)
}

// Reads a payload: a batch, or `None` where it has the schema, a dictionary or no message.
#[tactic(auto, unfolding(crate::specs::Puts::news_in_payload, crate::specs::Puts::message_glance))]
fn read_payload(alloc: Global, reader: &mut Reader, payload: &Bytes) -> Result<Option<Batch>, Fault>
    ensures told { GivesUnlessMemory (λ batch. record { state = reader.new; batch = batch })
        result (news_in_payload reader.old payload.now) }
    ensures first { RefusesFirst result (message_glance reader.old payload.now) }
    ensures kept { OnErr result (reader.new ≡ reader.old) }
    ensures stored { (batches : List BatchAt) → MayBeStored reader.old batches →
        IfOk result (λ batch. MayBeStored reader.new (batches ++ batches_in batch)) }
{
    let Ok(data) = FlightData::read(payload) else {
        glance(alloc, reader, payload.as_slice())?;
        return Err(Fault::OutOfMemory);
    };
    if data.data_header.is_empty() {
        return Ok(None);
    }
    reader.message(alloc, data.data_header, data.data_body)
}

// A put whose command was read: its options, and what its payloads tell.
#[derive(Drop)]
struct StartedPut {
    table: Text,
    if_not_exist: IfNotExist,
    if_exists: IfExists,
    reader: Reader,
    batches: Vec<MeasuredBatch>,
}

impl Model for StartedPut {
    ghost use Rattle.std.specs.List.{flat_map};
    ghost use Rattle.arrays.specs.Batch.{rows_of};
    ghost use Rattle.flight_core.specs.StoredPayloads.{MayBeStored};
    ghost use Rattle.flight_core.specs.Arriving.{StartedPutAt};

    ghost Value = { StartedPutAt };

    ghost view = { λ b. record {
      ingest = record { table = b.table; if_not_exist = b.if_not_exist; if_exists = b.if_exists };
      told = record { state = b.reader; rows = flat_map rows_of b.batches.items };
    } };

    ghost invariant = { λ b. MayBeStored b.reader b.batches.items };
}

impl StartedPut {
    // A put with the command of its first payload. No message was read.
    fn new(alloc: Global, first: &Bytes) -> Result<StartedPut, Fault>
        ensures { GivesBehind (ingest_of first.now) (λ begun. begun) result (begun_by first.now) }
    {
        let ingest = read_ingest(first.as_slice())?;
        Ok(StartedPut {
            table: Text::new(alloc, ingest.table)?,
            if_not_exist: ingest.if_not_exist,
            if_exists: ingest.if_exists,
            reader: Reader::new(),
            batches: Vec::new(alloc),
        })
    }

    // A put with what its first payload says.
    fn first(alloc: Global, payload: &Bytes) -> Result<StartedPut, Fault>
        ensures { GivesBehind (first_glance payload.now) (λ begun. Some begun) result
            (said_next None payload.now) }
    {
        let Ok(mut first) = StartedPut::new(alloc, payload) else {
            read_ingest(payload.as_slice())?;
            glance(alloc, &Reader::new(), payload.as_slice())?;
            return Err(Fault::OutOfMemory);
        };
        first.push(alloc, payload)?;
        Ok(first)
    }

    // Reads the next payload.
    fn push(&mut self, alloc: Global, payload: &Bytes) -> Result<(), Fault>
        ensures { GivesBehind (message_glance self.old.told.state payload.now)
            (λ _. Some self.new) result (after_payload self.old payload.now) }
    {
        if let Some(batch) = read_payload(alloc, &mut self.reader, payload)? {
            self.batches.push(MeasuredBatch::new(alloc, batch)?)?;
        }
        Ok(())
    }
}

// Reads the next payload of a put: the first one has its command.
fn read_next(alloc: Global, begun: &mut Option<StartedPut>, payload: &Bytes) -> Result<(), Fault>
    ensures { GivesBehind (glance_next begun.old payload.now) (λ _. begun.new) result
        (said_next begun.old payload.now) }
{
    match begun {
        Some(begun) => begun.push(alloc, payload),
        None => {
            *begun = Some(StartedPut::first(alloc, payload)?);
            Ok(())
        }
    }
}

// The put, where no payload follows: F5 where none came, and F8 where no schema did.
fn whole_put(begun: Option<StartedPut>) -> Result<Put, Fault>
    ensures { Gives put_of result (whole_put begun) }
{
    let Some(begun) = begun else {
        return Err(Fault::UnknownCommand);
    };
    let Some(schema) = begun.reader.into_schema() else {
        return Err(Fault::BadBatch);
    };
    Ok(Put::new(
        begun.table,
        begun.if_not_exist,
        begun.if_exists,
        schema,
        begun.batches,
    ))
}

/// Reads the payloads of a put one after another. Of those that came it holds no more than the put
/// needs: the columns of their batches, which are cuts of them, and the statistics of each column.
/// After the first fault it holds nothing.
///
/// A contract sees what the payloads say so far, or the first fault.
#[derive(Drop)]
pub struct PutReader {
    begun: Result<Option<StartedPut>, Fault>,
}

impl Model for PutReader {
    ghost use Rattle.std.specs.Prelude.{Option, Result};
    ghost use Rattle.scan_base.specs.declared.fault.Fault.{Fault};
    ghost use Rattle.flight_core.specs.Arriving.{StartedPutAt};

    ghost Value = { Result (Option StartedPutAt) Fault };

    ghost view = { λ r. r.begun };
}

impl PutReader {
    /// A reader to which no payload came. It takes no memory.
    pub fn new() -> PutReader
        ensures { result ≡ Ok None }
    {
        PutReader { begun: Ok(None) }
    }

    /// Reads the next payload. Its fault is kept, and what comes after it is not looked at. What a
    /// glance at it refuses is never told as want of memory.
    pub fn push(&mut self, alloc: Global, payload: &Bytes)
        ensures read { (payloads : List Payload) → HasRead payloads self.old
            → HasRead (payloads ++ payload.now ∷ []) self.new }
        ensures first { (begun : Option StartedPutAt) → self.old ≡ Ok begun
            → IfErr (glance_next begun payload.now) (λ fault. self.new ≡ Err fault) }
        ensures kept { (fault : Fault) → self.old ≡ Err fault → self.new ≡ Err fault }
    {
        let Ok(begun) = &mut self.begun else {
            return;
        };
        if let Err(fault) = read_next(alloc, begun, payload) {
            self.begun = Err(fault);
        }
    }

    /// The put that the payloads say. It takes no memory.
    ///
    /// # Errors
    ///
    /// The first fault, as in [`read_put`]: F21 (`Fault::OutOfMemory`) only where it was refused
    /// before.
    pub fn into_put(self) -> Result<Put, Fault>
        ensures read { (payloads : List Payload) → HasRead payloads self
            → GivesBehind (put_glance payloads) put_of result (put_said payloads) }
        ensures whole { Gives put_of result (put_from self) }
    {
        match self.begun {
            Ok(begun) => whole_put(begun),
            Err(fault) => Err(fault),
        }
    }
}

/// The put that the payloads of a call say, each a FlightData. Its columns are cuts of the
/// payloads: no value is copied.
///
/// # Errors
///
/// The first fault in the order of the payloads, and of the first payload its command before its
/// message:
/// - F5 (`Fault::UnknownCommand`) where there is no payload, and the faults of
///   `flight_proto::read_ingest` (F4, F5, F12, F16) for the command.
/// - F4 (`Fault::BadProto`) for a payload that is no FlightData.
/// - The faults of `ipc_batch::Reader::message` (F6, F7, F8, F12) for a message. A payload with an
///   empty header has none.
/// - F8 (`Fault::BadBatch`) where no schema came.
/// - F21 (`Fault::OutOfMemory`) where memory is refused, and neither for the command nor for what
///   `ipc_batch::Reader::message` looks at first in the message of the first payload.
pub fn read_put(alloc: Global, payloads: &[Bytes]) -> Result<Put, Fault>
    ensures { GivesBehind (put_glance payloads.now) put_of result (put_said payloads.now) }
{
    let mut reader = PutReader::new();
    for payload in payloads {
        reader.push(alloc, payload);
    }
    reader.into_put()
}
