//! The payloads of a stream, read one after the other.

ghost use Rattle.std.specs.Prelude.{◌≡◌, None, IfOk, IfSome, option_map};
ghost use Rattle.arrow_types.specs.Schema.{IsSchema};
ghost use Rattle.scan_base.specs.Reading.{Gives, RefusesFirst};
ghost use Rattle.ipc_batch.specs.SaidRows.{Answers, HasColumns};
ghost use Rattle.flight_client.specs.Stream.{payload_glance, payload_news};

use arrays::Batch;
use arrow_types::Schema;
use bytes::Bytes;
use flight_proto::{BorrowedData, FlightData};
use ipc_batch::Reader;
use scan_base::Fault;
use std::alloc::Global;
use std::marker::Model;

/// Reads the payloads of a stream, and hands out their batches. It holds the schema and the
/// dictionaries, and no row. A contract sees what the payloads so far leave after.
#[derive(Drop)]
pub struct StreamReader {
    reader: Reader,
}

impl Model for StreamReader {
    ghost use Rattle.ipc_batch.specs.State.{State};

    ghost Value = { State };

    ghost view = { λ r. r.reader };
}

impl StreamReader {
    /// No payload came. It takes no memory.
    pub fn new() -> StreamReader
        ensures { result ≡ None }
    {
        StreamReader {
            reader: Reader::new(),
        }
    }

    /// The schema that the payloads say, once it came.
    pub fn schema(&self) -> Option<&Schema>
        ensures value { option_map (λ schema. schema.now) result
            ≡ option_map (λ known. known.schema) self.now }
        ensures valid { IfSome result (λ schema. IsSchema schema.now) }
    {
        self.reader.schema()
    }

    /// The schema that the payloads said, once it came, without the reader.
    pub fn into_schema(self) -> Option<Schema>
        ensures value { result ≡ option_map (λ known. known.schema) self }
        ensures valid { IfSome result IsSchema }
    {
        self.reader.into_schema()
    }

    /// Reads the next payload, a FlightData that carries a message: its batch, or nothing where it
    /// says a schema or a dictionary. The batch's values are cuts of the payload.
    ///
    /// # Errors
    ///
    /// The reader is as before then.
    /// - F4 (`Fault::BadProto`) where the payload is no FlightData.
    /// - Those of `ipc_batch::Reader::message` (F6, F7, F8, F12) for its message, also where its
    ///   header is empty.
    /// - F21 (`Fault::OutOfMemory`) where memory is refused, and never for a payload that is no
    ///   FlightData, nor for what `Reader::message` looks at first.
    #[tactic(auto, unfolding(crate::specs::Stream::payload_news, crate::specs::Stream::payload_glance))]
    pub fn message(&mut self, alloc: Global, payload: &Bytes) -> Result<Option<Batch>, Fault>
        ensures exact { Answers result self.old (payload_news self.old payload.now) self.new }
        ensures first { RefusesFirst result (payload_glance self.old payload.now) }
        ensures columns { IfOk result (λ batch. HasColumns batch self.new) }
    {
        let Ok(data) = FlightData::read(payload) else {
            self.glance(alloc, payload.as_slice())?;
            return Err(Fault::OutOfMemory);
        };
        self.reader.message(alloc, data.data_header, data.data_body)
    }

    // What is refused of the next payload before anything grows or is cut.
    #[tactic(auto, unfolding(crate::specs::Stream::payload_glance))]
    fn glance(&self, alloc: Global, payload: &[u8]) -> Result<(), Fault>
        ensures { Gives (λ done. done) result (payload_glance self.now payload.now) }
    {
        let data = BorrowedData::read(payload)?;
        self.reader.glance(alloc, data.data_header, data.data_body)
    }
}
