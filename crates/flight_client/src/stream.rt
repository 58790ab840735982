//! One stream of an answer.

ghost use Rattle.std.specs.Prelude.{◌≡◌, ◌∷◌, ◌++◌, [], List, OnOk, OnErr};
ghost use Rattle.scan_base.specs.Reading.{Gives, GivesUnlessMemory, RefusesFirst};
ghost use Rattle.flight_info.specs.Payloads.{Payload};
ghost use Rattle.flight_client.specs.Stream.{begun, after_payload, glance_of, Came, Ends};
ghost use Rattle.flight_client.specs.Stream.{schema_said};

use crate::status::status_end;
use crate::stream_reader::StreamReader;
use arrays::Batch;
use arrow_types::Schema;
use bytes::Bytes;
use scan_base::Fault;
use std::alloc::Global;
use std::marker::Model;

/// A stream of an answer: the payloads of a fetch as they come, and then its status. It holds the
/// batches that they say, whose values are cuts of the payloads: none is copied.
#[derive(Drop)]
pub struct Stream {
    pub(crate) reader: StreamReader,
    pub(crate) batches: Vec<Batch>,
    end: Option<Result<(), Fault>>,
}

impl Model for Stream {
    ghost use Rattle.std.specs.List.{flat_map};
    ghost use Rattle.arrays.specs.Batch.{rows_of};
    ghost use Rattle.flight_client.specs.Stream.{StreamAt};
    ghost use Rattle.flight_client.specs.inside.TypedColumns.{AreTyped};

    ghost Value = { StreamAt };

    ghost view = { λ s. record {
      state = s.reader;
      rows = flat_map rows_of s.batches.items;
      end = s.end;
    } };

    ghost invariant = { λ s. AreTyped s.reader s.batches.items };
}

impl Stream {
    /// A stream of which nothing came. It takes no memory.
    pub fn new(alloc: Global) -> Stream
        ensures new { result ≡ begun }
        ensures came { Came [] result }
    {
        Stream {
            reader: StreamReader::new(),
            batches: Vec::new(alloc),
            end: None,
        }
    }

    /// Reads the next payload: a FlightData that carries a message.
    ///
    /// # Errors
    ///
    /// The stream is as before then.
    /// - F4 (`Fault::BadProto`) where the payload is no FlightData.
    /// - Those of `ipc_batch::Reader::message` (F6, F7, F8, F12) for its message, also where its
    ///   header is empty.
    /// - F21 (`Fault::OutOfMemory`) where memory is refused, and never for a payload that is no
    ///   FlightData, nor for what `Reader::message` looks at first.
    pub fn message(&mut self, alloc: Global, payload: &Bytes) -> Result<(), Fault>
        ensures exact { GivesUnlessMemory (λ _. self.new) result
            (after_payload self.old payload.now) }
        ensures first { RefusesFirst result (glance_of self.old payload.now) }
        ensures came { OnOk result ((payloads : List Payload) → Came payloads self.old
            → Came (payloads ++ payload.now ∷ []) self.new) }
        ensures kept { OnErr result (self.new ≡ self.old) }
    {
        if let Some(batch) = self.reader.message(alloc, payload)? {
            self.batches.push(batch)?;
        }
        Ok(())
    }

    /// The status came, of this code and this text. A code other than 0 stands for the fault with
    /// that code and that text, or for F1 (`Fault::BadFrame`) where no fault has both. It takes no
    /// memory.
    pub fn end(&mut self, code: u8, text: &str)
        ensures { Ends self.old code text.now self.new }
    {
        self.end = Some(status_end(code, text));
    }

    // The schema that the stream says, or its fault.
    pub(crate) fn schema(&self) -> Result<&Schema, Fault>
        ensures { Gives (λ schema. schema.now) result (schema_said self.now) }
    {
        match self.end {
            None => return Err(Fault::Transport),
            Some(Err(fault)) => return Err(fault),
            Some(Ok(())) => {}
        }
        self.reader.schema().ok_or(Fault::BadBatch)
    }
}
