//! Writing a stream, batch by batch.

ghost use Rattle.std.specs.Prelude.{◌≡◌, ◌∷◌, [], ℕ, List, Option, MatchResult};
ghost use Rattle.arrow_types.specs.declared.schema.Schema.{Schema};
ghost use Rattle.arrow_types.specs.Schema.{IsSchema};
ghost use Rattle.arrays.specs.TypedLayouts.{AreOfTypes};
ghost use Rattle.ipc_batch.specs.SaidRows.{Rows};
ghost use Rattle.grpc_frame.specs.Ends.{CanFail, FailsByTransport};
ghost use Rattle.row_stream.specs.Stream.{numbered_schema, BreaksOff, CountsTransport};
ghost use Rattle.row_stream.specs.Stream.{CountsWrites, IsCause, WritesStream};
ghost use Rattle.row_stream.specs.Writing.{Begins, SendsBatch, SoFar};

use crate::dresser::Dresser;
use crate::message::schema_message;
use crate::sending::{break_off, send_batch, write_frame, write_last};
use arrays::Batch;
use arrow_types::Schema;
use grpc_frame::{Outbox, Output};
use scan_base::{Fault, HashSeed};
use std::alloc::Global;
use std::marker::Model;

// A header of no byte is announced.
const END_MARKER: [u8; 8] = [0xff, 0xff, 0xff, 0xff, 0, 0, 0, 0];

/// An Arrow IPC stream while it is written: up to 16,384 bytes wait for the next write. A contract
/// sees those bytes, and the schema that was written.
///
/// Longer buffers are written as they lie. Other values are copied only where they do not lie as
/// they are written, and so are the texts of dictionaries.
#[derive(Drop)]
pub struct StreamWriter {
    dresser: Dresser,
    outbox: Outbox,
}

impl Model for StreamWriter {
    ghost use Rattle.row_stream.specs.Writing.{WriterAt};

    ghost Value = { WriterAt };

    ghost view = { λ writer. record { schema = writer.dresser; waiting = writer.outbox } };
}

impl StreamWriter {
    /// Begins a stream: writes the schema of these columns. Each dictionary gets the number of its
    /// column as its id, and indices of 32 bits. With the seed the hashes begin by which texts are
    /// looked up.
    ///
    /// # Errors
    ///
    /// - `Fault::Transport` (F22) where a write failed. It is counted, and a beginning of the
    ///   stream is written.
    /// - `Fault::OutOfMemory` (F21) where memory is refused. Nothing is written then.
    pub fn begin<W: Output>(
        alloc: Global,
        seed: HashSeed,
        output: &mut W,
        schema: &Schema,
    ) -> Result<StreamWriter, Fault>
        requires failures { CanFail (W.failures output.old) }
        requires schema { IsSchema schema.now }
        ensures bytes { Begins (λ writer. writer) result (numbered_schema schema.now)
            (W.contents output.old) (W.contents output.new) }
        ensures counted { CountsTransport result (W.failures output.old) (W.failures output.new) }
        ensures cause { MatchResult result (λ _. Unit {0})
            (IsCause (numbered_schema schema.now) []) }
    {
        let mut outbox = Outbox::new(alloc);
        let dresser = Dresser::new(alloc, seed, schema)?;
        let message = schema_message(alloc, &dresser.schema)?;
        write_frame(output, &mut outbox, &message)?;
        Ok(StreamWriter { dresser, outbox })
    }

    /// The schema that was written.
    pub fn schema(&self) -> &Schema
        ensures { result.now ≡ self.now.schema }
    {
        &self.dresser.schema
    }

    /// Writes a batch with a column for each field of the schema, of its type: the messages of its
    /// dictionaries, each of the texts that the batch holds, and then that of its rows. It is cut
    /// where their bodies would have more than 8,388,608 bytes, and after 65,536 rows. Each cut has
    /// its own dictionaries.
    ///
    /// # Errors
    ///
    /// - `Fault::Transport` (F22) where a write failed. It is counted, and a beginning of the
    ///   stream is written, which says some of the rows.
    ///
    /// At these the stream breaks off after some of the rows, as `break_off` does it:
    /// - `Fault::OutOfMemory` (F21) where memory is refused.
    /// - `Fault::LimitReached` (F12) where the bodies of one row would have 2 to the 31 bytes or
    ///   more.
    pub fn write_batch<W: Output>(&mut self, output: &mut W, batch: &Batch) -> Result<(), Fault>
        requires failures { CanFail (W.failures output.old) }
        requires typed { AreOfTypes (self.old.schema).fields batch.now.columns }
        ensures bytes { SendsBatch result self.old.schema batch.now (W.contents output.old)
            (W.contents output.new)
            self.old.waiting self.new.waiting (W.failures output.old) (W.failures output.new) }
        ensures kept { self.new.schema ≡ self.old.schema }
        ensures counted { CountsWrites result (W.failures output.old) (W.failures output.new) }
        ensures cause { MatchResult result (λ _. Unit {0})
            (IsCause self.old.schema (batch.now ∷ [])) }
    {
        send_batch(&self.dresser, output, &mut self.outbox, batch)
    }

    /// Breaks the stream off: writes what waits, and after it the start of a message that never
    /// ends. So no reader takes what is written for a whole stream. A write that failed is counted.
    pub fn break_off<W: Output>(&mut self, output: &mut W)
        requires { CanFail (W.failures output.old) }
        ensures { (schema : Schema) (rows : Rows) (start : Option (List ℕ)) →
            SoFar schema rows start (W.contents output.old) self.old.waiting →
            BreaksOff schema rows start (W.contents output.new) (W.failures output.old)
            (W.failures output.new) }
    {
        break_off(output, &mut self.outbox);
    }

    /// Ends the stream: writes the end marker, and what waits.
    ///
    /// # Errors
    ///
    /// `Fault::Transport` (F22) where a write failed. It is counted. A beginning of the stream is
    /// written then.
    pub fn end<W: Output>(self, output: &mut W) -> Result<(), Fault>
        requires { CanFail (W.failures output.old) }
        ensures bytes { (schema : Schema) (rows : Rows) (start : Option (List ℕ)) →
            SoFar schema rows start (W.contents output.old) self.waiting →
            WritesStream result schema rows start (W.contents output.new) }
        ensures counted { CountsTransport result (W.failures output.old) (W.failures output.new) }
        ensures cause { FailsByTransport result }
    {
        let mut outbox = self.outbox;
        write_last(output, &mut outbox, &END_MARKER)
    }
}
