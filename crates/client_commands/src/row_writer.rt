//! Who writes rows, in each format of `query`.

use arrays::Batch;
use arrow_types::Schema;
use grpc_frame::Output;
use scan_base::{Fault, HashSeed};
use std::alloc::Global;

/// Rows of one schema, while they are written in a format.
pub(crate) trait RowWriter: Drop {
    ghost use Rattle.std.specs.Prelude.{◌≡◌, ◌∷◌, [], MatchResult};
    ghost use Rattle.arrow_types.specs.Schema.{IsSchema};
    ghost use Rattle.arrays.specs.TypedLayouts.{AreOfTypes};
    ghost use Rattle.grpc_frame.specs.Ends.{CanFail, FailsByTransport};
    ghost use Rattle.row_stream.specs.Stream.{CountsTransport, CountsWrites};
    ghost use Rattle.command_line.specs.declared.request.Format.{Format};
    ghost use Rattle.command_ends.specs.Printing.{said_of};
    ghost use Rattle.client_commands.specs.inside.Writers.{BeginsRows, Breaks, EndsRows};
    ghost use Rattle.client_commands.specs.inside.Writers.{IsCauseIn, SendsRows, WriterAt};
    ghost use Rattle.client_commands.specs.inside.Writers.{written_schema};

    // The format.
    ghost format: { Format };

    // The schema, and what waits for the next write or is held.
    ghost state: { Self → WriterAt };

    /// Begins the rows of these columns. With the seed the hashes begin by which texts are looked
    /// up.
    ///
    /// # Errors
    ///
    /// - `Fault::Transport` (F22) where a write failed. It is counted, and a beginning is written.
    /// - `Fault::OutOfMemory` (F21) where memory is refused. Nothing is written then.
    fn begin<W: Output>(
        alloc: Global,
        seed: HashSeed,
        output: &mut W,
        schema: &Schema,
    ) -> Result<Self, Fault>
        requires failures { CanFail (W.failures output.old) }
        requires schema { IsSchema schema.now }
        ensures bytes { BeginsRows format state result schema.now
            (W.contents output.old) (W.contents output.new) }
        ensures counted { CountsTransport result (W.failures output.old) (W.failures output.new) }
        ensures cause { MatchResult result (λ _. Unit {0})
            (IsCauseIn format (written_schema format schema.now) []) };

    /// The schema that is written.
    fn schema(&self) -> &Schema
        ensures { result.now ≡ (state self.now).schema };

    /// Writes the rows of a batch with a column for each field of the schema, of its type.
    ///
    /// # Errors
    ///
    /// - `Fault::Transport` (F22) where a write failed. It is counted, and a beginning is written.
    ///
    /// At these the rows break off, as `break_off` does it:
    /// - `Fault::OutOfMemory` (F21) where memory is refused.
    /// - `Fault::LimitReached` (F12), of Arrow only, where one row would have 2 to the 31 bytes or
    ///   more.
    fn write_batch<W: Output>(&mut self, output: &mut W, batch: Batch) -> Result<(), Fault>
        requires failures { CanFail (W.failures output.old) }
        requires typed { AreOfTypes ((state self.old).schema).fields batch.columns }
        ensures bytes { SendsRows result format batch (state self.old) (state self.new)
            (said_of W.Output output.old) (said_of W.Output output.new) }
        ensures kept { (state self.new).schema ≡ (state self.old).schema }
        ensures counted { CountsWrites result (W.failures output.old) (W.failures output.new) }
        ensures cause { MatchResult result (λ _. Unit {0})
            (IsCauseIn format (state self.old).schema (batch ∷ [])) };

    /// Breaks off: writes what waits. A write that failed is counted.
    fn break_off<W: Output>(&mut self, output: &mut W)
        requires { CanFail (W.failures output.old) }
        ensures { Breaks format (state self.old) (said_of W.Output output.old)
            (said_of W.Output output.new) };

    /// Ends the rows: writes what waits or is held, and what stands after it.
    ///
    /// # Errors
    ///
    /// `Fault::Transport` (F22) where a write failed. It is counted, and a beginning is written.
    fn end<W: Output>(self, output: &mut W) -> Result<(), Fault>
        requires { CanFail (W.failures output.old) }
        ensures bytes { EndsRows result format (state self) (W.contents output.old)
            (W.contents output.new) }
        ensures counted { CountsTransport result (W.failures output.old) (W.failures output.new) }
        ensures cause { FailsByTransport result };
}
