//! `flightscan pipe`: one connection, from a reader to a writer.

ghost use Rattle.std.specs.Prelude.{[]};
ghost use Rattle.grpc_frame.specs.Ends.{CanFail};
ghost use Rattle.flight_core.specs.Seats.{Seat, seat_of};
ghost use Rattle.flight_calls.specs.OwedAnswers.{connection_of};
ghost use Rattle.command_ends.specs.Printing.{said_of};
ghost use Rattle.commands.specs.Pipe.{Pipes};

use command_ends::{ExitStatus, end_by_fault};
use flight_calls::{Executor, Setting, serve_alone};
use grpc_frame::{Input, Output};
use scan_base::HashSeed;

/// Serves one connection, from the reader to the writer, on a catalog that is empty at first, of
/// whose values hashes begin with the seed. It is done at the input's end. A fault of this end is
/// printed on `faults` in a line, as far as that takes it.
pub fn pipe<R: Input, W: Output, E: Output, X: Executor>(
    setting: &Setting<'_, X>,
    seed: HashSeed,
    reader: &mut R,
    writer: &mut W,
    faults: &mut E,
) -> ExitStatus
    // Each end can count one failure more.
    requires reads { CanFail (R.failures reader.old) }
    requires writes { CanFail (W.failures writer.old) }
    requires prints { CanFail (E.failures faults.old) }

    // The whole input is served, from the empty log, and nothing is printed; or a fault of this end
    // is, in a line.
    ensures { (seat : Seat) × Pipes setting.now.options result
        (connection_of (R.tape reader.old) (W.contents writer.old)
        (R.failures reader.old) (W.failures writer.old) (seat_of [] 0))
        (connection_of (R.tape reader.new) (W.contents writer.new)
        (R.failures reader.new) (W.failures writer.new) seat)
        (said_of E.Output faults.old) (said_of E.Output faults.new) }
{
    match serve_alone(setting, seed, reader, writer) {
        Ok(()) => ExitStatus::Done,
        Err(fault) => end_by_fault(faults, fault),
    }
}
