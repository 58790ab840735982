//! The program's words, where the system does not give them.

ghost use Rattle.std.specs.Prelude.{◌≡◌, ◌≢◌};
ghost use Rattle.std.specs.declared.io.ErrorKind.TheVariants as cause;
ghost use Rattle.grpc_frame.specs.Ends.{CanFail};
ghost use Rattle.command_ends.specs.Printing.{said_of};
ghost use Rattle.commands.specs.Words.{LacksMemory, HasNoText};

use command_ends::{ExitStatus, end_by_fault};
use grpc_frame::Output;
use scan_base::Fault;
use std::io::ErrorKind;

const NO_TEXT: &[u8] = b"error: a word of the command line is not UTF-8\n";

/// Says why the program's words cannot be read, as far as `faults` takes it: memory was refused for
/// them, which is the fault F21, or else one of them is not UTF-8.
pub fn refuse_arguments<E: Output>(why: ErrorKind, faults: &mut E) -> ExitStatus
    requires { CanFail (E.failures faults.old) }
    ensures memory { why ≡ cause.OutOfMemory → LacksMemory result
        (said_of E.Output faults.old) (said_of E.Output faults.new) }
    ensures text { why ≢ cause.OutOfMemory → HasNoText result
        (said_of E.Output faults.old) (said_of E.Output faults.new) }
{
    if why == ErrorKind::OutOfMemory {
        return end_by_fault(faults, Fault::OutOfMemory);
    }
    let _ = faults.write(NO_TEXT);
    ExitStatus::BadCommandLine
}
