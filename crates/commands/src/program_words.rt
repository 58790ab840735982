//! The program's words.

ghost use Rattle.std.specs.Prelude.{ℕ, List, IfOk, map, string_bytes};
ghost use Rattle.grpc_frame.specs.Ends.{CanFail};
ghost use Rattle.clap.specs.Words.{kind_of};
ghost use Rattle.command_line.specs.Line.{Parsers, TakeNames};
ghost use Rattle.command_ends.specs.Printing.{Prints, said_of};
ghost use Rattle.commands.specs.Words.{AnswersKind, HasSeats, PrintsVersion, ReadsWords};

use clap::Error;
use clap::error::ErrorKind;
use command_ends::{ExitStatus, end_by_fault};
use command_line::{Request, options};
use grpc_frame::Output;
use scan_base::Fault;
use std::alloc::{AllocError, Global};

// What `--version` prints. The version is the one that CHANGELOG.md names.
const VERSION_LINE: &[u8] = b"flightscan 0.1.0\n";

// In place of a text for which memory is refused.
const NO_TEXT: &[u8] = b"error: out of memory\n";

/// Reads the program's words, whose first is its name.
///
/// # Errors
///
/// How the program ends, where the words are no request:
///
/// - They ask for the version. It is printed on `output`.
/// - They do not parse or ask for help. The text of clap's error is printed on `faults`.
/// - Memory is refused for reading them. The fault F21 is printed on `faults`.
///
/// Each is printed as far as the output takes it.
pub fn read_words<'a, W: Output, E: Output>(
    alloc: Global,
    words: &'a [String],
    output: &mut W,
    faults: &mut E,
) -> Result<Request<'a>, ExitStatus>
    // Each output can count one failure more.
    requires writes { CanFail (W.failures output.old) }
    requires prints { CanFail (E.failures faults.old) }

    // The words are a request, and nothing is printed; or they are none, and what ends the program
    // is.
    ensures reads { (parsers : Parsers) × TakeNames parsers
        × ReadsWords parsers (map string_bytes words.now) result
        (said_of W.Output output.old) (said_of W.Output output.new)
        (said_of E.Output faults.old) (said_of E.Output faults.new) }

    // A server that is asked for has as many seats as `serve` takes.
    ensures seats { IfOk result HasSeats }
{
    match options(alloc, words) {
        Ok(request) => Ok(request),
        Err(error) => Err(end_by_error(alloc, output, faults, &error)),
    }
}

// Prints the version that an error of clap's asks for, or its text, or the fault F21 where memory
// was refused.
fn end_by_error<W: Output, E: Output>(
    alloc: Global,
    output: &mut W,
    faults: &mut E,
    error: &Error,
) -> ExitStatus
    requires writes { CanFail (W.failures output.old) }
    requires prints { CanFail (E.failures faults.old) }
    ensures { AnswersKind (kind_of error.now) result
        (said_of W.Output output.old) (said_of W.Output output.new)
        (said_of E.Output faults.old) (said_of E.Output faults.new) }
{
    match error.kind() {
        ErrorKind::OutOfMemory => end_by_fault(faults, Fault::OutOfMemory),
        ErrorKind::DisplayVersion => print_version(output, faults),
        _ => {
            print_text(alloc, faults, error);
            ExitStatus::BadCommandLine
        }
    }
}

// Prints the version, or the fault F22 where that failed.
fn print_version<W: Output, E: Output>(output: &mut W, faults: &mut E) -> ExitStatus
    requires writes { CanFail (W.failures output.old) }
    requires prints { CanFail (E.failures faults.old) }
    ensures { PrintsVersion result
        (said_of W.Output output.old) (said_of W.Output output.new)
        (said_of E.Output faults.old) (said_of E.Output faults.new) }
{
    match output.write(VERSION_LINE) {
        Ok(()) => ExitStatus::Done,
        Err(fault) => end_by_fault(faults, fault),
    }
}

// Prints the text of an error.
fn print_text<E: Output>(alloc: Global, faults: &mut E, error: &Error)
    requires { CanFail (E.failures faults.old) }
    ensures { (text : List ℕ) × Prints text
        (said_of E.Output faults.old) (said_of E.Output faults.new) }
{
    let _ = match error.to_string(alloc) {
        Ok(text) => faults.write(text.as_bytes()),
        Err(AllocError) => faults.write(NO_TEXT),
    };
}
