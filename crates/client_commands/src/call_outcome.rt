//! Telling what came of calls.

ghost use Rattle.std.specs.Prelude.{◌++◌};
ghost use Rattle.grpc_frame.specs.Ends.{CanFail, CountsFailure, FailsByTransport, Writes};
ghost use Rattle.command_ends.specs.Printing.{Prints, fault_line, said_of};
ghost use Rattle.fault_hints.specs.Hints.{hint_of};
ghost use Rattle.client_commands.specs.CallOutcome.{Explains, TellsFailure, TellsPrinted};
ghost use Rattle.client_commands.specs.CallOutcome.{answered_hint};

use client_calls::Failure;
use command_ends::{ExitStatus, end_by_cause};
use fault_hints::{Question, hint};
use grpc_frame::Output;
use scan_base::Fault;
use std::alloc::{AllocError, Global};

/// Prints a fault in a line, and what there is to say of it after that, and tells who found it.
pub(crate) fn end_by_failure<E: Output>(
    alloc: Global,
    faults: &mut E,
    failure: Failure,
    question: Question<'_>,
) -> ExitStatus
    requires { CanFail (E.failures faults.old) }
    ensures { TellsFailure (hint_of question.entry) failure result
        (said_of E.Output faults.old) (said_of E.Output faults.new) }
{
    match failure {
        Failure::Answered(fault) => {
            explain_answered(alloc, faults, fault, question);
            ExitStatus::FaultAnswered
        }
        Failure::Found(fault) => {
            explain(alloc, faults, fault, question);
            ExitStatus::FaultAtThisEnd
        }
    }
}

/// Tells whether what was to be printed is: where it is not, two lines say so.
pub(crate) fn end_by_printing<E: Output>(faults: &mut E, printed: Result<(), Fault>) -> ExitStatus
    requires { CanFail (E.failures faults.old) }
    ensures { TellsPrinted printed result
        (said_of E.Output faults.old) (said_of E.Output faults.new) }
{
    match printed {
        Ok(()) => ExitStatus::Done,
        Err(_) => end_by_cause(faults, "cannot write the output"),
    }
}

// Prints a fault in a line, and what there is to say of it after that.
fn explain<E: Output>(alloc: Global, faults: &mut E, fault: Fault, question: Question<'_>)
    requires { CanFail (E.failures faults.old) }
    ensures { Explains (hint_of question.entry) fault
        (said_of E.Output faults.old) (said_of E.Output faults.new) }
{
    match hint(alloc, question, fault) {
        Ok(more) => print_fault(faults, fault, &more),
        Err(AllocError) => print_fault(faults, fault, &[]),
    }
}

// The same of a fault that a server answered: how the connection fared is not said.
fn explain_answered<E: Output>(alloc: Global, faults: &mut E, fault: Fault, question: Question<'_>)
    requires { CanFail (E.failures faults.old) }
    ensures { Explains (answered_hint (hint_of question.entry)) fault
        (said_of E.Output faults.old) (said_of E.Output faults.new) }
{
    match fault {
        Fault::BadFrame | Fault::Transport => print_fault(faults, fault, &[]),
        _ => explain(alloc, faults, fault, question),
    }
}

/// Prints a fault in a line, and more after it, as far as `faults` takes them.
pub(crate) fn print_fault<E: Output>(faults: &mut E, fault: Fault, more: &[u8])
    requires { CanFail (E.failures faults.old) }
    ensures { Prints (fault_line fault ++ more.now)
        (said_of E.Output faults.old) (said_of E.Output faults.new) }
{
    let _ = write_more(faults, fault, more);
}

// Writes a fault in a line, and more after it.
fn write_more<E: Output>(faults: &mut E, fault: Fault, more: &[u8]) -> Result<(), Fault>
    requires { CanFail (E.failures faults.old) }
    ensures bytes { Writes result (E.contents faults.old) (E.contents faults.new)
        (fault_line fault ++ more.now) }
    ensures counted { CountsFailure result (E.failures faults.old) (E.failures faults.new) }
    ensures kind { FailsByTransport result }
{
    write_fault(faults, fault)?;
    faults.write(more)
}

// Writes a fault in a line.
fn write_fault<E: Output>(faults: &mut E, fault: Fault) -> Result<(), Fault>
    requires { CanFail (E.failures faults.old) }
    ensures bytes { Writes result (E.contents faults.old) (E.contents faults.new)
        (fault_line fault) }
    ensures counted { CountsFailure result (E.failures faults.old) (E.failures faults.new) }
    ensures kind { FailsByTransport result }
{
    faults.write(b"fault: ")?;
    faults.write(fault.text().as_str().as_bytes())?;
    faults.write(b"\n")
}
