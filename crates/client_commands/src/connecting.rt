//! Connecting to the server.

ghost use Rattle.std.specs.Prelude.{◌≡◌, ℕ, List, Some, None, length, MatchResult};
ghost use Rattle.grpc_frame.specs.Ends.{CanFail};
ghost use Rattle.command_ends.specs.Network.{Ends};
ghost use Rattle.command_ends.specs.Printing.{Prints, cause_lines, said_of};
ghost use Rattle.client_commands.specs.Lines.{opened_line};
ghost use Rattle.client_commands.specs.ParallelFetch.{SharesHandles};
ghost use Rattle.command_ends.specs.declared.exit_status.ExitStatus.TheVariants.{FaultAtThisEnd};

use client_calls::Connection;
use command_ends::{Connect, ExitStatus, end_by_cause};
use grpc_frame::Output;
use std::alloc::{AllocError, Global};
use std::io;
use std::io::Error;

/// Opens a connection to a port of this machine. Nothing came of it yet.
///
/// # Errors
///
/// The system's.
pub(crate) fn open<C: Connect>(
    alloc: Global,
    network: &mut C,
    port: u16,
) -> io::Result<Connection<C::Reader, C::Writer>>
    ensures { MatchResult result
        (λ connection. (ends : Ends) × C.connects network.old port (Some ends) network.new
        × (connection ≡ opened_line ends))
        (λ _. C.connects network.old port None network.new) }
{
    let (reader, writer) = network.connect(port)?;
    Ok(Connection::new(alloc, reader, writer))
}

/// So many further handles of a network.
///
/// # Errors
///
/// Where memory is refused for them. The network was asked for none then.
pub(crate) fn share_each<C: Connect>(
    alloc: Global,
    network: &mut C,
    most: usize,
) -> Result<Vec<C>, AllocError>
    ensures { MatchResult result
        (λ handles. (length handles.items ≡ most)
        × SharesHandles C.shares handles.items network.old network.new)
        (λ _. network.new ≡ network.old) }
{
    let mut handles = Vec::with_capacity(alloc, most)?;
    for _made in 0..most {
        handles.push_reserved(network.share());
    }
    Ok(handles)
}

/// Prints F22, and in a second line that no connection was made to this port, and why.
pub(crate) fn end_unconnected<E: Output>(
    alloc: Global,
    faults: &mut E,
    port: u16,
    error: &Error,
) -> ExitStatus
    requires { CanFail (E.failures faults.old) }
    ensures status { result ≡ FaultAtThisEnd }
    ensures lines { (cause : List ℕ) × Prints (cause_lines cause)
        (said_of E.Output faults.old) (said_of E.Output faults.new) }
{
    match format!(in alloc; "cannot connect to 127.0.0.1:{port}: {error}") {
        Ok(cause) => end_by_cause(faults, cause.as_str()),
        Err(AllocError) => end_by_cause(faults, "cannot connect"),
    }
}
