//! What a Ticket asks for.

ghost use Rattle.std.specs.Prelude.{◌≡◌};
ghost use Rattle.scan_base.specs.Reading.{Gives};
ghost use Rattle.endpoint_split.specs.HandleView.{handle_seen};
ghost use Rattle.flight_info.specs.Infos.{handle_asked};
ghost use Rattle.fetch_stream.specs.Fetches.{version_of};

use endpoint_split::{Handle, read_handle};
use flight_proto::read_statement_handle;
use scan_base::Fault;

/// The handle in the Ticket that begins a fetch. It takes no memory.
///
/// # Errors
///
/// F4 (`Fault::BadProto`) where the Ticket does not read. F17 (`Fault::BadTicket`) where what it
/// holds is no Any of a TicketStatementQuery, and for a malformed handle.
#[tactic(auto, unfolding(flight_info::specs::Infos::handle_asked))]
pub fn read_ticket(ticket: &[u8]) -> Result<Handle<'_>, Fault>
    ensures { Gives handle_seen result (handle_asked ticket.now) }
{
    read_handle(read_statement_handle(ticket)?)
}

/// The version of the catalog to which a handle is pinned.
pub fn version_of(handle: &Handle<'_>) -> u64
    ensures { result ≡ version_of (handle_seen handle.now) }
{
    match handle {
        Handle::Query { version, .. } | Handle::Tables { version } => *version,
    }
}
