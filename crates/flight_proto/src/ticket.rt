//! What a fetch begins with: an `arrow.flight.protocol.Ticket`, and inside it an Any of a
//! `arrow.flight.protocol.sql.TicketStatementQuery`. Both are messages of one field of bytes.

ghost use Rattle.std.specs.Prelude.{◌≡◌, ◌++◌, OnOk, OnErr};
ghost use Rattle.scan_base.specs.Reading.{Gives};
ghost use Rattle.flight_proto.specs.Ticket.{handle_in, statement_handle_of, statement_ticket_bytes};

use crate::any::Any;
use crate::wrapped_bytes::{put_wrapped, read_wrapped};
use scan_base::Fault;
use std::alloc::AllocError;

// The full name of the message in a ticket, and its URL.
const TICKET_QUERY_NAME: &str = "arrow.flight.protocol.sql.TicketStatementQuery";

const TICKET_QUERY_URL: &str = "type.googleapis.com/arrow.flight.protocol.sql.TicketStatementQuery";

// The handle in the bytes that a Ticket holds.
fn read_handle(ticket: &[u8]) -> Result<&[u8], Fault>
    ensures { Gives (λ handle. handle.now) result (handle_in ticket.now) }
{
    let any = Any::read(ticket)?;
    let name = any.message_name().ok_or(Fault::BadTicket)?;
    if name != TICKET_QUERY_NAME {
        return Err(Fault::BadTicket);
    }
    read_wrapped(any.value)
}

/// The statement's handle in the Ticket that begins a fetch.
///
/// # Errors
///
/// `Fault::BadProto` where the Ticket does not read. `Fault::BadTicket` where what it holds is no
/// Any of a TicketStatementQuery.
pub fn read_statement_handle(bytes: &[u8]) -> Result<&[u8], Fault>
    ensures { Gives (λ handle. handle.now) result (statement_handle_of bytes.now) }
{
    let ticket = read_wrapped(bytes)?;
    read_handle(ticket).map_err(|_| Fault::BadTicket)
}

/// Writes at the end the Ticket of a statement's handle.
///
/// # Errors
///
/// `AllocError` where memory is refused. Nothing has changed then.
pub fn put_statement_ticket(out: &mut Vec<u8>, handle: &[u8]) -> Result<(), AllocError>
    ensures ok { OnOk result (out.new.items ≡ out.old.items ++ statement_ticket_bytes handle.now) }
    ensures err { OnErr result (out.new.items ≡ out.old.items) }
{
    let mut query = Vec::new(*out.allocator());
    put_wrapped(&mut query, handle)?;
    let mut any = Vec::new(*out.allocator());
    Any {
        type_url: TICKET_QUERY_URL,
        value: &query,
    }
    .put(&mut any)?;
    put_wrapped(out, &any)
}
