//! Fetching rows over a connection.

ghost use Rattle.std.specs.Prelude.{map, MatchResult};
ghost use Rattle.grpc_frame.specs.Ends.{CanFail};
ghost use Rattle.flight_proto.specs.FlightInfo.{endpoint_said};
ghost use Rattle.flight_proto.specs.InfoCommand.{wanted_said};
ghost use Rattle.client_commands.specs.Fetching.{FetchStops, Fetches, FetchesEach};

use client_calls::{Connection, Failure, fetch, info};
use flight_client::{Rows, Stream, join};
use flight_proto::{FlightEndpoint, InfoCommand};
use grpc_frame::{Input, Output};
use scan_base::Fault;
use std::alloc::Global;

// An info of a server has no more endpoints. Where one claims more, memory grows only as streams
// come.
const MOST_ENDPOINTS: usize = 64;

/// Fetches what is wanted: asks where it is, fetches the stream of each endpoint in turn, and joins
/// them in that order.
///
/// # Errors
///
/// `Failure::Answered` with the server's fault, and `Failure::Found` with one of this end, as
/// `client_calls::info`, `client_calls::fetch` and `flight_client::join` give them. The first one
/// ends it.
pub(crate) fn fetch_rows<R: Input, W: Output>(
    alloc: Global,
    connection: &mut Connection<R, W>,
    wanted: InfoCommand<'_>,
) -> Result<Rows, Failure>
    requires reads { CanFail (connection.old.incoming.failed) }
    requires writes { CanFail (connection.old.outgoing.failed) }
    ensures { Fetches (wanted_said wanted.entry) result connection.old connection.new }
{
    let endpoints = info(alloc, connection, wanted)?;
    let streams = fetch_each(alloc, connection, &endpoints)?;
    Ok(join(streams)?)
}

// The streams of the endpoints, in their order.
pub(crate) fn fetch_each<R: Input, W: Output>(
    alloc: Global,
    connection: &mut Connection<R, W>,
    endpoints: &[FlightEndpoint],
) -> Result<Vec<Stream>, Failure>
    requires reads { CanFail (connection.old.incoming.failed) }
    requires writes { CanFail (connection.old.outgoing.failed) }
    ensures { MatchResult result
        (λ streams. FetchesEach (map endpoint_said endpoints.now) streams.items connection.old
        connection.new)
        (λ failure. FetchStops (map endpoint_said endpoints.now) failure connection.old
        connection.new) }
{
    let mut streams = Vec::with_capacity(alloc, endpoints.len().min(MOST_ENDPOINTS))?;
    for endpoint in endpoints {
        let stream = fetch(alloc, connection, &endpoint.ticket)?;
        if streams.push(stream).is_err() {
            return Err(Failure::Found(Fault::OutOfMemory));
        }
    }
    Ok(streams)
}
