//! Asking where the rows of a query are.

ghost use Rattle.std.specs.Prelude.{◌≡◌, ◌<◌, map, length, IfOk, MatchResult};
ghost use Rattle.flight_proto.specs.FlightInfo.{endpoint_said};
ghost use Rattle.flight_proto.specs.InfoCommand.{rows_of};
ghost use Rattle.client_commands.specs.Lines.{CanCount};
ghost use Rattle.client_commands.specs.ParallelFetch.{IsAsked, StopsEarly};

use crate::connecting::share_each;
use crate::query::QueryCommand;
use client_calls::{Connection, Failure, info};
use command_ends::Connect;
use flight_proto::{FlightEndpoint, InfoCommand};
use std::alloc::Global;

/// Where the rows of a query are, and by which handles of the network they are fetched next to the
/// first connection.
pub(crate) struct Places<C> {
    pub(crate) endpoints: Vec<FlightEndpoint>,
    pub(crate) handles: Vec<C>,
}

/// Asks over a connection where the rows of a query are, and the network for a handle for each
/// further connection: for the lesser of `streams` and the number of endpoints, less one.
///
/// # Errors
///
/// - `Failure::Answered` with the server's fault, and `Failure::Found` with one of this end, as
///   `client_calls::info` gives them.
/// - F21 where memory is refused for the handles.
///
/// The network was asked for no handle then.
pub(crate) fn ask_places<C: Connect>(
    alloc: Global,
    network: &mut C,
    connection: &mut Connection<C::Reader, C::Writer>,
    query: QueryCommand<'_>,
) -> Result<Places<C>, Failure>
    requires { CanCount connection.old }
    ensures asked { MatchResult result
        (λ places. IsAsked C.shares query.entry.streams
        (rows_of query.entry.sql.now) network.old network.new connection.old connection.new
        (map endpoint_said places.endpoints.items) places.handles.items)
        (λ failure. StopsEarly (rows_of query.entry.sql.now) failure connection.old connection.new
        × (network.new ≡ network.old)) }
    ensures counts { IfOk result (λ _. CanCount connection.new) }
    ensures fewer { IfOk result
        (λ places. length places.handles.items < length places.endpoints.items) }
{
    let endpoints = info(alloc, connection, InfoCommand::Rows(query.sql))?;
    let most = (query.streams as usize)
        .min(endpoints.len())
        .saturating_sub(1);
    let handles = share_each(alloc, network, most)?;
    Ok(Places { endpoints, handles })
}
