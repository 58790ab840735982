//! Beginning the first stream of a run over a connection of its own.

ghost use Rattle.std.specs.Prelude.{IfOk};
ghost use Rattle.flight_proto.specs.FlightInfo.{endpoint_said};
ghost use Rattle.client_commands.specs.Lines.{CanCount};
ghost use Rattle.client_commands.specs.inside.Turns.{Ahead, BeginsAtLast, Settles};

use crate::connecting::open;
use crate::fetch_failure::FetchFailure;
use client_calls::{Failure, FetchReader};
use command_ends::Connect;
use flight_proto::FlightEndpoint;
use std::alloc::Global;
use std::io::Error;

/// A handle of the network that gave no connection, and why.
#[derive(Drop)]
pub(crate) struct RefusedHandle<C> {
    pub handle: C,
    pub error: Error,
}

/// The stream of an endpoint, begun over a connection of this handle.
///
/// # Errors
///
/// The handle, where it gives no connection.
pub(crate) fn begin_apart<C: Connect + Drop>(
    alloc: Global,
    mut handle: C,
    port: u16,
    endpoint: &FlightEndpoint,
) -> Result<Result<FetchReader<C::Reader, C::Writer>, Failure>, RefusedHandle<C>>
    ensures { Ahead (λ old ends new. C.connects old port ends new) (λ fetching. fetching)
        (endpoint_said endpoint.now).ticket handle result }
{
    match open(alloc, &mut handle, port) {
        Ok(connection) => Ok(FetchReader::begin(alloc, connection, &endpoint.ticket)),
        Err(error) => Err(RefusedHandle { handle, error }),
    }
}

/// The stream of an endpoint: what was begun, or where the handle gave no connection, over one for
/// which it is asked once more.
///
/// # Errors
///
/// - `FetchFailure::Failed` with the failure of the fetch.
/// - `FetchFailure::Unconnected` where it gives none again.
pub(crate) fn begin_at_last<C: Connect + Drop>(
    alloc: Global,
    begun: Result<Result<FetchReader<C::Reader, C::Writer>, Failure>, RefusedHandle<C>>,
    port: u16,
    endpoint: &FlightEndpoint,
) -> Result<FetchReader<C::Reader, C::Writer>, FetchFailure>
    requires { (handle : C) × Ahead (λ old ends new. C.connects old port ends new)
        (λ fetching. fetching) (endpoint_said endpoint.now).ticket handle begun }
    ensures begins { (handle : C) → Ahead (λ old ends new. C.connects old port ends new)
        (λ fetching. fetching) (endpoint_said endpoint.now).ticket handle begun →
        BeginsAtLast (λ old ends new. C.connects old port ends new) (λ fetching. fetching)
        (endpoint_said endpoint.now).ticket handle result }
    ensures counts { IfOk result (λ fetching. CanCount fetching.line) }
{
    match begun {
        Ok(begun) => settle::<C, _>(Ok(begun)),
        Err(refused) => {
            let RefusedHandle { handle, error: _ } = refused;
            settle(begin_apart(alloc, handle, port, endpoint))
        }
    }
}

// What was made at last, or why it was not.
fn settle<C: Drop, V: Drop>(
    made: Result<Result<V, Failure>, RefusedHandle<C>>,
) -> Result<V, FetchFailure>
    ensures { Settles made result }
{
    match made {
        Ok(Ok(value)) => Ok(value),
        Ok(Err(failure)) => Err(FetchFailure::Failed(failure)),
        Err(refused) => Err(FetchFailure::Unconnected(refused.error)),
    }
}
