//! The info that answers GetFlightInfo.

ghost use Rattle.scan_base.specs.Reading.{GivesUnlessMemory, RefusesFirst};
ghost use Rattle.flight_proto.specs.FlightInfo.{info_said, info_of};
ghost use Rattle.flight_client.specs.Info.{info_answered};

use flight_proto::FlightInfo;
use scan_base::Fault;
use std::alloc::Global;

/// The info in the one message that answers GetFlightInfo. Its endpoints, of which there is one or
/// more, stand in the order in which their streams are joined.
///
/// # Errors
///
/// - F4 (`Fault::BadProto`) where the message is no FlightInfo, or has no endpoint.
/// - F21 (`Fault::OutOfMemory`) where memory is refused, and the message is a FlightInfo: it is
///   read first.
pub fn read_info(alloc: Global, message: &[u8]) -> Result<FlightInfo<'_>, Fault>
    ensures exact { GivesUnlessMemory info_said result (info_answered message.now) }
    ensures first { RefusesFirst result (info_of message.now) }
{
    let info = FlightInfo::read(alloc, message)?;
    if info.endpoints.is_empty() {
        return Err(Fault::BadProto);
    }
    Ok(info)
}
