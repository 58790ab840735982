//! `arrow.flight.protocol.FlightInfo`, and inside it `FlightEndpoint` and `Location`.

ghost use Rattle.std.specs.Prelude.{◌≡◌, ◌++◌, map, length, take, negsuc, true, OnOk, OnErr};
ghost use Rattle.scan_base.specs.Lists.{each};
ghost use Rattle.scan_base.specs.Reading.{Gives, GivesUnlessMemory, RefusesFirst};
ghost use Rattle.flight_proto.specs.Lookup.{chunks};
ghost use Rattle.flight_proto.specs.Cursor.{Reads};
ghost use Rattle.flight_proto.specs.Message.{spelled};
ghost use Rattle.flight_proto.specs.FlightInfo.{location_of, endpoint_said, endpoint_by};
ghost use Rattle.flight_proto.specs.FlightInfo.{endpoint_of};
ghost use Rattle.flight_proto.specs.FlightInfo.{endpoint_bytes, endpoint_field};
ghost use Rattle.flight_proto.specs.FlightInfo.{info_said, info_of, totals, info_bytes, info_with};

use crate::flight_descriptor::FlightDescriptor;
use crate::message::{Message, chunk_of};
use crate::message_parts::{Part, put_parts};
use proto_wire::{Field, put_bytes, put_message};
use scan_base::Fault;
use std::alloc::{AllocError, Global};

/// The URI of a Location, a message of one string: its bytes are those that `put_wrapped` writes.
///
/// # Errors
///
/// `Fault::BadProto` where the message does not read.
pub fn read_location(bytes: &[u8]) -> Result<&str, Fault>
    ensures { Gives (λ uri. uri.now) result (location_of bytes.now) }
{
    let message = Message::read(bytes)?;
    message.text(1)
}

/// Where a part of the rows is fetched. Its expiration time is read, and not kept.
#[derive(Debug)]
pub struct FlightEndpoint {
    /// Field 1: the bytes of the Ticket message, which a fetch begins with.
    pub ticket: Vec<u8>,
    /// Field 2: a location is named.
    pub has_location: bool,
}

// Written out, so that dropping it is one call (docs/DECISIONS.md).
impl Drop for FlightEndpoint {
    fn drop(self) {
        let FlightEndpoint {
            ticket: _,
            has_location: _,
        } = self;
    }
}

impl FlightEndpoint {
    // The fields of an endpoint, whose ticket, locations and time read.
    fn fields(bytes: &[u8]) -> Result<Message<'_>, Fault>
        ensures { Gives endpoint_by result (endpoint_of bytes.now) }
    {
        let message = Message::read(bytes)?;
        let _ticket = Message::read_parts(bytes, 1)?;
        let locations = Message::read_parts(bytes, 2)?;
        let _uri = locations.text(1)?;
        let _expiration_time = Message::read_parts(bytes, 3)?;
        Ok(message)
    }

    /// The endpoint that these bytes are. All is read before it takes memory.
    ///
    /// # Errors
    ///
    /// `Fault::BadProto` where they do not read, and `Fault::OutOfMemory` only where they do and
    /// memory is refused.
    pub fn read(alloc: Global, bytes: &[u8]) -> Result<FlightEndpoint, Fault>
        ensures value { GivesUnlessMemory endpoint_said result (endpoint_of bytes.now) }
        ensures first { RefusesFirst result (endpoint_of bytes.now) }
    {
        let message = FlightEndpoint::fields(bytes)?;
        Ok(FlightEndpoint {
            ticket: message.joined(alloc, 1)?,
            has_location: message.has(2),
        })
    }
}

/// Writes at the end the endpoint of a ticket, the bytes of a Ticket message, without a location.
///
/// # Errors
///
/// `AllocError` where memory is refused. Nothing has changed then.
pub fn put_endpoint(out: &mut Vec<u8>, ticket: &[u8]) -> Result<(), AllocError>
    ensures ok { OnOk result (out.new.items ≡ out.old.items ++ endpoint_bytes ticket.now) }
    ensures err { OnErr result (out.new.items ≡ out.old.items) }
{
    put_parts(out, &[Part::Embedded(1, Some(ticket))])
}

/// Where the rows of a query are fetched, and what they are. Its `app_metadata` (field 7) is not
/// read.
#[derive(Debug, Drop)]
pub struct FlightInfo<'a> {
    /// Field 1: the schema of the rows in IPC form.
    pub schema: &'a [u8],
    /// Field 2: the bytes of the descriptor.
    pub descriptor: Vec<u8>,
    /// Field 3.
    pub endpoints: Vec<FlightEndpoint>,
    /// Field 4: how many rows there are, or -1.
    pub total_records: i64,
    /// Field 5: how many bytes they have, or -1.
    pub total_bytes: i64,
    /// Field 6: the rows stand in the order of the endpoints.
    pub ordered: bool,
}

// Whether the endpoints of an info's fields read.
fn check_endpoints(message: &Message<'_>) -> Result<(), Fault>
    ensures { Reads result (each endpoint_of (chunks 3 message.now)) }
{
    let mut fields = message.cursor();
    while let Ok(Some(field)) = fields.next() {
        if let Some(endpoint) = chunk_of(&field, 3) {
            let _fields = FlightEndpoint::fields(endpoint)?;
        }
    }
    Ok(())
}

// The endpoints of an info's fields, in their order. All are read before one takes memory.
fn read_endpoints(alloc: Global, message: &Message<'_>) -> Result<Vec<FlightEndpoint>, Fault>
    ensures value { GivesUnlessMemory (λ endpoints. map endpoint_said endpoints.items) result
        (each endpoint_of (chunks 3 message.now)) }
    ensures first { RefusesFirst result (each endpoint_of (chunks 3 message.now)) }
{
    check_endpoints(message)?;
    let mut endpoints = Vec::new(alloc);
    let mut fields = message.cursor();
    while let Ok(Some(field)) = fields.next() {
        if let Some(endpoint) = chunk_of(&field, 3) {
            endpoints.push(FlightEndpoint::read(alloc, endpoint)?)?;
        }
    }
    Ok(endpoints)
}

impl<'a> FlightInfo<'a> {
    /// The info that these bytes are. All is read before it takes memory.
    ///
    /// # Errors
    ///
    /// `Fault::BadProto` where they do not read, and `Fault::OutOfMemory` only where they do and
    /// memory is refused.
    #[tactic(auto, unfolding(crate::specs::FlightInfo::info_of))]
    pub fn read(alloc: Global, bytes: &'a [u8]) -> Result<FlightInfo<'a>, Fault>
        ensures value { GivesUnlessMemory info_said result (info_of bytes.now) }
        ensures first { RefusesFirst result (info_of bytes.now) }
    {
        let message = Message::read(bytes)?;
        let descriptor = Message::read_parts(bytes, 2)?;
        FlightDescriptor::look_up(&descriptor)?;
        let endpoints = read_endpoints(alloc, &message)?;
        Ok(FlightInfo {
            schema: message.bytes(1),
            descriptor: message.joined(alloc, 2)?,
            endpoints,
            total_records: message.varint(4).cast_signed(),
            total_bytes: message.varint(5).cast_signed(),
            ordered: message.varint(6) != 0,
        })
    }
}

// Writes at the end an endpoint for each ticket, and may leave some where memory runs out.
fn append_endpoints(out: &mut Vec<u8>, tickets: &[Vec<u8>]) -> Result<(), AllocError>
    ensures ok { OnOk result (out.new.items
        ≡ out.old.items
        ++ spelled (map endpoint_field (map (λ ticket. ticket.items) tickets.now))) }
    ensures err { take (length out.old.items) out.new.items ≡ out.old.items }
{
    for ticket in tickets {
        put_message(out, 3, &[Field::bytes(1, ticket)])?;
    }
    Ok(())
}

// Writes at the end that the counts of rows and of bytes are not known, and that the rows are in
// order. An `Err` changes nothing.
fn put_totals(out: &mut Vec<u8>) -> Result<(), AllocError>
    ensures ok { OnOk result
        (out.new.items ≡ out.old.items ++ spelled (totals (negsuc 0) (negsuc 0) true)) }
    ensures err { OnErr result (out.new.items ≡ out.old.items) }
{
    let not_known = (-1i64).cast_unsigned();
    let total_records = Part::Scalar(Field::varint(4, not_known));
    let total_bytes = Part::Scalar(Field::varint(5, not_known));
    let ordered = Part::Scalar(Field::varint(6, 1));
    put_parts(out, &[total_records, total_bytes, ordered])
}

// Writes an info at the end, and may leave a piece where memory runs out.
fn append_info(
    out: &mut Vec<u8>,
    schema: &[u8],
    descriptor: &[u8],
    tickets: &[Vec<u8>],
) -> Result<(), AllocError>
    ensures ok { OnOk result (out.new.items ≡ out.old.items
        ++ info_bytes (info_with schema.now descriptor.now
        (map (λ ticket. ticket.items) tickets.now))) }
    ensures err { take (length out.old.items) out.new.items ≡ out.old.items }
{
    let schema = Field::bytes(1, schema);
    put_parts(out, &[Part::Scalar(schema)])?;
    put_bytes(out, 2, descriptor)?;
    append_endpoints(out, tickets)?;
    put_totals(out)
}

/// Writes at the end the info of these tickets, in their order: a schema in IPC form, a
/// descriptor's bytes as they stand, no location, and no count of rows or bytes.
///
/// # Errors
///
/// `AllocError` where memory is refused. Nothing has changed then.
pub fn put_flight_info(
    out: &mut Vec<u8>,
    schema: &[u8],
    descriptor: &[u8],
    tickets: &[Vec<u8>],
) -> Result<(), AllocError>
    ensures ok { OnOk result (out.new.items ≡ out.old.items
        ++ info_bytes (info_with schema.now descriptor.now
        (map (λ ticket. ticket.items) tickets.now))) }
    ensures err { OnErr result (out.new.items ≡ out.old.items) }
{
    let start = out.len();
    let written = append_info(out, schema, descriptor, tickets);
    if written.is_err() {
        out.truncate(start);
    }
    written
}
