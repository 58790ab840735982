//! Messages that are read and written again.

use crate::words::{Word, told};
use bytes::Bytes;
use flight_proto::{
    Action, Any, CommandGetTables, CommandStatementIngest, CommandStatementQuery, FlightData,
    FlightDescriptor, FlightEndpoint, FlightInfo, StreamDescriptor, put_endpoint, put_flight_data,
    put_flight_data_head, put_flight_info, put_get_tables, put_rows_put, put_statement_ticket,
    put_update, put_wanted, put_wrapped, read_location, read_rows_put, read_statement_handle,
    read_update, read_wanted, read_wrapped,
};
use proto_wire::{Fields, put_field};
use scan_base::Fault;
use std::alloc::Global;

/// The bytes that are written for what a message of this kind says.
pub fn answer(alloc: Global, kind: &str, bytes: &[u8]) -> Result<String, Fault> {
    let mut out = Vec::new(alloc);
    write(&mut out, kind, bytes)?;
    told(alloc, &[Word::Bytes(&out)])
}

fn write(out: &mut Vec<u8>, kind: &str, bytes: &[u8]) -> Result<(), Fault> {
    match kind {
        "write_fields" => fields(out, bytes)?,
        "write_DoPutUpdateResult" => put_update(out, read_update(bytes)?)?,
        "write_rows_put" => put_rows_put(out, read_rows_put(bytes)?)?,
        "write_PutResult"
        | "write_Ticket"
        | "write_TicketStatementQuery"
        | "write_SchemaResult"
        | "write_Result" => put_wrapped(out, read_wrapped(bytes)?)?,
        "write_Location" => put_wrapped(out, read_location(bytes)?.as_bytes())?,
        "write_handle" => put_statement_ticket(out, read_statement_handle(bytes)?)?,
        "write_Any" => Any::read(bytes)?.put(out)?,
        "write_FlightDescriptor" => FlightDescriptor::read(bytes)?.put(out)?,
        "write_CommandStatementIngest" => CommandStatementIngest::read(bytes)?.put(out)?,
        "write_CommandStatementQuery" => CommandStatementQuery::read(bytes)?.put(out)?,
        "write_CommandGetTables" => {
            put_get_tables(out, CommandGetTables::read(bytes)?.include_schema)?;
        }
        "write_FlightEndpoint" => {
            put_endpoint(out, &FlightEndpoint::read(*out.allocator(), bytes)?.ticket)?;
        }
        "write_wanted" => put_wanted(out, read_wanted(bytes)?)?,
        "write_Action" => Action::read(bytes)?.put(out)?,
        "write_FlightInfo" => info(out, bytes)?,
        "write_FlightData" => data(out, bytes)?,
        "write_head" => head(out, bytes)?,
        _ => return Err(Fault::UnknownMethod),
    }
    Ok(())
}

// The info of the tickets that one says, without counts.
fn info(out: &mut Vec<u8>, bytes: &[u8]) -> Result<(), Fault> {
    let alloc = *out.allocator();
    let info = FlightInfo::read(alloc, bytes)?;
    let mut tickets = Vec::new(alloc);
    for endpoint in &info.endpoints {
        tickets.push(endpoint.ticket.clone()?)?;
    }
    put_flight_info(out, info.schema, &info.descriptor, &tickets)?;
    Ok(())
}

fn fields(out: &mut Vec<u8>, bytes: &[u8]) -> Result<(), Fault> {
    let mut fields = Fields::new(bytes);
    for _ in 0..bytes.len() {
        let Some(field) = fields.next()? else {
            break;
        };
        put_field(out, &field)?;
    }
    Ok(())
}

fn data(out: &mut Vec<u8>, bytes: &[u8]) -> Result<(), Fault> {
    let stream = StreamDescriptor::read(bytes)?;
    let message = Bytes::copy_from_slice(*out.allocator(), bytes)?;
    let data = FlightData::read(&message)?;
    let (header, body) = (data.data_header.as_slice(), data.data_body.as_slice());
    put_flight_data(out, stream.descriptor.as_ref(), header, body)?;
    Ok(())
}

fn head(out: &mut Vec<u8>, bytes: &[u8]) -> Result<(), Fault> {
    let message = Bytes::copy_from_slice(*out.allocator(), bytes)?;
    let data = FlightData::read(&message)?;
    put_flight_data_head(
        out,
        data.data_header.as_slice(),
        data.data_body.len() as u64,
    )?;
    Ok(())
}
