//! What messages say.

use crate::row::CaseRow;
use crate::words::{Word, push_part, push_words, told};
use bytes::Bytes;
use flight_proto::laws::parts_join;
use flight_proto::{
    Action, Any, Command, CommandGetTables, CommandStatementIngest, CommandStatementQuery,
    FlightData, FlightDescriptor, FlightEndpoint, FlightInfo, InfoCommand, StreamDescriptor,
    TableDefinitionOptions, put_flight_data, read_ingest, read_location, read_rows_put,
    read_statement_handle, read_update, read_wanted, read_wrapped,
};
use scan_base::Fault;
use std::alloc::{AllocError, Global};

/// What a message of this kind says.
pub fn answer(alloc: Global, kind: &str, bytes: &[u8]) -> Result<String, Fault> {
    match kind {
        "DoPutUpdateResult" => told(alloc, &[Word::Number(i128::from(read_update(bytes)?))]),
        "rows_put" => told(alloc, &[Word::Number(i128::from(read_rows_put(bytes)?))]),
        "PutResult" | "Ticket" | "TicketStatementQuery" | "SchemaResult" | "Result" => {
            told(alloc, &[Word::Bytes(read_wrapped(bytes)?)])
        }
        "handle" => told(alloc, &[Word::Bytes(read_statement_handle(bytes)?)]),
        "Any" => any(alloc, bytes),
        "FlightDescriptor" => descriptor(alloc, Some(FlightDescriptor::read(bytes)?)),
        "stream" => descriptor(alloc, StreamDescriptor::read(bytes)?.descriptor),
        "FlightData" => data(alloc, bytes),
        "CommandStatementIngest" => statement(alloc, bytes),
        "ingest" => ingest(alloc, bytes),
        _ => asked(alloc, kind, bytes),
    }
}

// What a message says that has to do with flight infos and actions.
fn asked(alloc: Global, kind: &str, bytes: &[u8]) -> Result<String, Fault> {
    match kind {
        "CommandStatementQuery" => query(alloc, bytes),
        "CommandGetTables" => tables(alloc, bytes),
        "wanted" => wanted(alloc, bytes),
        "Location" => told(alloc, &[Word::Text(read_location(bytes)?)]),
        "FlightEndpoint" => endpoint(alloc, bytes),
        "FlightInfo" => info(alloc, bytes),
        "Action" => action(alloc, bytes),
        _ => Err(Fault::UnknownMethod),
    }
}

fn any(alloc: Global, bytes: &[u8]) -> Result<String, Fault> {
    let any = Any::read(bytes)?;
    let name = any.message_name().unwrap_or("no name");
    told(
        alloc,
        &[
            Word::Text(any.type_url),
            Word::Text(name),
            Word::Bytes(any.value),
        ],
    )
}

fn descriptor(alloc: Global, descriptor: Option<FlightDescriptor<'_>>) -> Result<String, Fault> {
    let Some(descriptor) = descriptor else {
        return told(alloc, &[Word::Text("none")]);
    };
    let number = i128::from(descriptor.descriptor_type);
    told(alloc, &[Word::Number(number), Word::Bytes(descriptor.cmd)])
}

fn data(alloc: Global, bytes: &[u8]) -> Result<String, Fault> {
    let message = Bytes::copy_from_slice(alloc, bytes)?;
    let data = FlightData::read(&message)?;
    let (header, body) = (data.data_header.as_slice(), data.data_body.as_slice());
    told(alloc, &[Word::Bytes(header), Word::Bytes(body)])
}

fn options(alloc: Global, options: Option<TableDefinitionOptions>) -> Result<String, AllocError> {
    let Some(options) = options else {
        return String::from_str(alloc, "None");
    };
    let (absent, present) = (options.if_not_exist, options.if_exists);
    format!(in alloc; "Some(({absent}, {present}))")
}

fn statement(alloc: Global, bytes: &[u8]) -> Result<String, Fault> {
    let statement = CommandStatementIngest::read(bytes)?;
    let options = options(alloc, statement.table_definition_options)?;
    let mut text = String::new(alloc);
    push_part(&mut text, &[Word::Text(options.as_str())])?;
    let words = [
        Word::Text(statement.table),
        Word::Text(statement.schema),
        Word::Text(statement.catalog),
        Word::Flag(statement.temporary),
        Word::Bytes(statement.transaction_id),
    ];
    push_words(&mut text, &words, ", ")?;
    Ok(text)
}

fn ingest(alloc: Global, bytes: &[u8]) -> Result<String, Fault> {
    let ingest = read_ingest(bytes)?;
    let (table, absent, present) = (ingest.table, ingest.if_not_exist, ingest.if_exists);
    Ok(format!(in alloc; "{table}, {absent:?}, {present:?}")?)
}

fn query(alloc: Global, bytes: &[u8]) -> Result<String, Fault> {
    let command = CommandStatementQuery::read(bytes)?;
    told(
        alloc,
        &[
            Word::Text(command.query),
            Word::Bytes(command.transaction_id),
        ],
    )
}

fn tables(alloc: Global, bytes: &[u8]) -> Result<String, Fault> {
    let command = CommandGetTables::read(bytes)?;
    told(
        alloc,
        &[
            Word::Flag(command.is_filtered),
            Word::Flag(command.include_schema),
        ],
    )
}

fn wanted(alloc: Global, bytes: &[u8]) -> Result<String, Fault> {
    let mut text = String::new(alloc);
    match read_wanted(bytes)? {
        InfoCommand::Rows(query) => push_words(
            &mut text,
            &[Word::Text("rows"), Word::Text(query)],
            " ",
        )?,
        InfoCommand::Tables => text.push_str("tables")?,
    }
    Ok(text)
}

fn action(alloc: Global, bytes: &[u8]) -> Result<String, Fault> {
    let action = Action::read(bytes)?;
    told(
        alloc,
        &[Word::Text(action.action_type), Word::Bytes(action.body)],
    )
}

fn endpoint(alloc: Global, bytes: &[u8]) -> Result<String, Fault> {
    let endpoint = FlightEndpoint::read(alloc, bytes)?;
    let mut text = String::new(alloc);
    push_words(&mut text, &words_of(&endpoint), " ")?;
    Ok(text)
}

// The ticket of an endpoint, and whether it has a location.
fn words_of(endpoint: &FlightEndpoint) -> [Word<'_>; 2] {
    [
        Word::Bytes(&endpoint.ticket),
        Word::Flag(endpoint.has_location),
    ]
}

fn info(alloc: Global, bytes: &[u8]) -> Result<String, Fault> {
    let info = FlightInfo::read(alloc, bytes)?;
    let mut text = String::new(alloc);
    push_part(&mut text, &[Word::Bytes(info.schema)])?;
    push_part(&mut text, &[Word::Bytes(&info.descriptor)])?;
    for endpoint in &info.endpoints {
        push_part(&mut text, &words_of(endpoint))?;
    }
    let (records, bytes, ordered) = (info.total_records, info.total_bytes, info.ordered);
    write!(text, "{records}, {bytes}, {ordered}")?;
    Ok(text)
}

// What is said of a command of so many zeros.
fn long_command(alloc: Global, len: usize) -> Result<String, Fault> {
    let cmd = vec![in alloc; 0u8; len]?;
    let descriptor = FlightDescriptor {
        descriptor_type: 2,
        cmd: &cmd,
    };
    told(alloc, &[Word::Text(Command::read(Some(descriptor))?.name)])
}

// A header and a body of so many bytes, written and read: the header, how long the body is, and
// whether it is the same.
fn large_data(alloc: Global, len: usize) -> Result<String, Fault> {
    let body = vec![in alloc; 7u8; len]?;
    let mut out = Vec::new(alloc);
    put_flight_data(&mut out, None, b"h", &body)?;
    let data = FlightData::read(&Bytes::from_vec(out)?)?;
    parts_join();
    let (header, again) = (data.data_header.as_slice(), data.data_body.as_slice());
    let is_same = again == body.as_slice();
    told(
        alloc,
        &[
            Word::Bytes(header),
            Word::Number(again.len() as i128),
            Word::Flag(is_same),
        ],
    )
}

/// Messages of the length that a row names.
pub fn large(alloc: Global, case: &str, row: &CaseRow) -> Result<String, Fault> {
    let [len] = row.numbers.as_slice() else {
        return Err(Fault::BadFrame);
    };
    match case {
        "long_command" => long_command(alloc, *len),
        "large_data" => large_data(alloc, *len),
        _ => Err(Fault::UnknownMethod),
    }
}
