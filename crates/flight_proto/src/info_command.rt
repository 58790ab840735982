//! What a flight info or a schema is asked for: `arrow.flight.protocol.sql.CommandStatementQuery`
//! and `CommandGetTables`.

ghost use Rattle.std.specs.Prelude.{◌≡◌, ◌++◌, OnOk, OnErr};
ghost use Rattle.scan_base.specs.Reading.{Gives};
ghost use Rattle.flight_proto.specs.InfoCommand.{query_said, query_of, query_bytes, tables_said};
ghost use Rattle.flight_proto.specs.InfoCommand.{tables_of, tables_bytes};
ghost use Rattle.flight_proto.specs.InfoCommand.{wanted_said, wanted_rows, wanted_tables};
ghost use Rattle.flight_proto.specs.InfoCommand.{wanted_in};
ghost use Rattle.flight_proto.specs.InfoCommand.{rows_of, command_bytes, wanted_bytes};

use crate::any::Any;
use crate::command::Command;
use crate::flight_descriptor::{DESCRIPTOR_CMD, FlightDescriptor};
use crate::message::Message;
use crate::message_parts::{Part, put_parts};
use proto_wire::Field;
use scan_base::Fault;
use std::alloc::AllocError;

/// The command to answer a query. An optional field that is absent is as one that is empty.
#[derive(Clone, Copy, Debug, PartialEq, Eq)]
pub struct CommandStatementQuery<'a> {
    /// Field 1: the query's text.
    pub query: &'a str,
    /// Field 2.
    pub transaction_id: &'a [u8],
}

impl<'a> CommandStatementQuery<'a> {
    /// The command that these bytes are.
    ///
    /// # Errors
    ///
    /// `Fault::BadProto` where they do not read.
    pub fn read(bytes: &'a [u8]) -> Result<CommandStatementQuery<'a>, Fault>
        ensures { Gives query_said result (query_of bytes.now) }
    {
        let message = Message::read(bytes)?;
        Ok(CommandStatementQuery {
            query: message.text(1)?,
            transaction_id: message.bytes(2),
        })
    }

    /// Writes the command at the end.
    ///
    /// # Errors
    ///
    /// `AllocError` where memory is refused. Nothing has changed then.
    pub fn put(&self, out: &mut Vec<u8>) -> Result<(), AllocError>
        ensures ok { OnOk result
            (out.new.items ≡ out.old.items ++ query_bytes (query_said self.now)) }
        ensures err { OnErr result (out.new.items ≡ out.old.items) }
    {
        let query = Field::bytes(1, self.query.as_bytes());
        let transaction_id = Field::bytes(2, self.transaction_id);
        put_parts(out, &[Part::Scalar(query), Part::Scalar(transaction_id)])
    }
}

/// The command to list tables. One that asks for all tables has no fields.
#[derive(Clone, Copy, Debug, PartialEq, Eq)]
pub struct CommandGetTables {
    /// Fields 1 to 4: a catalog, a pattern or a type is present. Their texts are not kept.
    pub is_filtered: bool,
    /// Field 5: the tables' schemas are asked for.
    pub include_schema: bool,
}

impl CommandGetTables {
    /// The command that these bytes are.
    ///
    /// # Errors
    ///
    /// `Fault::BadProto` where they do not read.
    pub fn read(bytes: &[u8]) -> Result<CommandGetTables, Fault>
        ensures { Gives tables_said result (tables_of bytes.now) }
    {
        let message = Message::read(bytes)?;
        let _catalog = message.text(1)?;
        let _db_schema_filter_pattern = message.text(2)?;
        let _table_name_filter_pattern = message.text(3)?;
        let _table_types = message.text(4)?;
        Ok(CommandGetTables {
            is_filtered: message.has(1) || message.has(2) || message.has(3) || message.has(4),
            include_schema: message.varint(5) != 0,
        })
    }
}

/// Writes at the end a CommandGetTables without filters.
///
/// # Errors
///
/// `AllocError` where memory is refused. Nothing has changed then.
pub fn put_get_tables(out: &mut Vec<u8>, include_schema: bool) -> Result<(), AllocError>
    ensures ok { OnOk result (out.new.items ≡ out.old.items ++ tables_bytes include_schema) }
    ensures err { OnErr result (out.new.items ≡ out.old.items) }
{
    let include_schema = Field::varint(5, u64::from(include_schema));
    put_parts(out, &[Part::Scalar(include_schema)])
}

/// What is asked for.
#[derive(Clone, Copy, Debug, PartialEq, Eq)]
pub enum InfoCommand<'a> {
    /// The rows of a query's text.
    Rows(&'a str),
    /// All tables.
    Tables,
}

// The full names of the commands, and their URLs.
const STATEMENT_QUERY_NAME: &str = "arrow.flight.protocol.sql.CommandStatementQuery";

const STATEMENT_QUERY_URL: &str =
    "type.googleapis.com/arrow.flight.protocol.sql.CommandStatementQuery";

const GET_TABLES_NAME: &str = "arrow.flight.protocol.sql.CommandGetTables";

const GET_TABLES_URL: &str = "type.googleapis.com/arrow.flight.protocol.sql.CommandGetTables";

/// The most bytes of a message that asks for a flight info or a schema.
pub const MAX_REQUEST_LEN: usize = 1_048_576;

// A query outside of any transaction.
fn read_rows(value: &[u8]) -> Result<InfoCommand<'_>, Fault>
    ensures { Gives wanted_said result (wanted_rows value.now) }
{
    let query = CommandStatementQuery::read(value)?;
    if !query.transaction_id.is_empty() {
        return Err(Fault::NotInSubset);
    }
    Ok(InfoCommand::Rows(query.query))
}

// All tables, without their schemas.
fn read_tables(value: &[u8]) -> Result<InfoCommand<'_>, Fault>
    ensures { Gives wanted_said result (wanted_tables value.now) }
{
    let tables = CommandGetTables::read(value)?;
    if tables.is_filtered || tables.include_schema {
        return Err(Fault::NotInSubset);
    }
    Ok(InfoCommand::Tables)
}

/// What the one message of GetFlightInfo or of GetSchema, a FlightDescriptor, asks for.
///
/// # Errors
///
/// The first of: `Fault::LimitReached` where the message has more than `MAX_REQUEST_LEN` bytes,
/// `Fault::BadProto` where it is no FlightDescriptor, the faults of `Command::read`,
/// `Fault::UnknownCommand` where the command is neither a CommandStatementQuery nor a
/// CommandGetTables, `Fault::BadProto` where that does not read, and `Fault::NotInSubset` where the
/// query's transaction is not empty, or the tables are filtered or their schemas asked for.
#[tactic(auto, unfolding(crate::specs::InfoCommand::wanted_in))]
pub fn read_wanted(message: &[u8]) -> Result<InfoCommand<'_>, Fault>
    ensures { Gives wanted_said result (wanted_in message.now) }
{
    if message.len() > MAX_REQUEST_LEN {
        return Err(Fault::LimitReached);
    }
    let descriptor = FlightDescriptor::read(message)?;
    let command = Command::read(Some(descriptor))?;
    if command.name == STATEMENT_QUERY_NAME {
        return read_rows(command.value);
    }
    if command.name == GET_TABLES_NAME {
        return read_tables(command.value);
    }
    Err(Fault::UnknownCommand)
}

// Writes at the end a descriptor of a command. An `Err` changes nothing.
fn put_command<'x>(out: &mut Vec<u8>, type_url: &'x str, value: &'x [u8]) -> Result<(), AllocError>
    ensures ok { OnOk result (out.new.items
        ≡ out.old.items ++ command_bytes (record { type_url = type_url.now; value = value.now })) }
    ensures err { OnErr result (out.new.items ≡ out.old.items) }
{
    let mut cmd = Vec::new(*out.allocator());
    Any { type_url, value }.put(&mut cmd)?;
    FlightDescriptor {
        descriptor_type: DESCRIPTOR_CMD,
        cmd: &cmd,
    }
    .put(out)
}

// Writes at the end the message that asks for the rows of a query. An `Err` changes nothing.
fn put_query(out: &mut Vec<u8>, query: &str) -> Result<(), AllocError>
    ensures ok { OnOk result (out.new.items ≡ out.old.items ++ wanted_bytes (rows_of query.now)) }
    ensures err { OnErr result (out.new.items ≡ out.old.items) }
{
    let mut value = Vec::new(*out.allocator());
    CommandStatementQuery {
        query,
        transaction_id: &[],
    }
    .put(&mut value)?;
    put_command(out, STATEMENT_QUERY_URL, &value)
}

/// Writes at the end the message that asks for this: a FlightDescriptor.
///
/// # Errors
///
/// `AllocError` where memory is refused. Nothing has changed then.
pub fn put_wanted(out: &mut Vec<u8>, wanted: InfoCommand<'_>) -> Result<(), AllocError>
    ensures ok { OnOk result
        (out.new.items ≡ out.old.items ++ wanted_bytes (wanted_said wanted.entry)) }
    ensures err { OnErr result (out.new.items ≡ out.old.items) }
{
    match wanted {
        InfoCommand::Rows(query) => put_query(out, query),
        InfoCommand::Tables => put_command(out, GET_TABLES_URL, &[]),
    }
}
