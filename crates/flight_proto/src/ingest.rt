//! The ingest that the first message of a put asks for.

ghost use Rattle.std.specs.Prelude.{◌≡◌};
ghost use Rattle.scan_base.specs.Reading.{Gives};
ghost use Rattle.flight_proto.specs.StatementIngest.{statement_said};
ghost use Rattle.flight_proto.specs.Ingest.{if_not_exist_of, if_exists_of, is_in_subset};
ghost use Rattle.flight_proto.specs.Ingest.{ingest_said, ingest_in, ingest_of};

use crate::command::Command;
use crate::flight_data::StreamDescriptor;
use crate::statement_ingest::{CommandStatementIngest, TableDefinitionOptions};
use scan_base::{Fault, IfExists, IfNotExist};

/// What to do where the table is absent, by its number in the standard's list.
///
/// # Errors
///
/// `Fault::BadProto` where the number is above 2.
pub fn read_if_not_exist(number: u32) -> Result<IfNotExist, Fault>
    ensures { Gives (λ option. option) result (if_not_exist_of number) }
{
    match number {
        0 => Ok(IfNotExist::Unspecified),
        1 => Ok(IfNotExist::Create),
        2 => Ok(IfNotExist::Fail),
        _ => Err(Fault::BadProto),
    }
}

/// What to do where the table is there, by its number in the standard's list.
///
/// # Errors
///
/// `Fault::BadProto` where the number is above 3.
pub fn read_if_exists(number: u32) -> Result<IfExists, Fault>
    ensures { Gives (λ option. option) result (if_exists_of number) }
{
    match number {
        0 => Ok(IfExists::Unspecified),
        1 => Ok(IfExists::Fail),
        2 => Ok(IfExists::Append),
        3 => Ok(IfExists::Replace),
        _ => Err(Fault::BadProto),
    }
}

/// A put into a table.
#[derive(Clone, Copy, Debug, PartialEq, Eq)]
pub struct Ingest<'a> {
    /// The table's name.
    pub table: &'a str,
    /// What to do where the table is absent.
    pub if_not_exist: IfNotExist,
    /// What to do where the table is there.
    pub if_exists: IfExists,
}

// What is left out of the command is at its default.
fn is_in_subset(statement: &CommandStatementIngest<'_>) -> bool
    ensures { result ≡ is_in_subset (statement_said statement.now) }
{
    statement.schema.is_empty()
        && statement.catalog.is_empty()
        && !statement.temporary
        && statement.transaction_id.is_empty()
}

// The ingest of a command.
#[tactic(auto, unfolding(crate::specs::Ingest::ingest_in))]
fn read_statement(value: &[u8]) -> Result<Ingest<'_>, Fault>
    ensures { Gives ingest_said result (ingest_in value.now) }
{
    let statement = CommandStatementIngest::read(value)?;
    let options = statement
        .table_definition_options
        .unwrap_or(TableDefinitionOptions {
            if_not_exist: 0,
            if_exists: 0,
        });
    let if_not_exist = read_if_not_exist(options.if_not_exist)?;
    let if_exists = read_if_exists(options.if_exists)?;
    if !is_in_subset(&statement) {
        return Err(Fault::NotInSubset);
    }
    Ok(Ingest {
        table: statement.table,
        if_not_exist,
        if_exists,
    })
}

// The full name of the command.
const STATEMENT_INGEST_NAME: &str = "arrow.flight.protocol.sql.CommandStatementIngest";

/// The ingest that the first message of a put, a FlightData, asks for.
///
/// # Errors
///
/// The first of: `Fault::BadProto` where the message or its descriptor does not read, the faults of
/// `Command::read`, `Fault::UnknownCommand` where the command is no CommandStatementIngest,
/// `Fault::BadProto` where that does not read or an option has a number outside its list, and
/// `Fault::NotInSubset` where its schema, catalog or transaction is not empty or the table is
/// temporary.
#[tactic(auto, unfolding(crate::specs::Ingest::ingest_of))]
pub fn read_ingest(first: &[u8]) -> Result<Ingest<'_>, Fault>
    ensures { Gives ingest_said result (ingest_of first.now) }
{
    let stream = StreamDescriptor::read(first)?;
    let command = Command::read(stream.descriptor)?;
    if command.name != STATEMENT_INGEST_NAME {
        return Err(Fault::UnknownCommand);
    }
    read_statement(command.value)
}
