//! `flightscan describe`: the columns of a table.

ghost use Rattle.std.specs.Prelude.{◌≡◌, IfOk, string_bytes};
ghost use Rattle.grpc_frame.specs.Ends.{CanFail};
ghost use Rattle.flight_proto.specs.InfoCommand.{rows_of};
ghost use Rattle.fault_hints.specs.Hints.{query_hint};
ghost use Rattle.command_ends.specs.Printing.{said_of};
ghost use Rattle.client_commands.specs.CallOutcome.{Tells};
ghost use Rattle.client_commands.specs.Commands.{Describes, FetchesColumns, columns_query, desk_of};

use crate::call_outcome::{end_by_failure, end_by_printing};
use crate::connecting::{end_unconnected, open};
use crate::fetching::fetch_rows;
use crate::quoted_name::quoted_name;
use client_calls::{Connection, Failure};
use command_ends::{Connect, ExitStatus, end_by_fault};
use csv_columns::columns_text;
use fault_hints::Question;
use flight_proto::InfoCommand;
use grpc_frame::{Input, Output};
use scan_base::Fault;
use std::alloc::{AllocError, Global};

/// Prints the columns of a table in a line, as `put` takes them by `--columns`. A fault is printed
/// on `faults` in a line, as far as that takes it, and lines after it say more.
pub fn describe<C: Connect, W: Output, E: Output>(
    alloc: Global,
    network: &mut C,
    output: &mut W,
    faults: &mut E,
    port: u16,
    table: &str,
) -> ExitStatus
    // Each output can count one failure more.
    requires writes { CanFail (W.failures output.old) }
    requires prints { CanFail (E.failures faults.old) }

    // The columns are printed; or what failed is, and where no connection was made, why.
    ensures { Describes (network.new ≡ network.old)
        (λ ends. C.connects network.old port ends network.new) table.now result
        (desk_of (said_of W.Output output.old) (said_of E.Output faults.old))
        (desk_of (said_of W.Output output.new) (said_of E.Output faults.new)) }
{
    let sql = match columns_query(alloc, table) {
        Ok(sql) => sql,
        Err(AllocError) => return end_by_fault(faults, Fault::OutOfMemory),
    };
    let mut connection = match open(alloc, network, port) {
        Ok(connection) => connection,
        Err(error) => return end_unconnected(alloc, faults, port, &error),
    };
    let fetched = fetch_columns(alloc, &mut connection, sql.as_str());
    tell_columns(alloc, output, faults, fetched, sql.as_str())
}

// A query that has the columns of a table, and none of its rows.
fn columns_query(alloc: Global, table: &str) -> Result<String, AllocError>
    ensures { IfOk result (λ sql. string_bytes sql ≡ columns_query table.now) }
{
    let name = quoted_name(alloc, table)?;
    format!(in alloc; "SELECT * FROM {name} WHERE 0 = 1")
}

// Fetches the columns that a query has, in the line that spells them.
fn fetch_columns<R: Input, W: Output>(
    alloc: Global,
    connection: &mut Connection<R, W>,
    sql: &str,
) -> Result<Vec<u8>, Failure>
    requires reads { CanFail (connection.old.incoming.failed) }
    requires writes { CanFail (connection.old.outgoing.failed) }
    ensures { FetchesColumns (λ text. text.items) (rows_of sql.now) result connection.old
        connection.new }
{
    let rows = fetch_rows(alloc, connection, InfoCommand::Rows(sql))?;
    let text = columns_text(alloc, rows.schema().fields.as_slice())?;
    Ok(text)
}

// Tells the columns that were fetched, or why none were.
fn tell_columns<W: Output, E: Output>(
    alloc: Global,
    output: &mut W,
    faults: &mut E,
    fetched: Result<Vec<u8>, Failure>,
    sql: &str,
) -> ExitStatus
    requires writes { CanFail (W.failures output.old) }
    requires prints { CanFail (E.failures faults.old) }
    ensures { Tells (query_hint sql.now) (λ text. text.items) fetched result
        (said_of W.Output output.old) (said_of W.Output output.new)
        (said_of E.Output faults.old) (said_of E.Output faults.new) }
{
    match fetched {
        Ok(text) => {
            let printed = output.write(text.as_slice());
            end_by_printing(faults, printed)
        }
        Err(failure) => end_by_failure(alloc, faults, failure, Question::Rows(sql)),
    }
}
