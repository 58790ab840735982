//! Putting the rows of a text of CSV, batch by batch.

ghost use Rattle.std.specs.Prelude.{◌≡◌, [], MatchResult};
ghost use Rattle.grpc_frame.specs.Ends.{CanFail};
ghost use Rattle.client_calls.specs.Outcome.{Line};
ghost use Rattle.client_calls.specs.declared.put_call.Target.{Target};
ghost use Rattle.client_commands.specs.Lines.{CanCount};
ghost use Rattle.client_commands.specs.RowsPut.{FailsRows, PutsRows};
ghost use Rattle.client_commands.specs.inside.RowsSent.{HaveSent};

use client_calls::{Connection, Failure, PutWriter, Target};
use csv_input::CsvText;
use grpc_frame::{Input, Output};
use std::alloc::Global;

/// Puts the rows of a text into a table, and answers how many were put. Each batch is made of its
/// records, sent, and dropped, so that memory holds the text and one batch.
///
/// # Errors
///
/// Those of `client_calls::put`. Where memory is refused for a batch (F21), or one is too long (F2,
/// F12), the put is cut short: its End is never sent, and the server puts nothing.
pub(crate) fn put_rows<R: Input + Drop, W: Output + Drop>(
    alloc: Global,
    connection: Connection<R, W>,
    target: Target<'_>,
    text: &CsvText,
) -> Result<u64, Failure>
    requires { CanCount connection }
    ensures { (last : Line) × PutsRows target.entry text.now result connection last }
{
    let mut putting = begin_rows(alloc, connection, target, text)?;
    send_rows(alloc, &mut putting, text)?;
    let (_, counted) = putting.end();
    counted
}

// Sends the message of the columns.
fn begin_rows<R: Input + Drop, W: Output + Drop>(
    alloc: Global,
    connection: Connection<R, W>,
    target: Target<'_>,
    text: &CsvText,
) -> Result<PutWriter<R, W>, Failure>
    requires { CanFail (connection.outgoing.failed) }
    ensures { MatchResult result (λ putting. HaveSent target.entry text.now [] connection putting)
        (λ failure. (last : Line) × FailsRows target.entry text.now failure connection last) }
{
    let first = text.schema_message(alloc)?;
    PutWriter::begin(alloc, connection, target, &first)
}

// Sends the messages of all rows, each as it is made.
fn send_rows<R: Input + Drop, W: Output + Drop>(
    alloc: Global,
    putting: &mut PutWriter<R, W>,
    text: &CsvText,
) -> Result<(), Failure>
    requires { CanFail (putting.old.line.outgoing.failed) }
    ensures { (target : Target) (begun : Line) → HaveSent target text.now [] begun putting.old →
        MatchResult result (λ _. HaveSent target text.now text.now.records begun putting.new)
        (λ failure. (last : Line) × FailsRows target text.now failure begun last) }
{
    let mut rows = text.rows(alloc)?;
    while let Some(message) = rows.next(alloc)? {
        putting.send(alloc, &message)?;
    }
    Ok(())
}
