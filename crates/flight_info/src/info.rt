//! Answering what an info and a schema ask for at a version.

ghost use Rattle.std.specs.Prelude.{◌≡◌, ◌≢◌, ◌≤◌, ◌∷◌, [], length, map, None, Some, Result, Ok};
ghost use Rattle.std.specs.Prelude.{IfOk, IfErr, MatchResult};
ghost use Rattle.scan_base.specs.declared.fault.Fault.TheVariants.{OutOfMemory};
ghost use Rattle.scan_base.specs.Limits.{most_message_bytes};
ghost use Rattle.scan_base.specs.Reading.{Gives, RefusesFirst};
ghost use Rattle.arrow_types.specs.Schema.{IsSchema};
ghost use Rattle.endpoint_split.specs.Handle.{Query};
ghost use Rattle.endpoint_split.specs.HandleView.{handle_seen};
ghost use Rattle.flight_proto.specs.FlightInfo.{info_bytes, info_with};
ghost use Rattle.flight_proto.specs.InfoCommand as wants;
ghost use Rattle.flight_proto.specs.InfoCommand.{rows_of, tables, wanted_in, wanted_said};
ghost use Rattle.flight_proto.specs.WrappedBytes.{wrapped_bytes};
ghost use Rattle.table_versions.specs.StoredTables.{tables_of};
ghost use Rattle.flight_info.specs.inside.InfoParts.{rows_read, tables_read, if_short};
ghost use Rattle.flight_info.specs.inside.InfoParts.{ticket_bytes, most_form_bytes, HasForm};
ghost use Rattle.flight_info.specs.inside.InfoParts.{Describes};
ghost use Rattle.flight_info.specs.Forms.{IsSchemaForm};
ghost use Rattle.flight_info.specs.Infos.{rows_wanted, tables_wanted, schema_wanted, short_enough};
ghost use Rattle.flight_info.specs.Infos.{ranges_over, InfoAt, SchemaAt};
ghost use Rattle.flight_info.specs.QueryMeaning.{Misses};
ghost use Rattle.flight_info.specs.Payloads.{FitMessages};

use crate::query_plan::plan_text;
use crate::reply::{Reply, payload_of};
use crate::tables::tables_schema;
use arrow_schema::{encapsulate, write_schema};
use arrow_types::Schema;
use bytes::Bytes;
use endpoint_split::{Handle, Range, Ranges, split, write_handle};
use flight_proto::{InfoCommand, put_flight_info, put_statement_ticket, put_wrapped, read_wanted};
use scan_base::Fault;
use std::alloc::{AllocError, Global};
use table_versions::Snapshot;
use typed_plan::TypedPlan;

// What an info says next to its descriptor: a schema in IPC form, and a Ticket for each endpoint.
#[derive(Drop)]
struct InfoParts {
    form: Vec<u8>,
    tickets: Vec<Vec<u8>>,
}

// A schema in IPC form.
fn schema_form(alloc: Global, schema: &Schema) -> Result<Vec<u8>, AllocError>
    requires { IsSchema schema.now }
    ensures form { IfOk result (λ form. IsSchemaForm form.items schema.now) }
    ensures small { IfOk result (λ form. length form.items ≤ most_form_bytes) }
{
    let header = write_schema(alloc, schema)?;
    encapsulate(alloc, &header)
}

// The schema of a plan's result, in IPC form.
fn result_form(alloc: Global, plan: &TypedPlan) -> Result<Vec<u8>, AllocError>
    requires { IsSchema plan.now.schema }
    ensures form { IfOk result (λ form. IsSchemaForm form.items plan.now.schema) }
    ensures small { IfOk result (λ form. length form.items ≤ most_form_bytes) }
{
    schema_form(alloc, plan.schema())
}

// The Ticket of a handle.
fn ticket_of(alloc: Global, handle: &Handle<'_>) -> Result<Vec<u8>, AllocError>
    ensures { IfOk result (λ ticket. ticket.items ≡ ticket_bytes (handle_seen handle.now)) }
{
    let handle = write_handle(alloc, handle)?;
    let mut ticket = Vec::new(alloc);
    put_statement_ticket(&mut ticket, &handle)?;
    Ok(ticket)
}

// The Tickets of a query's ranges, in order.
fn query_tickets(
    alloc: Global,
    version: u64,
    text: &str,
    ranges: &[Range],
) -> Result<Vec<Vec<u8>>, AllocError>
    ensures { IfOk result (λ tickets. map (λ ticket. ticket.items) tickets.items
        ≡ map (λ range. ticket_bytes (Query version range.from range.to text.now)) ranges.now) }
{
    let mut tickets = Vec::with_capacity(alloc, ranges.len())?;
    for range in ranges {
        let handle = Handle::Query {
            version,
            range: *range,
            query: text,
        };
        tickets.push(ticket_of(alloc, &handle)?)?;
    }
    Ok(tickets)
}

// The ranges of a query's endpoints, where its first place has so many rows: as many as there are
// parts, but one where the query makes groups.
fn endpoint_ranges(rows: u32, grouped: bool, parts: u32) -> Ranges
    ensures { result ≡ ranges_over grouped rows parts }
{
    if grouped {
        split(rows, 1)
    } else {
        split(rows, parts)
    }
}

// What the info of a query says: its schema, and a Ticket for each part.
fn describe_query(
    alloc: Global,
    snapshot: &Snapshot,
    text: &str,
    parts: u32,
) -> Result<InfoParts, Fault>
    ensures described { IfOk result (λ described. Describes (tables_of snapshot.now.catalog)
        snapshot.now.number parts (rows_of text.now) described.form.items
        (map (λ ticket. ticket.items) described.tickets.items)) }
    ensures missed { IfErr result (λ fault. fault ≢ OutOfMemory →
        Misses (tables_of snapshot.now.catalog) (rows_of text.now) fault) }
    ensures first { RefusesFirst result (short_enough (rows_of text.now)) }
{
    let planned = plan_text(alloc, snapshot.catalog(), text)?;
    let ranges = endpoint_ranges(planned.rows as u32, planned.grouped, parts);
    Ok(InfoParts {
        form: result_form(alloc, &planned.plan)?,
        tickets: query_tickets(alloc, snapshot.number(), text, ranges.as_slice())?,
    })
}

// What the info of the list of tables says: its schema, and one Ticket.
fn describe_tables(alloc: Global, snapshot: &Snapshot, parts: u32) -> Result<InfoParts, AllocError>
    ensures { IfOk result
        (λ described. Describes (tables_of snapshot.now.catalog) snapshot.now.number parts
        tables described.form.items (map (λ ticket. ticket.items) described.tickets.items)) }
{
    let form = schema_form(alloc, &tables_schema(alloc)?)?;
    let handle = Handle::Tables {
        version: snapshot.number(),
    };
    let mut tickets = Vec::new(alloc);
    tickets.push(ticket_of(alloc, &handle)?)?;
    Ok(InfoParts { form, tickets })
}

// What the info of what is wanted says.
fn describe(
    alloc: Global,
    snapshot: &Snapshot,
    wanted: InfoCommand<'_>,
    parts: u32,
) -> Result<InfoParts, Fault>
    ensures described { IfOk result (λ described. Describes (tables_of snapshot.now.catalog)
        snapshot.now.number parts (wanted_said wanted.entry) described.form.items
        (map (λ ticket. ticket.items) described.tickets.items)) }
    ensures missed { IfErr result (λ fault. fault ≢ OutOfMemory →
        Misses (tables_of snapshot.now.catalog) (wanted_said wanted.entry) fault) }
    ensures first { RefusesFirst result (short_enough (wanted_said wanted.entry)) }
{
    match wanted {
        InfoCommand::Rows(text) => describe_query(alloc, snapshot, text, parts),
        InfoCommand::Tables => Ok(describe_tables(alloc, snapshot, parts)?),
    }
}

// The payload of an info.
fn write_info(
    alloc: Global,
    payload: &[u8],
    described: &InfoParts,
) -> Result<Vec<Bytes>, AllocError>
    requires { length (info_bytes (info_with described.now.form.items payload.now
        (map (λ ticket. ticket.items) described.now.tickets.items))) ≤ most_message_bytes }
    ensures said { IfOk result (λ payloads. payloads.items
        ≡ info_bytes (info_with described.now.form.items payload.now
        (map (λ ticket. ticket.items) described.now.tickets.items)) ∷ []) }
    ensures fits { IfOk result (λ payloads. FitMessages payloads.items) }
{
    let mut info = Vec::new(alloc);
    put_flight_info(
        &mut info,
        &described.form,
        payload,
        described.tickets.as_slice(),
    )?;
    only_payload(alloc, info)
}

// One payload.
fn only_payload(alloc: Global, bytes: Vec<u8>) -> Result<Vec<Bytes>, AllocError>
    requires { length bytes.items ≤ most_message_bytes }
    ensures said { IfOk result (λ payloads. payloads.items ≡ bytes.items ∷ []) }
    ensures fits { IfOk result (λ payloads. FitMessages payloads.items) }
{
    let mut payloads = Vec::new(alloc);
    payloads.push(payload_of(bytes)?)?;
    Ok(payloads)
}

// The payload of the info of what a payload wants.
fn info_payload(
    alloc: Global,
    snapshot: &Snapshot,
    payload: &[u8],
    wanted: InfoCommand<'_>,
    parts: u32,
) -> Result<Vec<Bytes>, Fault>
    requires { wanted_in payload.now ≡ Ok (wanted_said wanted) }
    ensures info { MatchResult result
        (λ payloads. InfoAt (tables_of snapshot.now.catalog) snapshot.now.number payload.now parts
        (short_enough (wanted_said wanted.entry)) payloads.items None)
        (λ fault. InfoAt (tables_of snapshot.now.catalog) snapshot.now.number payload.now parts
        (short_enough (wanted_said wanted.entry)) [] (Some fault)) }
    ensures fits { IfOk result (λ payloads. FitMessages payloads.items) }
{
    let described = describe(alloc, snapshot, wanted, parts)?;
    Ok(write_info(alloc, payload, &described)?)
}

// The answer to a GetFlightInfo of what was read of its payload.
fn answer_read(
    alloc: Global,
    snapshot: &Snapshot,
    payload: &[u8],
    read: Result<InfoCommand<'_>, Fault>,
    parts: u32,
) -> Reply
    requires { IfOk read (λ wanted. wanted_in payload.now ≡ Ok (wanted_said wanted)) }
    ensures info { (kept : Result wants.InfoCommand Fault) → Gives wanted_said read.entry kept →
        InfoAt (tables_of snapshot.now.catalog) snapshot.now.number payload.now parts
        (if_short kept) result.payloads result.fault }
    ensures fits { FitMessages result.payloads }
{
    let wanted = match read {
        Ok(wanted) => wanted,
        Err(fault) => return Reply::refusal(alloc, fault),
    };
    match info_payload(alloc, snapshot, payload, wanted, parts) {
        Ok(payloads) => Reply::whole(payloads),
        Err(fault) => Reply::refusal(alloc, fault),
    }
}

// A query, where a payload wants one.
fn read_rows(payload: &[u8]) -> Result<InfoCommand<'_>, Fault>
    ensures read { Gives wanted_said result (rows_read payload.now) }
    ensures wants { IfOk result (λ wanted. wanted_in payload.now ≡ Ok (wanted_said wanted)) }
{
    match read_wanted(payload)? {
        InfoCommand::Rows(text) => Ok(InfoCommand::Rows(text)),
        InfoCommand::Tables => Err(Fault::UnknownCommand),
    }
}

// The list of tables, where a payload wants it.
fn read_tables(payload: &[u8]) -> Result<InfoCommand<'_>, Fault>
    ensures read { Gives wanted_said result (tables_read payload.now) }
    ensures wants { IfOk result (λ wanted. wanted_in payload.now ≡ Ok (wanted_said wanted)) }
{
    match read_wanted(payload)? {
        InfoCommand::Rows(_) => Err(Fault::UnknownCommand),
        InfoCommand::Tables => Ok(InfoCommand::Tables),
    }
}

/// The answer to a GetFlightInfo of a query, at a version of the catalog: one FlightInfo, with the
/// schema of the query's result, the payload as it came, and a ticket of this version for each part
/// of the rows of the query's first place: as many as `parts`, but no more than 64, nor than rows,
/// and at least one; of a query that makes groups there is one, over all rows. The query is parsed
/// and bound once, and no row is read.
///
/// # Errors
///
/// The reply's fault, and then no payload: the faults of `flight_proto::read_wanted`; F5
/// (`Fault::UnknownCommand`) for the list of tables; then the faults of parsing and binding. F21
/// (`Fault::OutOfMemory`) where memory is refused, and not in place of those that need none: all of
/// them up to a query of more than 16,384 bytes.
pub fn answer_info(alloc: Global, snapshot: &Snapshot, payload: &[u8], parts: u32) -> Reply
    ensures info { InfoAt (tables_of snapshot.now.catalog) snapshot.now.number payload.now parts
        (rows_wanted payload.now) result.payloads result.fault }
    ensures fits { FitMessages result.payloads }
{
    answer_read(alloc, snapshot, payload, read_rows(payload), parts)
}

/// The answer to a GetFlightInfo of the list of tables, at a version of the catalog: one
/// FlightInfo, with the schema of the list, the payload as it came, and one ticket of this version.
///
/// # Errors
///
/// The reply's fault, and then no payload: the faults of `flight_proto::read_wanted`; F5
/// (`Fault::UnknownCommand`) for a query; F21 (`Fault::OutOfMemory`) where memory is refused, and
/// not in place of those.
pub fn answer_tables(alloc: Global, snapshot: &Snapshot, payload: &[u8], parts: u32) -> Reply
    ensures info { InfoAt (tables_of snapshot.now.catalog) snapshot.now.number payload.now parts
        (tables_wanted payload.now) result.payloads result.fault }
    ensures fits { FitMessages result.payloads }
{
    answer_read(alloc, snapshot, payload, read_tables(payload), parts)
}

// The schema of a query's result, in IPC form.
fn query_form(alloc: Global, snapshot: &Snapshot, text: &str) -> Result<Vec<u8>, Fault>
    ensures form { IfOk result
        (λ form. HasForm (tables_of snapshot.now.catalog) (rows_of text.now) form.items) }
    ensures missed { IfErr result (λ fault. fault ≢ OutOfMemory →
        Misses (tables_of snapshot.now.catalog) (rows_of text.now) fault) }
    ensures first { RefusesFirst result (short_enough (rows_of text.now)) }
{
    let planned = plan_text(alloc, snapshot.catalog(), text)?;
    Ok(result_form(alloc, &planned.plan)?)
}

// The schema of what is wanted, in IPC form.
fn wanted_form(
    alloc: Global,
    snapshot: &Snapshot,
    wanted: InfoCommand<'_>,
) -> Result<Vec<u8>, Fault>
    ensures form { IfOk result
        (λ form. HasForm (tables_of snapshot.now.catalog) (wanted_said wanted.entry) form.items) }
    ensures missed { IfErr result (λ fault. fault ≢ OutOfMemory →
        Misses (tables_of snapshot.now.catalog) (wanted_said wanted.entry) fault) }
    ensures first { RefusesFirst result (short_enough (wanted_said wanted.entry)) }
{
    match wanted {
        InfoCommand::Rows(text) => query_form(alloc, snapshot, text),
        InfoCommand::Tables => Ok(schema_form(alloc, &tables_schema(alloc)?)?),
    }
}

// The payload of the schema of what is wanted.
fn schema_result(alloc: Global, snapshot: &Snapshot, payload: &[u8]) -> Result<Vec<Bytes>, Fault>
    ensures schema { MatchResult result
        (λ payloads. SchemaAt (tables_of snapshot.now.catalog) (schema_wanted payload.now)
        payloads.items None)
        (λ fault. SchemaAt (tables_of snapshot.now.catalog) (schema_wanted payload.now) []
        (Some fault)) }
    ensures fits { IfOk result (λ payloads. FitMessages payloads.items) }
{
    let wanted = read_wanted(payload)?;
    let form = wanted_form(alloc, snapshot, wanted)?;
    Ok(write_schema_result(alloc, &form)?)
}

// The payload of a SchemaResult.
fn write_schema_result(alloc: Global, form: &[u8]) -> Result<Vec<Bytes>, AllocError>
    requires { length form.now ≤ most_form_bytes }
    ensures said { IfOk result (λ payloads. payloads.items ≡ wrapped_bytes form.now ∷ []) }
    ensures fits { IfOk result (λ payloads. FitMessages payloads.items) }
{
    let mut result = Vec::new(alloc);
    put_wrapped(&mut result, form)?;
    only_payload(alloc, result)
}

/// The answer to a GetSchema at a version of the catalog: one SchemaResult, with the schema of what
/// is wanted in IPC form.
///
/// # Errors
///
/// The reply's fault, and then no payload: the faults of `flight_proto::read_wanted`; then those of
/// parsing and binding. F21 (`Fault::OutOfMemory`) where memory is refused, and not in place of
/// those that need none: all of them up to a query of more than 16,384 bytes.
pub fn answer_schema(alloc: Global, snapshot: &Snapshot, payload: &[u8]) -> Reply
    ensures schema { SchemaAt (tables_of snapshot.now.catalog) (schema_wanted payload.now)
        result.payloads result.fault }
    ensures fits { FitMessages result.payloads }
{
    match schema_result(alloc, snapshot, payload) {
        Ok(payloads) => Reply::whole(payloads),
        Err(fault) => Reply::refusal(alloc, fault),
    }
}
