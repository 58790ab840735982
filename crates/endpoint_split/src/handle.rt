//! Statement handles: what a ticket carries. The form is this project's own.

ghost use Rattle.std.specs.Prelude.{◌≡◌, IfOk};
ghost use Rattle.scan_base.specs.Reading.{Gives};
ghost use Rattle.endpoint_split.specs.Handle.{handle_bytes, handle_of, Query, tables_behind};
ghost use Rattle.endpoint_split.specs.Handle.{query_behind};
ghost use Rattle.endpoint_split.specs.HandleView.{handle_seen};

use crate::ranges::Range;
use byteorder::{BigEndian, ByteOrder};
use scan_base::{Fault, read_text};
use std::alloc::{AllocError, Global};

/// What a ticket carries: the catalog version that it is pinned to, and what is asked of it.
#[derive(Clone, Copy, Debug)]
pub enum Handle<'a> {
    /// A range of the rows of the first place of a query, by the query's text.
    Query {
        version: u64,
        range: Range,
        query: &'a str,
    },
    /// The list of tables.
    Tables {
        version: u64,
    },
}

/// The handle that these bytes are. It takes no memory.
///
/// # Errors
///
/// `Fault::BadTicket` for another first byte than 1 and 2, a handle that is too short, bytes after
/// a tables handle, and a query that is not UTF-8.
pub fn read_handle(bytes: &[u8]) -> Result<Handle<'_>, Fault>
    ensures { Gives handle_seen result (handle_of bytes.now) }
{
    match bytes.split_first() {
        Some((1, rest)) => read_query(rest),
        Some((2, rest)) => read_tables(rest),
        _ => Err(Fault::BadTicket),
    }
}

#[tactic(auto, unfolding(crate::specs::Handle::query_behind))]
fn read_query(bytes: &[u8]) -> Result<Handle<'_>, Fault>
    ensures { Gives handle_seen result (query_behind bytes.now) }
{
    if bytes.len() < 16 {
        return Err(Fault::BadTicket);
    }
    let query = read_text(&bytes[16..], Fault::BadTicket)?;
    let version = BigEndian::read_u64(bytes);
    let from = BigEndian::read_u32(&bytes[8..]);
    let to = BigEndian::read_u32(&bytes[12..]);
    Ok(Handle::Query {
        version,
        range: Range { from, to },
        query,
    })
}

#[tactic(auto, unfolding(crate::specs::Handle::tables_behind))]
fn read_tables(bytes: &[u8]) -> Result<Handle<'_>, Fault>
    ensures { Gives handle_seen result (tables_behind bytes.now) }
{
    if bytes.len() != 8 {
        return Err(Fault::BadTicket);
    }
    Ok(Handle::Tables {
        version: BigEndian::read_u64(bytes),
    })
}

/// The bytes of a handle.
pub fn write_handle(alloc: Global, handle: &Handle<'_>) -> Result<Vec<u8>, AllocError>
    ensures { IfOk result (λ bytes. bytes.items ≡ handle_bytes (handle_seen handle.now)) }
{
    match handle {
        Handle::Query {
            version,
            range,
            query,
        } => write_query(alloc, *version, *range, query),
        Handle::Tables { version } => {
            let mut bytes = Vec::with_capacity(alloc, 9)?;
            bytes.push(2)?;
            bytes.extend_from_slice(&version.to_be_bytes())?;
            Ok(bytes)
        }
    }
}

fn write_query(
    alloc: Global,
    version: u64,
    range: Range,
    query: &str,
) -> Result<Vec<u8>, AllocError>
    ensures { IfOk result
        (λ bytes. bytes.items ≡ handle_bytes (Query version range.from range.to query.now)) }
{
    let mut bytes = Vec::with_capacity(alloc, query.len() + 17)?;
    bytes.push(1)?;
    bytes.extend_from_slice(&version.to_be_bytes())?;
    bytes.extend_from_slice(&range.from.to_be_bytes())?;
    bytes.extend_from_slice(&range.to.to_be_bytes())?;
    bytes.extend_from_slice(query.as_bytes())?;
    Ok(bytes)
}
