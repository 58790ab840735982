//! Worked ranges, and handles byte by byte.

use anyhow::{Result, bail, ensure};
use endpoint_split::laws::{handle_reads_back, ranges_are_partition};
use endpoint_split::{Handle, Range, read_handle, split, write_handle};
use scan_base::Fault;
use std::alloc::{AllocError, Global};

// The handle of rows 0 up to 2 of a query at version 1.
static QUERY: &[u8] =
    b"\x01\x00\x00\x00\x00\x00\x00\x00\x01\x00\x00\x00\x00\x00\x00\x00\x02SELECT * FROM t";

// The handle of the tables of version 0x0102030405060708.
static TABLES: &[u8] = b"\x02\x01\x02\x03\x04\x05\x06\x07\x08";

// How many rows, how many parts, and where the ranges end. Without a part it is one range all the
// same.
static SPLITS: [(u32, u32, &[u32]); 6] = [
    (5, 2, &[2, 5]),
    (5, 0, &[5]),
    (0, 4, &[0]),
    (3, 8, &[1, 2, 3]),
    (10, 3, &[3, 6, 10]),
    (2, 65, &[1, 2]),
];

// Bytes that are no handle.
static REFUSED: [&[u8]; 8] = [
    b"",
    b"\x01",
    b"\x02",
    b"\x01\x00\x00\x00\x00\x00\x00\x00\x01\x00\x00\x00\x00\x00\x00\x00",
    b"\x03\x00\x00\x00\x00\x00\x00\x00\x01",
    b"\x02\x00\x00\x00\x00\x00\x00\x00",
    b"\x02\x00\x00\x00\x00\x00\x00\x00\x01\x00",
    b"\x01\x00\x00\x00\x00\x00\x00\x00\x01\x00\x00\x00\x00\x00\x00\x00\x02\xff",
];

// Whether the ranges lead from 0 over these ends.
fn lead_over(ranges: &[Range], ends: &[u32]) -> bool {
    let mut from = 0;
    for (range, end) in ranges.iter().zip(ends) {
        if range.from != from || range.to != *end {
            return false;
        }
        from = *end;
    }
    ranges.len() == ends.len()
}

fn ranges_of_few_rows() -> Result<()> {
    for (rows, parts, ends) in &SPLITS {
        ensure!(lead_over(split(*rows, *parts).as_slice(), ends));
    }
    Ok(())
}

// 16,777,216 rows in 64 ranges of 262,144: no more parts than that.
fn ranges_of_most_rows() -> Result<()> {
    let ranges = split(16_777_216, 65);
    ensure!(ranges.as_slice().len() == 64);
    let mut from = 0u32;
    for range in ranges.as_slice() {
        ensure!(range.from == from && range.to == from.wrapping_add(262_144));
        from = range.to;
    }
    Ok(())
}

fn is_query(handle: &Handle<'_>) -> bool {
    match handle {
        Handle::Query {
            version,
            range,
            query,
        } => *version == 1 && *range == Range { from: 0, to: 2 } && *query == "SELECT * FROM t",
        Handle::Tables { .. } => false,
    }
}

fn is_tables(handle: &Handle<'_>) -> bool {
    match handle {
        Handle::Query { .. } => false,
        Handle::Tables { version } => *version == 0x0102_0304_0506_0708,
    }
}

// Whether a handle is written as these bytes.
fn is_written(alloc: Global, handle: &Handle<'_>, bytes: &[u8]) -> Result<bool, AllocError> {
    let written = write_handle(alloc, handle)?;
    Ok(written.as_slice() == bytes)
}

// A query's handle and a list's, read and written.
fn handles(alloc: Global) -> Result<()> {
    let query = read_handle(QUERY)?;
    let tables = read_handle(TABLES)?;
    ensure!(is_query(&query) && is_tables(&tables));
    let (query, tables) = (
        is_written(alloc, &query, QUERY)?,
        is_written(alloc, &tables, TABLES)?,
    );
    ensure!(query && tables);
    Ok(())
}

fn refused_handles() -> Result<()> {
    for bytes in REFUSED {
        ensure!(matches!(read_handle(bytes), Err(Fault::BadTicket)));
    }
    Ok(())
}

// The laws are functions, which give what they say.
fn laws() -> Result<()> {
    handle_reads_back();
    ranges_are_partition();
    Ok(())
}

/// What comes of the check of this name.
pub fn check(alloc: Global, name: &str) -> Result<()> {
    match name {
        "ranges_of_few_rows" => ranges_of_few_rows(),
        "ranges_of_most_rows" => ranges_of_most_rows(),
        "handles" => handles(alloc),
        "refused_handles" => refused_handles(),
        "laws" => laws(),
        _ => bail!("no check"),
    }
}
