//! Queries, and the rows that they give.

use arrays::{Batch, Cells};
use query_binder::bind;
use scan_base::{Fault, ValueRef};
use scan_exec::Scan;
use sql_parse::parse;
use std::alloc::{AllocError, Global};
use table_versions::CatalogVersion;
use told_rows::push_type;

// What a scan gave: the cells of its rows, how many batches, and how many batches were opened.
#[derive(Drop)]
struct ScanOutput {
    cells: String,
    batches: usize,
    opened: usize,
}

// Appends a cell.
fn push_cell(alloc: Global, cells: &mut String, value: ValueRef<'_>) -> Result<(), AllocError> {
    let told = match value {
        ValueRef::Null => String::from_str(alloc, "null")?,
        ValueRef::Bool(value) => format!(in alloc; "{value}")?,
        ValueRef::Int(value) => format!(in alloc; "{value}")?,
        ValueRef::Text(value) => format!(in alloc; "'{value}'")?,
    };
    cells.push_str(told.as_str())
}

/// Appends the cells of a batch, with a comma after each and a semicolon after each row.
pub fn push_rows(alloc: Global, cells: &mut String, batch: &Batch) -> Result<(), AllocError> {
    for row in 0..batch.rows() {
        for column in batch.columns() {
            push_cell(alloc, cells, column.value_at(row))?;
            cells.push(',')?;
        }
        cells.push(';')?;
    }
    Ok(())
}

// What a query gives of the table's rows `from` up to, not with, `to`.
fn scanned(
    alloc: Global,
    catalog: &CatalogVersion,
    sql: &str,
    (from, to): (usize, usize),
) -> Result<ScanOutput, Fault> {
    let plan = bind(alloc, &parse(alloc, sql)?, catalog)?;
    let mut scan = Scan::new(alloc, catalog.seed(), plan, from..to)?;
    let mut cells = String::new(alloc);
    for batches in 0..usize::MAX {
        let Some(batch) = scan.next(alloc)? else {
            let opened = scan.opened().len();
            return Ok(ScanOutput {
                cells,
                batches,
                opened,
            });
        };
        push_rows(alloc, &mut cells, &batch)?;
    }
    Err(Fault::ResultTooLarge)
}

/// The cells of all rows.
pub fn all(alloc: Global, catalog: &CatalogVersion, sql: &str) -> Result<String, Fault> {
    Ok(scanned(alloc, catalog, sql, (0, usize::MAX))?.cells)
}

// How many rows a scan gives.
fn row_count(alloc: Global, scan: &mut Scan) -> Result<usize, Fault> {
    let mut rows = 0_usize;
    for _ in 0..usize::MAX {
        let Some(batch) = scan.next(alloc)? else {
            break;
        };
        rows = rows.saturating_add(batch.rows());
    }
    Ok(rows)
}

/// How many rows there are.
pub fn count(alloc: Global, catalog: &CatalogVersion, sql: &str) -> Result<String, Fault> {
    let plan = bind(alloc, &parse(alloc, sql)?, catalog)?;
    let mut scan = Scan::new(alloc, catalog.seed(), plan, 0..usize::MAX)?;
    let rows = row_count(alloc, &mut scan)?;
    Ok(format!(in alloc; "{rows} rows")?)
}

// The range of rows that stands before a query, as `4 6 `, and the query.
fn range_before(case: &str) -> ((usize, usize), &str) {
    let (from, case) = case.split_once(' ').unwrap_or((case, ""));
    let (to, sql) = case.split_once(' ').unwrap_or((case, ""));
    ((from.parse().unwrap_or(0), to.parse().unwrap_or(0)), sql)
}

/// The cells of a range of rows, how many batches were given, and how many were opened.
pub fn of_range(alloc: Global, catalog: &CatalogVersion, case: &str) -> Result<String, Fault> {
    let (range, sql) = range_before(case);
    let ScanOutput {
        cells,
        batches,
        opened,
    } = scanned(alloc, catalog, sql, range)?;
    Ok(format!(in alloc; "{cells} {batches} of {opened}")?)
}

/// How many rows a range gives, and which batches were opened, in order: each by its place and its
/// number there, as `0.3`.
pub fn opened_batches(
    alloc: Global,
    catalog: &CatalogVersion,
    case: &str,
) -> Result<String, Fault> {
    let ((from, to), sql) = range_before(case);
    let plan = bind(alloc, &parse(alloc, sql)?, catalog)?;
    let mut scan = Scan::new(alloc, catalog.seed(), plan, from..to)?;
    let rows = row_count(alloc, &mut scan)?;
    let mut told = format!(in alloc; "{rows} of")?;
    for (place, number) in scan.opened() {
        let batch = format!(in alloc; " {place}.{number}")?;
        told.push_str(batch.as_str())?;
    }
    Ok(told)
}

/// The columns of the result.
pub fn columns(alloc: Global, catalog: &CatalogVersion, sql: &str) -> Result<String, Fault> {
    let plan = bind(alloc, &parse(alloc, sql)?, catalog)?;
    let mut told = String::new(alloc);
    for field in plan.schema().fields.as_slice() {
        told.push_str(field.name.as_str())?;
        told.push(' ')?;
        push_type(&mut told, field.data_type)?;
        told.push_str(if field.nullable { " true;" } else { " false;" })?;
    }
    Ok(told)
}
