//! The first column of a schema whose type is not taken.

ghost use Rattle.std.specs.Prelude.{◌≡◌, ◌<◌, ◌++◌, codes, IfOk, Some, option_map, string_bytes};
ghost use Rattle.scan_base.specs.Reading.{Gives};
ghost use Rattle.fault_hints.specs.RefusedTypes.{column_at, column_line, column_said, columns_in};
ghost use Rattle.arrow_schema.specs.Fields.{value_type_of};
ghost use Rattle.fault_hints.specs.RefusedTypes.{first_refused, kind_names, name_among};
ghost use Rattle.fault_hints.specs.RefusedTypes.{refused_at, refused_of, refused_type_line};
ghost use Rattle.fault_hints.specs.RefusedTypes.{type_said, type_words, typed};

use arrow_schema::{read_message, value_type};
use flatbuf::{Table, Vector, Width};
use scan_base::Fault;
use std::alloc::{AllocError, Global};

/// A type: the number of its kind, and the precision and the scale of a decimal.
#[derive(Clone, Copy)]
pub(crate) struct ColumnType {
    pub kind: u64,
    pub first: u64,
    pub second: u64,
}

/// A column: its name and its type.
#[derive(Clone, Copy)]
pub(crate) struct ColumnRead<'a> {
    pub name: &'a str,
    pub data_type: ColumnType,
}

// The name of a kind.
fn kind_name(kind: u64) -> &'static str
    ensures { result.now ≡ name_among kind_names kind }
{
    match kind {
        1 => "null",
        2 => "integer of another width",
        3 => "floating point",
        4 => "binary",
        8 => "date64",
        9 => "time of another width",
        10 => "timestamp of another unit",
        11 => "interval",
        12 => "list",
        13 => "struct",
        14 => "union",
        15 => "fixed size binary",
        16 => "fixed size list",
        17 => "map",
        18 => "duration of another unit",
        19 => "large binary",
        20 => "large utf8",
        21 => "large list",
        23 => "binary view",
        24 => "utf8 view",
        _ => "another type",
    }
}

// The words for a type.
fn type_words(alloc: Global, data_type: ColumnType) -> Result<String, AllocError>
    ensures { IfOk result (λ words. string_bytes words ≡ type_words data_type) }
{
    if data_type.kind == 7 {
        let (precision, scale) = (data_type.first, data_type.second);
        return format!(in alloc; "decimal({precision}, {scale})");
    }
    String::from_str(alloc, kind_name(data_type.kind))
}

// A type of a kind, with these numbers.
fn typed(kind: u64, first: u64, second: u64) -> ColumnType
    ensures { result ≡ typed kind first second }
{
    ColumnType {
        kind,
        first,
        second,
    }
}

// The type of a kind that a table says.
#[tactic(auto, unfolding(crate::specs::RefusedTypes::type_said))]
fn type_said(kind: u64, table: &Table<'_>) -> Result<ColumnType, Fault>
    ensures { Gives (λ data_type. data_type) result (type_said kind table.now) }
{
    match kind {
        7 => {
            let first = table.scalar(0, Width::Four, 0)?;
            let second = table.scalar(1, Width::Four, 0)?;
            Ok(typed(kind, first, second))
        }
        _ => Ok(typed(kind, 0, 0)),
    }
}

// The column that a Field table says.
#[tactic(auto, unfolding(crate::specs::RefusedTypes::column_said))]
fn column_said<'a>(field: &Table<'a>) -> Result<ColumnRead<'a>, Fault>
    ensures { Gives column_at result (column_said field.now) }
{
    let name = field.text(0)?.ok_or(Fault::BadFlatbuffer)?;
    let kind = field.scalar(2, Width::One, 0)?;
    let table = field.table(3)?.ok_or(Fault::BadFlatbuffer)?;
    let data_type = type_said(kind, &table)?;
    Ok(ColumnRead { name, data_type })
}

// The column that a Field table says, where its type is not taken.
fn refused_column<'a>(field: &Table<'a>) -> Option<ColumnRead<'a>>
    ensures { option_map column_at result
        ≡ refused_of (value_type_of field.now) (column_said field.now) }
{
    match (value_type(field), column_said(field)) {
        (Err(Fault::UnsupportedArrow), Ok(column)) => Some(column),
        (_, _) => None,
    }
}

// The column at a place, where its type is not taken.
fn refused_at<'a>(vector: &Vector<'a>, place: usize) -> Option<ColumnRead<'a>>
    requires { place < (vector.now).count }
    ensures { option_map column_at result ≡ refused_at vector.now place }
{
    match vector.table(place) {
        Ok(field) => refused_column(&field),
        Err(_) => None,
    }
}

// The first column whose type is not taken.
fn first_refused<'a>(vector: &Vector<'a>) -> Option<ColumnRead<'a>>
    ensures { option_map column_at result
        ≡ first_refused vector.now 0 (vector.now).count }
{
    for place in 0..vector.len() {
        if let Some(column) = refused_at(vector, place) {
            return Some(column);
        }
    }
    None
}

// The vector of the columns of a schema's header.
#[tactic(auto, unfolding(crate::specs::RefusedTypes::columns_in))]
fn columns_in(header: &[u8]) -> Result<Vector<'_>, Fault>
    ensures { Gives (λ vector. vector) result (columns_in header.now) }
{
    let schema = read_message(header)?.header()?;
    schema.vector(1)?.ok_or(Fault::BadFlatbuffer)
}

// The line for a column whose type is not taken.
fn refused_line(alloc: Global, name: &str, data_type: ColumnType) -> Result<String, AllocError>
    ensures { IfOk result (λ line. string_bytes line
        ≡ column_line (Some (record { name = name.now; type = data_type }))) }
{
    let words = type_words(alloc, data_type)?;
    words_line(alloc, name, words.as_str())
}

fn words_line(alloc: Global, name: &str, words: &str) -> Result<String, AllocError>
    ensures { IfOk result (λ line. string_bytes line ≡ codes "column " ++ (name.now
        ++ (codes ": " ++ (words.now ++ codes " is not taken\n")))) }
{
    format!(in alloc; "column {name}: {words} is not taken\n")
}

/// The line for a column whose type is not taken, if there is one.
///
/// # Errors
///
/// `AllocError` where memory is refused.
pub(crate) fn column_line(
    alloc: Global,
    refused: Option<ColumnRead<'_>>,
) -> Result<String, AllocError>
    ensures { IfOk result
        (λ line. string_bytes line ≡ column_line (option_map column_at refused.entry)) }
{
    match refused {
        Some(column) => refused_line(alloc, column.name, column.data_type),
        None => String::from_str(alloc, "a type is not taken, or a body is compressed\n"),
    }
}

/// What is said of the schema that a header names, one of whose types may not be taken.
///
/// # Errors
///
/// `AllocError` where memory is refused.
pub(crate) fn refused_type_line(alloc: Global, header: &[u8]) -> Result<String, AllocError>
    ensures { IfOk result (λ line. string_bytes line ≡ refused_type_line header.now) }
{
    match columns_in(header) {
        Ok(vector) => column_line(alloc, first_refused(&vector)),
        Err(_) => column_line(alloc, None),
    }
}
