//! Codes of dictionaries, and numbers, that stand for values of a key.

ghost use Rattle.std.specs.Prelude.{◌≡◌, ◌<◌, ◌≤◌, All, IsTrue, length, nat_lt, true};
ghost use Rattle.std.specs.List.{list_all};
ghost use Rattle.scan_base.specs.Value.{value_of};
ghost use Rattle.arrays.specs.Batch.{BatchAt};
ghost use Rattle.arrays.specs.Column.{slot_of};
ghost use Rattle.arrays.specs.declared.layout.Layout.TheVariants as layout;
ghost use Rattle.hash_join.specs.Codes.{column_code, column_number, valid_layout_code};
ghost use Rattle.hash_join.specs.Codes.{value_number};
ghost use Rattle.hash_join.specs.Codes.{AreOne};

use arrays::{Batch, Cells, Column, Indices, Layout};
use scan_base::ValueRef;

// The code at a row of a column: none where the column has no codes, or it is not valid.
pub(crate) fn code_at(column: &Column, row: usize) -> Option<i128>
    requires { row < column.now.len }
    ensures { result ≡ column_code column.now row }
{
    let _count = column.len();
    match column.layout() {
        Layout::Indices(cells) => valid_code(&cells, column.first() + row),
        _ => None,
    }
}

// The same, and the number at the row where the column has numbers or truth values: none where it
// is null, or a text that lies in the column itself.
pub(crate) fn number_at(column: &Column, row: usize) -> Option<i128>
    requires { row < column.now.len }
    ensures { result ≡ column_number column.now row }
{
    let _count = column.len();
    match column.layout() {
        Layout::Indices(cells) => valid_code(&cells, column.first() + row),
        _ => number_of(column.value_at(row)),
    }
}

// The code of a slot, where it is valid.
fn valid_code(cells: &Indices<'_>, place: usize) -> Option<i128>
    requires { place < cells.now.len }
    ensures { result ≡ valid_layout_code (layout.Indices cells.now) place }
{
    let _count = cells.len();
    if cells.validity().is_valid(place) {
        Some(cells.index_at(place))
    } else {
        None
    }
}

// The number that a value is, or that a truth value stands for.
fn number_of(value: ValueRef<'_>) -> Option<i128>
    ensures { result ≡ value_number (value_of value.entry) }
{
    match value {
        ValueRef::Null => None,
        ValueRef::Bool(flag) => Some(i128::from(flag)),
        ValueRef::Int(number) => Some(number),
        ValueRef::Text(_) => None,
    }
}

// Whether two rows of a column have the same code of its dictionary.
pub(crate) fn have_one_code(column: &Column, row: usize, other: usize) -> bool
    requires row { row < column.now.len }
    requires other { other < column.now.len }
    ensures { result ≡ true → slot_of column.now row ≡ slot_of column.now other }
{
    are_one(code_at(column, row), code_at(column, other))
}

// The same, or whether they have the same number.
pub(crate) fn have_one_number(column: &Column, row: usize, other: usize) -> bool
    requires row { row < column.now.len }
    requires other { other < column.now.len }
    ensures { result ≡ true → slot_of column.now row ≡ slot_of column.now other }
{
    are_one(number_at(column, row), number_at(column, other))
}

// Whether two codes are there and are the same.
fn are_one(code: Option<i128>, other: Option<i128>) -> bool
    ensures { result ≡ true → AreOne code other }
{
    match (code, other) {
        (Some(code), Some(other)) => code == other,
        _ => false,
    }
}

// Whether rows may be told by their codes: a column of the key has codes, and none has texts of its
// own.
pub(crate) fn has_codes(batch: &Batch, key: &[usize]) -> bool
    requires { IsTrue (list_all (λ column. nat_lt column (length batch.now.columns)) key.now) }
{
    let columns = batch.columns();
    let mut found = false;
    for number in 0..key.len() {
        match columns[key[number]].layout() {
            Layout::Texts(_) => return false,
            Layout::Indices(_) => found = true,
            _ => {}
        }
    }
    found
}

// How many values the largest dictionary has of those that parts of the key have.
fn largest(batch: &Batch, key: &[usize]) -> usize
    requires { IsTrue (list_all (λ column. nat_lt column (length batch.now.columns)) key.now) }
{
    let columns = batch.columns();
    let mut most = 0;
    for number in 0..key.len() {
        if let Layout::Indices(cells) = columns[key[number]].layout() {
            most = cells.dictionary().len().max(most);
        }
    }
    most
}

// Whether a part of the key has a dictionary with a value.
pub(crate) fn any_codes(batch: &Batch, key: &[usize]) -> bool
    requires { IsTrue (list_all (λ column. nat_lt column (length batch.now.columns)) key.now) }
{
    largest(batch, key) > 0
}

// How many values the largest dictionary has of those that several parts have; none where the key
// has one part.
pub(crate) fn most_codes(batch: &Batch, key: &[usize]) -> usize
    requires { IsTrue (list_all (λ column. nat_lt column (length batch.now.columns)) key.now) }
{
    if key.len() == 1 {
        0
    } else {
        largest(batch, key)
    }
}

// The same of the largest of these batches.
pub(crate) fn any_most_codes(batches: &[Batch], key: &[usize]) -> usize
    requires { All (λ (batch : BatchAt).
        IsTrue (list_all (λ column. nat_lt column (length batch.columns)) key.now)) batches.now }
{
    let mut most = 0;
    for batch in batches {
        most = most_codes(batch, key).max(most);
    }
    most
}

// Whether a part of the key has a dictionary with a value in one of these batches.
pub(crate) fn any_batch_codes(batches: &[Batch], key: &[usize]) -> bool
    requires { All (λ (batch : BatchAt).
        IsTrue (list_all (λ column. nat_lt column (length batch.columns)) key.now)) batches.now }
{
    for batch in batches {
        if any_codes(batch, key) {
            return true;
        }
    }
    false
}

// Whether rows of one of these batches may be told by their codes.
pub(crate) fn any_has_codes(batches: &[Batch], key: &[usize]) -> bool
    requires { All (λ (batch : BatchAt).
        IsTrue (list_all (λ column. nat_lt column (length batch.columns)) key.now)) batches.now }
{
    for batch in batches {
        if has_codes(batch, key) {
            return true;
        }
    }
    false
}

// Above the numbers of all columns of the key.
pub(crate) fn columns_of(key: &[usize]) -> usize {
    let mut columns = 1usize;
    for column in key {
        columns = column.saturating_add(1).max(columns);
    }
    columns
}

// So many bytes of a text take about as long as a number.
const COUNTED_BYTES: usize = 64;

// How many bytes of text a row has in a column: as the longest of a dictionary, and else as the
// texts of all rows have on average. It looks at no text.
fn row_bytes(column: &Column) -> usize {
    let rows = column.len();
    let first = column.first();
    match column.layout() {
        Layout::Texts(cells) if rows > 0 => {
            cells.bytes_between(first, first + rows).len() / rows
        }
        Layout::Indices(_) => column.longest_text(),
        _ => 0,
    }
}

// As how many rows one of a batch counts: once for each part of the key, and once for each 64 bytes
// of text there. It looks at no text.
fn row_weight(batch: &Batch, key: &[usize]) -> usize
    requires { IsTrue (list_all (λ column. nat_lt column (length batch.now.columns)) key.now) }
{
    let columns = batch.columns();
    let mut weight = 0usize;
    for part in 0..key.len() {
        let bytes = row_bytes(&columns[key[part]]);
        weight = weight.saturating_add(bytes / COUNTED_BYTES + 1);
    }
    weight
}

// As how many rows one of these batches counts at most, and once at least.
pub(crate) fn most_weight(batches: &[Batch], key: &[usize]) -> usize
    requires { All (λ (batch : BatchAt).
        IsTrue (list_all (λ column. nat_lt column (length batch.columns)) key.now)) batches.now }
    ensures { 1 ≤ result }
{
    let mut most = 1usize;
    for batch in batches {
        most = row_weight(batch, key).max(most);
    }
    most
}
