//! Tables of FlatBuffers, slot by slot.

use crate::row::CaseRow;
use crate::words::{Word, told};
use flatbuf::{Buf, Builder, Table, Width};
use scan_base::Fault;
use std::alloc::Global;

// The header of a message: the table in slot 2 of the root.
fn header(bytes: &[u8]) -> Result<Table<'_>, Fault> {
    Buf::root(bytes)?.table(2)?.ok_or(Fault::BadFlatbuffer)
}

// `HEX`: the name of a schema's first column.
fn column_name(alloc: Global, bytes: &[u8]) -> Result<String, Fault> {
    let columns = header(bytes)?.vector(1)?.ok_or(Fault::BadFlatbuffer)?;
    if columns.is_empty() {
        return Err(Fault::BadFlatbuffer);
    }
    match columns.table(0)?.text(0)? {
        Some(name) => told(alloc, &[Word::Bytes(name.as_bytes())]),
        None => told(alloc, &[Word::Text("no name")]),
    }
}

fn width_of(bytes: usize) -> Result<Width, Fault> {
    match bytes {
        1 => Ok(Width::One),
        2 => Ok(Width::Two),
        4 => Ok(Width::Four),
        8 => Ok(Width::Eight),
        _ => Err(Fault::BadFrame),
    }
}

// `HEX SLOT WIDTH DEFAULT`: the number in a slot of the root.
fn scalar(alloc: Global, row: &CaseRow) -> Result<String, Fault> {
    let [slot, width, default] = row.numbers.as_slice() else {
        return Err(Fault::BadFrame);
    };
    let slot = u16::try_from(*slot).map_err(|_| Fault::BadFrame)?;
    let number = Buf::root(&row.bytes)?.scalar(slot, width_of(*width)?, *default as u64)?;
    told(alloc, &[Word::Number(i128::from(number))])
}

// `HEX SLOT`: the structs of 16 bytes in a slot of the header.
fn structs(alloc: Global, row: &CaseRow) -> Result<String, Fault> {
    let [slot] = row.numbers.as_slice() else {
        return Err(Fault::BadFrame);
    };
    let slot = u16::try_from(*slot).map_err(|_| Fault::BadFrame)?;
    let found = header(&row.bytes)?.structs(slot, 16)?;
    told(alloc, &[Word::Bytes(found.ok_or(Fault::BadFlatbuffer)?)])
}

// Structs of some size are written, since small ones show little.
fn many_structs(alloc: Global) -> Result<String, Fault> {
    let _written = Builder::new(alloc).structs(16, &[9; 4096])?;
    told(alloc, &[Word::Text("written")])
}

/// What a buffer has in a slot.
pub fn answer(alloc: Global, case: &str, row: &CaseRow) -> Result<String, Fault> {
    match case {
        "name" => column_name(alloc, &row.bytes),
        "scalar" => scalar(alloc, row),
        "structs" => structs(alloc, row),
        "many_structs" => many_structs(alloc),
        _ => Err(Fault::UnknownMethod),
    }
}
