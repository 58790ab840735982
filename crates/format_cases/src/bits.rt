//! Bits of bytes, from any bit on.

ghost use Rattle.std.specs.Prelude.{◌≡◌, length, IfOk};

use crate::row::CaseRow;
use crate::words::{Word, told};
use bitmap::Bits;
use bytes::Bytes;
use scan_base::Fault;
use std::alloc::Global;

// So many bits of bytes, from a place on.
fn bits_of(alloc: Global, bytes: &[u8], first: usize, len: usize) -> Result<Bits, Fault>
    ensures { IfOk result (λ bits. length bits ≡ len) }
{
    let bytes = Bytes::copy_from_slice(alloc, bytes)?;
    let end = first.checked_add(len).ok_or(Fault::BadFrame)?;
    if end / 8 >= bytes.len() {
        return Err(Fault::BadFrame);
    }
    Ok(Bits::new(bytes, first, len))
}

// Each bit, and how many of them are 1.
fn told_bits(alloc: Global, bits: &Bits) -> Result<String, Fault> {
    let mut text = String::new(alloc);
    for place in 0..bits.len() {
        text.push(if bits.get(place) { '1' } else { '0' })?;
    }
    told(
        alloc,
        &[
            Word::Text(text.as_str()),
            Word::Number(bits.count() as i128),
        ],
    )
}

// `HEX FIRST LEN`: bits.
fn run(alloc: Global, row: &CaseRow) -> Result<String, Fault> {
    let [first, len] = row.numbers.as_slice() else {
        return Err(Fault::BadFrame);
    };
    told_bits(alloc, &bits_of(alloc, &row.bytes, *first, *len)?)
}

// `HEX FIRST LEN FROM TO`: a slice of bits.
fn slice(alloc: Global, row: &CaseRow) -> Result<String, Fault> {
    let [first, len, from, to] = row.numbers.as_slice() else {
        return Err(Fault::BadFrame);
    };
    let bits = bits_of(alloc, &row.bytes, *first, *len)?;
    if from > to || *to > bits.len() {
        return Err(Fault::BadFrame);
    }
    told_bits(alloc, &bits.slice(*from, *to)?)
}

// `HEX FIRST LEN FROM`: the word from a bit on, of bits and of the same once more.
fn word(alloc: Global, row: &CaseRow) -> Result<String, Fault> {
    let [first, len, from] = row.numbers.as_slice() else {
        return Err(Fault::BadFrame);
    };
    let bits = bits_of(alloc, &row.bytes, *first, *len)?;
    let shared = bits.share()?;
    if bits.len() < 64 || *from > bits.len() - 64 {
        return Err(Fault::BadFrame);
    }
    let (word, again) = (bits.word(*from), shared.word(*from));
    told(
        alloc,
        &[
            Word::Number(i128::from(word)),
            Word::Number(i128::from(again)),
        ],
    )
}

// `HEX FIRST LEN FROM COUNT`: fewer bits than a word, of bits that are shared.
fn short_word(alloc: Global, row: &CaseRow) -> Result<String, Fault> {
    let [first, len, from, count] = row.numbers.as_slice() else {
        return Err(Fault::BadFrame);
    };
    let bits = bits_of(alloc, &row.bytes, *first, *len)?.share()?;
    if *count >= 64 || *from > bits.len() || *count > bits.len() - *from {
        return Err(Fault::BadFrame);
    }
    told(
        alloc,
        &[Word::Number(i128::from(bits.short_word(*from, *count)))],
    )
}

// `HEX FIRST SECOND LEN`: what the bits of the first half of the bytes make with those of the
// second.
fn joined(alloc: Global, case: &str, row: &CaseRow) -> Result<String, Fault> {
    let [first, second, len] = row.numbers.as_slice() else {
        return Err(Fault::BadFrame);
    };
    let (left, right) = row.bytes.split_at(row.bytes.len() / 2);
    let left = bits_of(alloc, left, *first, *len)?;
    let right = bits_of(alloc, right, *second, *len)?;
    let made = match case {
        "and" => left.and(alloc, &right)?,
        "or" => left.or(alloc, &right)?,
        "and_not" => left.and_not(alloc, &right)?,
        _ => return Err(Fault::UnknownMethod),
    };
    told_bits(alloc, &made)
}

/// What bits are, and what two lists of them make.
pub fn answer(alloc: Global, case: &str, row: &CaseRow) -> Result<String, Fault> {
    match case {
        "run" => run(alloc, row),
        "slice" => slice(alloc, row),
        "word" => word(alloc, row),
        "short_word" => short_word(alloc, row),
        _ => joined(alloc, case, row),
    }
}
