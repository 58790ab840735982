//! Values in memory, and predicates of many levels.

ghost use Rattle.std.specs.Prelude.{◌≡◌};
ghost use Rattle.scan_base.specs.declared.comparison.Comparison.TheVariants.{Equal};
ghost use Rattle.scan_base.specs.declared.predicate.Operand.TheVariants.{Column, Literal};
ghost use Rattle.scan_base.specs.declared.value.Value.TheVariants.{Int};
ghost use Rattle.scan_base.specs.Predicate.{comparing};
ghost use Rattle.scan_base.specs.View.{pred_of};

use crate::row::CaseRow;
use crate::words::{Word, told};
use scan_base::{
    Comparison, Fault, Items, Operand, Predicate, Text, Truth, Value, ValueRef, read_text,
};
use std::alloc::Global;

// `HEX`: a text that is copied, by each call that copies, and whether the copies are the same.
fn copied(alloc: Global, bytes: &[u8]) -> Result<String, Fault> {
    let text = read_text(bytes, Fault::BadProto)?;
    let value = Value::Text(Text::new(alloc, text)?.clone()?).copy()?;
    let is_same = value == Value::Text(Text::new(alloc, text)?);
    let word = match value.borrowed() {
        ValueRef::Text(copy) => Word::Text(copy),
        _ => Word::Text("no text"),
    };
    told(alloc, &[word, Word::Flag(is_same)])
}

// A list of so many items: its length, and whether it is empty.
fn list(alloc: Global, len: usize) -> Result<String, Fault> {
    let mut list = Items::new(alloc);
    for number in 0..len {
        list.push(number)?;
    }
    told(
        alloc,
        &[
            Word::Number(list.len() as i128),
            Word::Flag(list.is_empty()),
        ],
    )
}

// `$0 = number`
fn first_equals(number: i128) -> Predicate<usize>
    ensures { pred_of result ≡ comparing Equal (Column 0) (Literal (Int number)) }
{
    Predicate::Compare {
        comparison: Comparison::Equal,
        left: Operand::Column(0),
        right: Operand::Literal(Value::Int(number)),
    }
}

// A tree of so many levels to the left is dropped, which needs no more stack than a short one.
fn long_chain(alloc: Global, levels: usize) -> Result<String, Fault> {
    let mut all = first_equals(2);
    for _ in 0..levels {
        all = Predicate::And(Box::new(alloc, all)?, Box::new(alloc, first_equals(3))?);
    }
    drop(all);
    told(alloc, &[Word::Text("dropped")])
}

// Trees of so many levels to the left are looked at as far as the leftmost: whether
// `$0 = 2 AND $0 = 3 AND ..` is false and `$0 = 3 OR $0 = 2 OR ..` true where the column is 3.
fn chain_truths(alloc: Global, levels: usize) -> Result<String, Fault> {
    let mut all = first_equals(2);
    let mut any = first_equals(3);
    for _ in 0..levels {
        all = Predicate::And(Box::new(alloc, all)?, Box::new(alloc, first_equals(3))?);
        any = Predicate::Or(Box::new(alloc, any)?, Box::new(alloc, first_equals(2))?);
    }
    let mut row = Items::new(alloc);
    row.push(Value::Int(3))?;
    let (all, any) = (all.truth(&row), any.truth(&row));
    told(
        alloc,
        &[
            Word::Flag(all == Truth::False),
            Word::Flag(any == Truth::True),
        ],
    )
}

/// Values that are copied, and what is as large as a row says.
pub fn answer(alloc: Global, case: &str, row: &CaseRow) -> Result<String, Fault> {
    match (case, row.numbers.as_slice()) {
        ("copied", []) => copied(alloc, &row.bytes),
        ("list", [len]) => list(alloc, *len),
        ("long_chain", [levels]) => long_chain(alloc, *levels),
        ("chain_truths", [levels]) => chain_truths(alloc, *levels),
        _ => Err(Fault::UnknownMethod),
    }
}
