//! Numbers of at most 64 bits with a sign, as they lie in the buffers of a column.

ghost use Rattle.std.specs.Prelude.{◌≡◌, ◌≤◌, ◌<◌, ◌+◌, ◌*◌, ℕ, Bool, true, false, is_some, length};
ghost use Rattle.arrow_types.specs.declared.data_type.IntegerType.{IntegerType as Kind};
ghost use Rattle.arrow_types.specs.declared.data_type.IntegerType.TheVariants as integer;
ghost use Rattle.arrays.specs.Number.{byte_width, integer_at};
ghost use Rattle.arrays.specs.Column.{slot_of};
ghost use Rattle.arrays.specs.declared.layout.Layout.TheVariants.{Indices as IndicesLayout};
ghost use Rattle.arrays.specs.declared.layout.Layout.TheVariants.{Integers as IntegersLayout};
ghost use Rattle.arrays.specs.Indices.{AreIndices};
ghost use Rattle.group_slots.specs.Slots.{HaveRoom, entry_cell, slot_cell, slot_is_valid};
ghost use Rattle.group_slots.specs.Slots.{slot_number};

use arrays::{Cells, Column, Dictionary, Element, Indices, Integers, Validity};
use arrow_types::IntegerType;

/// A type of numbers that 64 bits with a sign hold.
pub trait Number {
    ghost kind: { Kind };

    /// Number `place` of packed ones.
    fn at(values: &[u8], place: usize) -> i64
        requires { byte_width kind * (place + 1) ≤ length values.now }
        ensures { result ≡ integer_at kind values.now place };
}

impl Number for i8 {
    ghost kind = { integer.Int8 };

    fn at(values: &[u8], place: usize) -> i64 {
        i64::from(i8::read(values, place))
    }
}

impl Number for i16 {
    ghost kind = { integer.Int16 };

    fn at(values: &[u8], place: usize) -> i64 {
        i64::from(i16::read(values, place))
    }
}

impl Number for i32 {
    ghost kind = { integer.Int32 };

    fn at(values: &[u8], place: usize) -> i64 {
        i64::from(i32::read(values, place))
    }
}

impl Number for i64 {
    ghost kind = { integer.Int64 };

    fn at(values: &[u8], place: usize) -> i64 {
        i64::read(values, place)
    }
}

impl Number for u8 {
    ghost kind = { integer.UInt8 };

    fn at(values: &[u8], place: usize) -> i64 {
        i64::from(u8::read(values, place))
    }
}

impl Number for u16 {
    ghost kind = { integer.UInt16 };

    fn at(values: &[u8], place: usize) -> i64 {
        i64::from(u16::read(values, place))
    }
}

impl Number for u32 {
    ghost kind = { integer.UInt32 };

    fn at(values: &[u8], place: usize) -> i64 {
        i64::from(u32::read(values, place))
    }
}

/// The packed numbers of a column, their type, which of them are valid, and the place of its first
/// row among them.
#[derive(Clone, Copy, Drop)]
pub struct IntegerSlots<'a> {
    pub kind: IntegerType,
    pub values: &'a [u8],
    pub validity: &'a Validity,
    pub first: usize,
}

impl<'a> IntegerSlots<'a> {
    /// The number of a row, which is what its bytes say where it is null.
    pub(crate) fn number<N: Number>(&self, row: usize) -> i64
        requires kind { self.now.kind ≡ N.kind }
        requires room { (rows : ℕ) × (row < rows) × HaveRoom self.now rows }
        ensures { result ≡ slot_number self.now row }
    {
        N::at(self.values, self.first + row)
    }

    /// Whether the number of a row is valid.
    pub(crate) fn is_valid(&self, row: usize) -> bool
        requires { (rows : ℕ) × (row < rows) × HaveRoom self.now rows }
        ensures { result ≡ slot_is_valid self.now row }
    {
        self.validity.is_valid(self.first + row)
    }
}

/// Which numbers of a column are valid.
pub(crate) trait ValidRows {
    ghost marked: { Bool };

    /// Whether the number of a row is valid.
    fn is_valid(slots: &IntegerSlots<'_>, row: usize) -> bool
        requires marked { is_some slots.now.validity.now ≡ marked }
        requires room { (rows : ℕ) × (row < rows) × HaveRoom slots.now rows }
        ensures { result ≡ slot_is_valid slots.now row };
}

/// Each number is valid.
#[derive(Clone, Copy, Drop)]
pub(crate) struct WholeValidity;

impl ValidRows for WholeValidity {
    ghost marked = { false };

    fn is_valid(slots: &IntegerSlots<'_>, _row: usize) -> bool {
        true
    }
}

/// Bits tell which numbers are valid.
#[derive(Clone, Copy, Drop)]
pub(crate) struct MarkedValidity;

impl ValidRows for MarkedValidity {
    ghost marked = { true };

    fn is_valid(slots: &IntegerSlots<'_>, row: usize) -> bool {
        match slots.validity.bits() {
            None => unreachable!(),
            Some(bits) => bits.get(slots.first + row),
        }
    }
}

/// The packed numbers of a column of whole numbers.
#[tactic(auto, using(crate::proofs::Slotted::room_of, crate::proofs::Slotted::integer_cell))]
pub fn integer_slots<'a>(column: &'a Column, cells: &Integers<'a>) -> IntegerSlots<'a>
    requires { column.now.layout ≡ IntegersLayout cells.now }
    ensures room { HaveRoom result column.now.len }
    ensures cells { (row : ℕ) → slot_of column.now row ≡ slot_cell result row }
{
    let _count = (column.len(), cells.len());
    IntegerSlots {
        kind: cells.integer_type(),
        values: cells.values(),
        validity: cells.validity(),
        first: column.first(),
    }
}

/// The packed indices of a column, and the dictionary into which they lead.
#[derive(Clone, Copy, Drop)]
pub struct Entries<'a> {
    pub slots: IntegerSlots<'a>,
    pub dictionary: &'a Dictionary,
}

/// The packed indices of a column into a dictionary.
#[tactic(auto, using(crate::proofs::Slotted::room_of, crate::proofs::Slotted::index_cell))]
pub fn entry_slots<'a>(column: &'a Column, cells: &Indices<'a>) -> Entries<'a>
    requires is { column.now.layout ≡ IndicesLayout cells.now }
    requires stand { AreIndices cells.now }
    ensures room { HaveRoom result.slots column.now.len }
    ensures cells { (row : ℕ) → slot_of column.now row ≡ entry_cell result row }
{
    let _count = column.len();
    Entries {
        slots: IntegerSlots {
            kind: cells.index_type(),
            values: cells.values(),
            validity: cells.validity(),
            first: column.first(),
        },
        dictionary: cells.dictionary(),
    }
}
