//! What is wrong with a text.

/// What is wrong with a record.
#[derive(Clone, Copy, Debug, PartialEq, Eq)]
pub enum RecordFault {
    /// It has so many fields, and there are not as many columns.
    Fields(usize),
    /// The field of the column at this place, counted from 0, says no value of it.
    Cell(usize),
}

/// A wrong record: how many records stand before it, and what is wrong with it first.
#[derive(Clone, Copy, Debug, PartialEq, Eq)]
pub struct WrongRecord {
    pub before: usize,
    pub wrong: RecordFault,
}
