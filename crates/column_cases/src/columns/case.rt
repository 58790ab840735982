//! The words of a row.

use anyhow::{Context, Result};

/// What a column is made of, the slots of it that are kept, and which of those are gathered.
#[derive(Clone, Copy)]
pub struct ColumnCase<'a> {
    /// A type: `Int8` .. `UInt64`, `Decimal128`, `Bool` or `Utf8`.
    pub kind: &'a str,
    /// How many slots there are.
    pub len: usize,
    /// The validity bits, or `-`.
    pub validity: &'a str,
    /// The packed values or indices, or the offsets of texts.
    pub values: &'a str,
    /// The bytes of texts, or the parts of a dictionary, or `-`.
    pub texts: &'a str,
    /// The first slot that is kept, and the one after the last.
    pub from: usize,
    pub to: usize,
    /// Of the kept slots every so-many-th is gathered, from the first on, where the row says so.
    pub every: Option<usize>,
}

impl<'a> ColumnCase<'a> {
    /// The case of a row, where it has all words. The last may be left out.
    pub fn read(row: &'a str) -> Result<ColumnCase<'a>> {
        ColumnCase::of_words(row).context("too few words")
    }

    fn of_words(row: &'a str) -> Option<ColumnCase<'a>> {
        let mut words = row.split_whitespace();
        Some(ColumnCase {
            kind: words.next()?,
            len: number(words.next()?),
            validity: words.next()?,
            values: words.next()?,
            texts: words.next()?,
            from: number(words.next()?),
            to: number(words.next()?),
            every: words.next().map(number),
        })
    }
}

/// The number that a word spells, and 0 where it spells none.
pub fn number(word: &str) -> usize {
    word.parse().unwrap_or(0)
}
