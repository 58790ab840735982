//! Numbers of long texts, and of the long texts of a key.

ghost use Rattle.std.specs.Prelude.{◌≡◌, ◌<◌, ◌+◌, Some, IfOk, OnOk, get_or, length};
ghost use Rattle.scan_base.specs.declared.value.Value.TheVariants.{Null, Text};
ghost use Rattle.first_rows.specs.Numbers.{AreSeen, IsBehind, IsNumber, IsStep, Stay, text_number};
ghost use Rattle.first_rows.specs.RowKeys.{key_of};
ghost use Rattle.coded_keys.specs.Numbers.{value_in};

use crate::cell::long_text;
use crate::key::RowKey;
use coded_keys::{KeyPart, SeenNumbers};
use indexmap::IndexSet;
use scan_base::HashSeed;
use std::alloc::{AllocError, Global};

/// Texts, the place of each is its number; and pairs of the number of earlier texts of a key, and
/// that of one text more. The place of a pair, and 1, is the number of them all. That of one text
/// alone is its own, and 1. No texts have the number 0.
#[derive(Drop)]
pub(crate) struct TextNumbers<'t> {
    pub(crate) texts: IndexSet<&'t str, HashSeed>,
    pub(crate) pairs: IndexSet<(u32, u32), HashSeed>,
}

// A place as a number of 32 bits.
fn short(place: usize) -> Result<u32, AllocError>
    ensures { IfOk result (λ number. number ≡ place) }
{
    match u32::try_from(place) {
        Ok(number) => Ok(number),
        Err(_) => Err(AllocError),
    }
}

// The number that follows a place.
fn next(place: usize) -> Result<u32, AllocError>
    ensures { IfOk result (λ number. number ≡ place + 1) }
{
    match place.checked_add(1) {
        Some(number) => short(number),
        None => Err(AllocError),
    }
}

impl<'t> TextNumbers<'t> {
    /// No texts have a number yet.
    pub(crate) fn new(alloc: Global, seed: HashSeed) -> TextNumbers<'t> {
        TextNumbers {
            texts: IndexSet::with_hasher(alloc, seed),
            pairs: IndexSet::with_hasher(alloc, seed),
        }
    }

    // The number of a text: a new one, where it has none.
    fn text(&mut self, text: &'t str) -> Result<u32, AllocError>
        ensures stay { Stay self.old self.new }
        ensures is { IfOk result
            (λ number. text_number (self.new).texts.keys (Text text.now) ≡ Some number) }
    {
        match self.texts.insert_full(text) {
            Ok((place, _)) => short(place),
            Err(_) => Err(AllocError),
        }
    }

    // The number of the texts of a number and of one text after them.
    fn with(&mut self, before: u32, text: u32) -> Result<u32, AllocError>
        ensures stay { Stay self.old self.new }
        ensures is { IfOk result (IsBehind (self.new).pairs.keys before text) }
    {
        if before == 0 {
            return next(text as usize);
        }
        match self.pairs.insert_full((before, text)) {
            Ok((place, _)) => next(place),
            Err(_) => Err(AllocError),
        }
    }

    // The number of a part of a key that is a text. A text whose code was seen is not looked at.
    fn seen(
        &mut self,
        seen: &mut SeenNumbers,
        at: &KeyPart<'_>,
        text: &'t str,
    ) -> Result<u32, AllocError>
        requires text { Text text.now ≡ value_in at.now }
        requires seen { AreSeen self.old at.now.batch.now at.now.columns.now seen.old }
        ensures stay { Stay self.old self.new }
        ensures seen { AreSeen self.new at.now.batch.now at.now.columns.now seen.new }
        ensures is { IfOk result
            (λ number. text_number (self.new).texts.keys (Text text.now) ≡ Some number) }
    {
        if let Some(number) = seen.number(at) {
            return Ok(number);
        }
        let number = self.text(text)?;
        seen.keep(at, number);
        Ok(number)
    }

    // The number of the long texts of the parts of a key up to one, where those before have this
    // number.
    fn part(
        &mut self,
        seen: &mut SeenNumbers,
        first: &RowKey<'t>,
        before: u32,
        part: u32,
    ) -> Result<u32, AllocError>
        requires there { part < length first.now.columns.now }
        requires seen { AreSeen self.old first.now.batch.now first.now.columns.now seen.old }
        ensures stay { Stay self.old self.new }
        ensures seen { AreSeen self.new first.now.batch.now first.now.columns.now seen.new }
        ensures is { IfOk result (IsStep self.new before (get_or (key_of first.now) part Null)) }
    {
        let Some(text) = long_text(first.cell(part as usize)) else {
            return Ok(before);
        };
        let at = KeyPart {
            batch: first.batch,
            columns: first.columns,
            row: first.row,
            part,
        };
        let number = self.seen(seen, &at, text)?;
        self.with(before, number)
    }

    /// The number of the long texts of a row's key.
    ///
    /// # Errors
    ///
    /// `AllocError` where memory is refused, or 32 bits do not tell the number.
    pub(crate) fn key(
        &mut self,
        seen: &mut SeenNumbers,
        first: &RowKey<'t>,
    ) -> Result<u32, AllocError>
        requires seen { AreSeen self.old first.now.batch.now first.now.columns.now seen.old }
        ensures stay { Stay self.old self.new }
        ensures seen { AreSeen self.new first.now.batch.now first.now.columns.now seen.new }
        ensures is { IfOk result (IsNumber self.new 0 (key_of first.now)) }
    {
        let parts = short(first.columns.len())?;
        let mut number = 0u32;
        for part in 0..parts {
            number = self.part(seen, first, number, part)?;
        }
        Ok(number)
    }
}
