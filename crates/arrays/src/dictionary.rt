//! Dictionaries of texts.

ghost use Rattle.std.specs.Prelude.{◌≡◌, ◌==◌, ◌≤◌, [], false, All, length, slice_get, option_map};
ghost use Rattle.std.specs.Prelude.{IfOk};
ghost use Rattle.scan_base.specs.Reading.{GivesUnlessMemory, RefusesFirst};
ghost use Rattle.scan_base.specs.Value.{value_of, is_null, IsTextOrNull};
ghost use Rattle.std.specs.List.{flat_map, list_any};
ghost use Rattle.arrays.specs.Dictionary.{extended_by};
ghost use Rattle.arrays.specs.Texts.{texts_values};
ghost use Rattle.arrays.specs.WrittenSlots.{text_bytes};

use crate::cells::Cells;
use crate::runs::Runs;
use crate::texts::Texts;
use scan_base::{Fault, ValueRef};
use std::alloc::{AllocError, Global};
use std::marker::Model;

// How many values a dictionary may have.
const MOST_VALUES: usize = 16_777_216;

/// The texts that indices lead to, in the parts in which they came: the first, and those after it,
/// which longer dictionaries share. Some may be null. A contract sees the list of their values.
pub struct Dictionary {
    first: Texts,
    later: Runs,
    len: usize,
    longest: usize,
}

// Written out, so that dropping it is one call (docs/DECISIONS.md).
impl Drop for Dictionary {
    fn drop(self) {
        let Dictionary {
            first: _,
            later: _,
            len: _,
            longest: _,
        } = self;
    }
}

impl Model for Dictionary {
    ghost use Rattle.std.specs.Prelude.{List, ◌++◌};
    ghost use Rattle.scan_base.specs.declared.value.Value.{Value as Cell};
    ghost use Rattle.arrays.specs.Texts.{texts_values};
    ghost use Rattle.arrays.specs.inside.Dictionary.{IsDictionary};

    ghost Value = { List Cell };

    ghost view = { λ d. texts_values d.first ++ d.later };

    ghost invariant = { λ d. IsDictionary (texts_values d.first ++ d.later) d.len d.longest };
}

impl Dictionary {
    /// No values. It takes no memory.
    pub fn new(alloc: Global) -> Dictionary
        ensures { result ≡ [] }
    {
        Dictionary {
            first: Texts::none(),
            later: Runs::new(alloc),
            len: 0,
            longest: 0,
        }
    }

    /// How many values there are.
    pub fn len(&self) -> usize
        ensures count { result ≡ length self.now }
        ensures texts { All IsTextOrNull self.now }
    {
        self.len
    }

    /// Whether there is no value.
    pub fn is_empty(&self) -> bool
        ensures { result ≡ (length self.now == 0) }
    {
        self.len() == 0
    }

    /// The value of a number, counted from 0, where there is one. It takes no memory.
    pub fn get(&self, index: usize) -> Option<ValueRef<'_>>
        ensures { option_map value_of result ≡ slice_get self.now index }
    {
        let first = self.first.len();
        if index < first {
            return Some(self.first.value_at(index));
        }
        self.later.get(index - first)
    }

    /// The parts in which the values came, in order: a value's number is counted from the first of
    /// them on.
    ///
    /// # Errors
    ///
    /// `AllocError` where memory is refused.
    pub fn parts(&self, alloc: Global) -> Result<Vec<&Texts>, AllocError>
        ensures { IfOk result
            (λ parts. flat_map (λ part. texts_values part.now) parts.items ≡ self.now) }
    {
        let mut parts = Vec::new(alloc);
        parts.push(&self.first)?;
        self.later.append_parts(&mut parts)?;
        Ok(parts)
    }

    /// Whether a value may be null: where the answer is no, none is. It looks at no value.
    pub fn may_have_nulls(&self) -> bool
        ensures { result ≡ false → list_any is_null self.now ≡ false }
    {
        let _first = self.first.len();
        self.first.may_have_nulls() || self.later.may_have_nulls()
    }

    // A number of bytes that no text has more of. It looks at no value.
    pub(crate) fn longest(&self) -> usize
        ensures { All (λ value. length (text_bytes value) ≤ result) self.now }
    {
        self.longest
    }

    /// The same values with those of one more part after them. It takes memory for few handles, and
    /// copies no text.
    ///
    /// # Errors
    ///
    /// - F12 (`Fault::LimitReached`) where there would be more than 16,777,216 values.
    /// - F21 (`Fault::OutOfMemory`) where memory is refused, and never where there would be too
    ///   many values.
    #[tactic(auto, unfolding(crate::specs::Dictionary::extended_by))]
    pub fn extended(&self, alloc: Global, part: Texts) -> Result<Dictionary, Fault>
        ensures value { GivesUnlessMemory (λ values. values) result (extended_by self.now part) }
        ensures refused { RefusesFirst result (extended_by self.now part) }
    {
        let more = part.len();
        if MOST_VALUES - self.len < more {
            return Err(Fault::LimitReached);
        }
        let len = self.len + more;
        let longest = self.longest.max(part.borrowed().longest_between(0, more));
        if self.len == 0 {
            return Ok(Dictionary {
                first: part,
                later: Runs::new(alloc),
                len,
                longest,
            });
        }
        let first = self.first.share()?;
        let later = self.later.with(alloc, part)?;
        Ok(Dictionary {
            first,
            later,
            len,
            longest,
        })
    }
}
