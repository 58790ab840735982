//! The texts of a column, each once, as they are found.

ghost use Rattle.std.specs.Prelude.{◌≡◌, ◌<◌, ◌+◌, ◌*◌, ◌^◌, ◌∷◌, [], Some, IfErr, IfOk, IsTrue};
ghost use Rattle.std.specs.Prelude.{OnOk, get_or, length, map, nat_eq, slice_get, slice_index};
ghost use Rattle.indexmap.specs.IndexMap.{get};
ghost use Rattle.scan_base.specs.declared.value.Value.TheVariants.{Null};
ghost use Rattle.scan_base.specs.Value.{value_of, IsTextOrNull};
ghost use Rattle.dictionary_answers.specs.declared.coding.Stop.TheVariants.{OutOfRoom};
ghost use Rattle.dictionary_answers.specs.Firsts.{bytes_in, firsts_behind, with_text};
ghost use Rattle.dictionary_answers.specs.inside.Blocks.{AreCodedTo, IsBlock};
ghost use Rattle.dictionary_answers.specs.inside.Coding.{Finds};
ghost use Rattle.dictionary_answers.specs.inside.Table.{AreMet, IsTable};

use crate::coding::{NO_PLACE, Stop};
use crate::indices::Block;
use crate::packed_numbers::put_number;
use arrays::{Cells, Code, Dictionary};
use indexmap::{IndexMap, IndexSet};
use scan_base::{HashSeed, ValueRef};
use std::alloc::Global;
use std::marker::Model;

/// Texts, each once, by first appearance, and how many bytes more they may have.
#[derive(Drop)]
pub(crate) struct DistinctTexts<'t> {
    texts: IndexSet<&'t str, HashSeed>,
    left: usize,
}

impl<'t> Model for DistinctTexts<'t> {
    ghost use Rattle.std.specs.Prelude.{map};
    ghost use Rattle.dictionary_answers.specs.inside.CodedTexts.{DistinctTextsAt};

    ghost Value = { DistinctTextsAt };

    ghost view = { λ f. record { texts = map (λ text. text.now) f.texts.keys; left = f.left } };
}

impl<'t> DistinctTexts<'t> {
    /// No texts yet.
    pub(crate) fn new(alloc: Global, seed: HashSeed, room: usize) -> DistinctTexts<'t>
        ensures { result ≡ record { texts = []; left = room } }
    {
        DistinctTexts {
            texts: IndexSet::with_hasher(alloc, seed),
            left: room,
        }
    }

    // Where a text stands among the texts: after them, where it is new.
    fn place_of(&mut self, text: &'t str) -> Result<u32, Stop>
        requires few { length (self.old).texts < 2 ^ 31 }
        ensures texts { OnOk result ((self.new).texts ≡ with_text (self.old).texts text.now) }
        ensures there { IfOk result (λ place. slice_get (self.new).texts place ≡ Some text.now) }
        ensures room { OnOk result (bytes_in (self.new).texts + (self.new).left
            ≡ bytes_in (self.old).texts + (self.old).left) }
        ensures full { IfErr result (λ stop. stop ≡ OutOfRoom →
            bytes_in (self.old).texts + (self.old).left
            < bytes_in (with_text (self.old).texts text.now)) }
    {
        let Ok((place, added)) = self.texts.insert_full(text) else {
            return Err(Stop::OutOfMemory);
        };
        if added {
            if self.left < text.len() {
                return Err(Stop::OutOfRoom);
            }
            self.left -= text.len();
        }
        Ok(place as u32)
    }

    /// The place of a value: `NO_PLACE` of a null.
    #[tactic(auto, using(crate::proofs::Adding::finds_text, crate::proofs::Adding::finds_null))]
    pub(crate) fn place_of_value(&mut self, value: ValueRef<'t>) -> Result<u32, Stop>
        requires few { length (self.old).texts < 2 ^ 31 }
        requires text { IsTextOrNull (value_of value) }
        ensures found { IfOk result
            (λ place. Finds self.old self.new place (value_of value.entry)) }
        ensures full { IfErr result (λ stop. stop ≡ OutOfRoom →
            bytes_in (self.old).texts + (self.old).left
            < bytes_in (firsts_behind (self.old).texts (value_of value.entry ∷ []))) }
    {
        match value {
            ValueRef::Text(text) => self.place_of(text),
            _ => Ok(NO_PLACE),
        }
    }

    // The place of the value of an index that the table has not met, which it keeps.
    fn meet(
        &mut self,
        table: &mut [u32],
        dictionary: &'t Dictionary,
        index: usize,
    ) -> Result<u32, Stop>
        requires few { length (self.old).texts < 2 ^ 31 }
        requires table { IsTable dictionary.now (self.old).texts table.old }
        requires within { index < length dictionary.now }
        ensures found { IfOk result
            (λ place. Finds self.old self.new place (get_or dictionary.now index Null)) }
        ensures table { OnOk result (IsTable dictionary.now (self.new).texts table.new) }
        ensures full { IfErr result (λ stop. stop ≡ OutOfRoom →
            bytes_in (self.old).texts + (self.old).left
            < bytes_in (firsts_behind (self.old).texts (get_or dictionary.now index Null ∷ []))) }
    {
        let place = self.place_of_value(entry(dictionary, index))?;
        table[index] = place;
        Ok(place)
    }

    /// The place of the value of an index. It is one load where the table has met the index.
    pub(crate) fn place_of_index(
        &mut self,
        table: &mut [u32],
        dictionary: &'t Dictionary,
        index: usize,
    ) -> Result<u32, Stop>
        requires few { length (self.old).texts < 2 ^ 31 }
        requires table { IsTable dictionary.now (self.old).texts table.old }
        requires within { index < length dictionary.now }
        ensures found { IfOk result
            (λ place. Finds self.old self.new place (get_or dictionary.now index Null)) }
        ensures table { OnOk result (IsTable dictionary.now (self.new).texts table.new) }
        ensures full { IfErr result (λ stop. stop ≡ OutOfRoom →
            bytes_in (self.old).texts + (self.old).left
            < bytes_in (firsts_behind (self.old).texts (get_or dictionary.now index Null ∷ []))) }
    {
        let known = table[index];
        if known != NO_PLACE {
            return Ok(known);
        }
        self.meet(table, dictionary, index)
    }

    /// Puts the places of a block's indices, none of which is null, as the table has them, and
    /// gives whether it had met all. Only then they are these indices' places among the texts.
    pub(crate) fn copy_known<E: Code>(
        &self,
        table: &[u32],
        block: &Block<'_, 't>,
        packed: &mut [u8],
    ) -> bool
        requires block { IsBlock E.WIDTH block.now }
        requires long { length packed.old ≡ 4 * (block.now).of.now.column.now.len }
        requires coded { AreCodedTo (block.now).of.now.column.now
            (block.now).from self.now packed.old }
        requires table { IsTable (block.now).of.now.cells.dictionary (self.now).texts table.now }
        ensures before { AreCodedTo (block.now).of.now.column.now
            (block.now).from self.now packed.new }
        ensures known { IsTrue result →
            AreCodedTo (block.now).of.now.column.now (block.now).to self.now packed.new }
    {
        let of = block.of;
        let (first, _count, _slots) = (of.column.first(), of.column.len(), of.cells.len());
        let values = of.cells.values();
        let mut are_known = true;
        for place in block.from..block.to {
            let number = table_entry(table, E::code(values, first + place) as usize);
            put_number(packed, place, number);
            are_known &= number != NO_PLACE;
        }
        are_known
    }

    /// The place of the value of an index, with a map in the stead of a table: it holds only
    /// indices that were met, and forgets none.
    pub(crate) fn place_of_far_index(
        &mut self,
        met: &mut IndexMap<usize, u32, HashSeed>,
        dictionary: &'t Dictionary,
        index: usize,
    ) -> Result<u32, Stop>
        requires few { length (self.old).texts < 2 ^ 31 }
        requires met { AreMet dictionary.now (self.old).texts (get nat_eq met.old) }
        requires within { index < length dictionary.now }
        ensures found { IfOk result
            (λ place. Finds self.old self.new place (get_or dictionary.now index Null)) }
        ensures met { OnOk result (AreMet dictionary.now (self.new).texts (get nat_eq met.new)) }
        ensures full { IfErr result (λ stop. stop ≡ OutOfRoom →
            bytes_in (self.old).texts + (self.old).left
            < bytes_in (firsts_behind (self.old).texts (get_or dictionary.now index Null ∷ []))) }
    {
        if let Some(place) = met.get(&index) {
            return Ok(*place);
        }
        let place = self.place_of_value(entry(dictionary, index))?;
        met.insert(index, place)?;
        Ok(place)
    }

    /// The texts, in their order.
    pub(crate) fn texts(&self) -> &[&'t str]
        ensures { map (λ text. text.now) result.now ≡ (self.now).texts }
    {
        self.texts.as_slice()
    }

    /// How many bytes more they may have.
    pub(crate) fn left(&self) -> usize
        ensures { result ≡ (self.now).left }
    {
        self.left
    }
}

// What a table has for an index.
fn table_entry(table: &[u32], index: usize) -> u32
    requires { index < length table.now }
    ensures { result ≡ slice_index table.now index }
{
    table[index]
}

// The value of an index of a dictionary.
fn entry<'t>(dictionary: &'t Dictionary, index: usize) -> ValueRef<'t>
    requires { index < length dictionary.now }
    ensures value { get_or dictionary.now index Null ≡ value_of result }
    ensures text { IsTextOrNull (value_of result) }
{
    let _count = dictionary.len();
    match dictionary.get(index) {
        Some(value) => value,
        None => ValueRef::Null,
    }
}
