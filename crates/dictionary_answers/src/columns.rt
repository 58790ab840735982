//! Coding columns slot by slot.

ghost use Rattle.std.specs.Prelude.{◌≡◌, ◌<◌, ◌+◌, ◌*◌, ◌^◌, ◌∷◌, [], All, IfErr, IfOk, OnOk};
ghost use Rattle.std.specs.Prelude.{length, nat_eq};
ghost use Rattle.indexmap.specs.IndexMap.{get};
ghost use Rattle.scan_base.specs.Value.{IsTextOrNull};
ghost use Rattle.arrays.specs.Column.{values_of};
ghost use Rattle.arrays.specs.Layout.{layout_slot};
ghost use Rattle.arrays.specs.Nulls.{null_count};
ghost use Rattle.arrays.specs.Number.{byte_width};
ghost use Rattle.arrays.specs.declared.layout.Layout.TheVariants as layout;
ghost use Rattle.dictionary_answers.specs.declared.coding.Stop.TheVariants.{OutOfRoom};
ghost use Rattle.dictionary_answers.specs.Firsts.{bytes_in, firsts, firsts_behind};
ghost use Rattle.dictionary_answers.specs.inside.CodedTexts.{AreCoded, coded_texts_at};
ghost use Rattle.dictionary_answers.specs.inside.Coding.{Finds, room_of};
ghost use Rattle.dictionary_answers.specs.inside.Blocks.{AreCodedTo, IsBlock};
ghost use Rattle.dictionary_answers.specs.inside.PackedPlaces.{numbers_in};
ghost use Rattle.dictionary_answers.specs.inside.Table.{AreMet, IsTable};

use crate::coding::{NO_PLACE, Stop};
use crate::distinct_texts::DistinctTexts;
use crate::indices::{Block, IndexColumn, valid_index};
use crate::packed_numbers::{put_number, zeros};
use arrays::{Cells, Code, Column, Indices, Layout};
use arrow_types::IntegerType;
use indexmap::IndexMap;
use scan_base::HashSeed;
use std::alloc::Global;

// For each slot of a column, its dictionary may have so many values for a table of them to be made:
// so what a table takes is bounded by the slots, however many values the dictionary has.
const VALUES_FOR_EACH_SLOT: usize = 16;

// How many slots are copied before it is asked whether the table had met all their indices.
const BLOCK_SLOTS: usize = 1_024;

/// The texts of a column, each once, and which of them each slot holds, as places of four bytes
/// each. No text is copied. Where slots are indices, one text is looked up for each index that is
/// met.
///
/// # Errors
///
/// - `Stop::OutOfRoom` where the texts have more than `room` bytes. It comes at the text with which
///   they have.
/// - `Stop::OutOfMemory` where memory is refused.
pub(crate) fn code_packed<'t>(
    alloc: Global,
    seed: HashSeed,
    column: &'t Column,
    room: usize,
) -> Result<(DistinctTexts<'t>, Vec<u8>), Stop>
    requires small { column.now.len < 2 ^ 31 }
    requires texts { All IsTextOrNull (values_of column.now) }
    ensures coded { IfOk result
        (λ made. AreCoded (values_of column.now) room
        (coded_texts_at made.0 (numbers_in made.1.items))) }
    ensures full { IfErr result
        (λ stop. stop ≡ OutOfRoom → room < bytes_in (firsts (values_of column.now))) }
{
    let mut found = DistinctTexts::new(alloc, seed, room);
    let mut packed = zeros(alloc, column.len())?;
    code_slots(alloc, seed, &mut found, column, &mut packed)?;
    Ok((found, packed))
}

// Codes each slot.
fn code_slots<'t>(
    alloc: Global,
    seed: HashSeed,
    found: &mut DistinctTexts<'t>,
    column: &'t Column,
    packed: &mut [u8],
) -> Result<(), Stop>
    requires small { column.now.len < 2 ^ 31 }
    requires texts { All IsTextOrNull (values_of column.now) }
    requires long { length packed.old ≡ 4 * column.now.len }
    requires none { AreCoded [] (found.old).left (coded_texts_at found.old []) }
    ensures coded { OnOk result (AreCoded (values_of column.now) (found.old).left
        (coded_texts_at found.new (numbers_in packed.new))) }
    ensures full { IfErr result
        (λ stop. stop ≡ OutOfRoom → (found.old).left < bytes_in (firsts (values_of column.now))) }
{
    match column.layout() {
        Layout::Indices(cells) => {
            let of = IndexColumn { column, cells };
            code_indices(alloc, seed, found, &of, packed)
        }
        _ => code_values(found, column, packed),
    }
}

// Codes each slot by its value.
fn code_values<'t>(
    found: &mut DistinctTexts<'t>,
    column: &'t Column,
    packed: &mut [u8],
) -> Result<(), Stop>
    requires small { column.now.len < 2 ^ 31 }
    requires texts { All IsTextOrNull (values_of column.now) }
    requires long { length packed.old ≡ 4 * column.now.len }
    requires none { AreCoded [] (found.old).left (coded_texts_at found.old []) }
    ensures coded { OnOk result (AreCoded (values_of column.now) (found.old).left
        (coded_texts_at found.new (numbers_in packed.new))) }
    ensures full { IfErr result
        (λ stop. stop ≡ OutOfRoom → (found.old).left < bytes_in (firsts (values_of column.now))) }
{
    for place in 0..column.len() {
        let number = found.place_of_value(column.value_at(place))?;
        put_number(packed, place, number);
    }
    Ok(())
}

// Codes each slot by its index: with a table of the dictionary's values, or with a map of the
// indices that are met, where the dictionary has too many.
fn code_indices<'t>(
    alloc: Global,
    seed: HashSeed,
    found: &mut DistinctTexts<'t>,
    of: &IndexColumn<'t>,
    packed: &mut [u8],
) -> Result<(), Stop>
    requires small { (of.now).column.now.len < 2 ^ 31 }
    requires cells { (of.now).column.now.layout ≡ layout.Indices (of.now).cells }
    requires long { length packed.old ≡ 4 * (of.now).column.now.len }
    requires none { AreCoded [] (found.old).left (coded_texts_at found.old []) }
    ensures coded { OnOk result (AreCoded (values_of (of.now).column.now) (found.old).left
        (coded_texts_at found.new (numbers_in packed.new))) }
    ensures full { IfErr result (λ stop. stop ≡ OutOfRoom →
        (found.old).left < bytes_in (firsts (values_of (of.now).column.now))) }
{
    if is_worth_a_table(&of.cells, of.column.len()) {
        let mut table = vec![in alloc; NO_PLACE; of.cells.dictionary().len()]?;
        code_near(found, &mut table, of, packed)
    } else {
        let mut met = IndexMap::with_hasher(alloc, seed);
        code_far(found, &mut met, of, packed)
    }
}

// Whether a dictionary has so few values that a table of them costs no more than the slots.
fn is_worth_a_table(cells: &Indices<'_>, slots: usize) -> bool {
    cells.dictionary().len() / VALUES_FOR_EACH_SLOT <= slots
}

// Codes each slot with a map of the indices that are met.
fn code_far<'t>(
    found: &mut DistinctTexts<'t>,
    met: &mut IndexMap<usize, u32, HashSeed>,
    of: &IndexColumn<'t>,
    packed: &mut [u8],
) -> Result<(), Stop>
    requires small { (of.now).column.now.len < 2 ^ 31 }
    requires cells { (of.now).column.now.layout ≡ layout.Indices (of.now).cells }
    requires long { length packed.old ≡ 4 * (of.now).column.now.len }
    requires none { AreCoded [] (found.old).left (coded_texts_at found.old []) }
    requires met { AreMet (of.now).cells.dictionary (found.old).texts (get nat_eq met.old) }
    ensures coded { OnOk result (AreCoded (values_of (of.now).column.now) (found.old).left
        (coded_texts_at found.new (numbers_in packed.new))) }
    ensures full { IfErr result (λ stop. stop ≡ OutOfRoom →
        (found.old).left < bytes_in (firsts (values_of (of.now).column.now))) }
{
    let (first, count) = (of.column.first(), of.column.len());
    for place in 0..count {
        let number = far_place(found, met, &of.cells, first + place)?;
        put_number(packed, place, number);
    }
    Ok(())
}

// The place of a slot.
fn far_place<'t>(
    found: &mut DistinctTexts<'t>,
    met: &mut IndexMap<usize, u32, HashSeed>,
    cells: &Indices<'t>,
    slot: usize,
) -> Result<u32, Stop>
    requires few { length (found.old).texts < 2 ^ 31 }
    requires met { AreMet (cells.now).dictionary (found.old).texts (get nat_eq met.old) }
    requires within { slot < (cells.now).len }
    ensures found { IfOk result
        (λ place. Finds found.old found.new place (layout_slot (layout.Indices cells.now) slot)) }
    ensures met { OnOk result
        (AreMet (cells.now).dictionary (found.new).texts (get nat_eq met.new)) }
    ensures full { IfErr result (λ stop. stop ≡ OutOfRoom →
        bytes_in (found.old).texts + (found.old).left < bytes_in (firsts_behind (found.old).texts
        (layout_slot (layout.Indices cells.now) slot ∷ []))) }
{
    match valid_index(cells, slot) {
        Some(index) => found.place_of_far_index(met, cells.dictionary(), index),
        None => Ok(NO_PLACE),
    }
}

// Codes each slot with a table, by the type of the indices.
fn code_near<'t>(
    found: &mut DistinctTexts<'t>,
    table: &mut [u32],
    of: &IndexColumn<'t>,
    packed: &mut [u8],
) -> Result<(), Stop>
    requires small { (of.now).column.now.len < 2 ^ 31 }
    requires cells { (of.now).column.now.layout ≡ layout.Indices (of.now).cells }
    requires long { length packed.old ≡ 4 * (of.now).column.now.len }
    requires none { AreCoded [] (found.old).left (coded_texts_at found.old []) }
    requires table { IsTable (of.now).cells.dictionary (found.old).texts table.old }
    ensures coded { OnOk result (AreCoded (values_of (of.now).column.now) (found.old).left
        (coded_texts_at found.new (numbers_in packed.new))) }
    ensures full { IfErr result (λ stop. stop ≡ OutOfRoom →
        (found.old).left < bytes_in (firsts (values_of (of.now).column.now))) }
{
    match of.cells.index_type() {
        IntegerType::Int8 | IntegerType::UInt8 => code_elements::<u8>(found, table, of, packed),
        IntegerType::Int16 | IntegerType::UInt16 => code_elements::<u16>(found, table, of, packed),
        IntegerType::Int32 | IntegerType::UInt32 => code_elements::<u32>(found, table, of, packed),
        IntegerType::Int64 | IntegerType::UInt64 => code_elements::<u64>(found, table, of, packed),
    }
}

// Codes each slot of indices of a type. Where no slot is null, validity bits are not looked at.
fn code_elements<'t, E: Code>(
    found: &mut DistinctTexts<'t>,
    table: &mut [u32],
    of: &IndexColumn<'t>,
    packed: &mut [u8],
) -> Result<(), Stop>
    requires small { (of.now).column.now.len < 2 ^ 31 }
    requires cells { (of.now).column.now.layout ≡ layout.Indices (of.now).cells }
    requires width { byte_width (of.now).cells.index ≡ E.WIDTH }
    requires long { length packed.old ≡ 4 * (of.now).column.now.len }
    requires none { AreCoded [] (found.old).left (coded_texts_at found.old []) }
    requires table { IsTable (of.now).cells.dictionary (found.old).texts table.old }
    ensures coded { OnOk result (AreCoded (values_of (of.now).column.now) (found.old).left
        (coded_texts_at found.new (numbers_in packed.new))) }
    ensures full { IfErr result (λ stop. stop ≡ OutOfRoom →
        (found.old).left < bytes_in (firsts (values_of (of.now).column.now))) }
{
    if of.column.null_count() == 0 {
        code_valid::<E>(found, table, of, packed)
    } else {
        code_some::<E>(found, table, of, packed)
    }
}

// Codes each slot, none of which is null, block by block. A block whose indices the table has all
// met is copied through it, in a loop that asks nothing of its slots one by one.
fn code_valid<'t, E: Code>(
    found: &mut DistinctTexts<'t>,
    table: &mut [u32],
    of: &IndexColumn<'t>,
    packed: &mut [u8],
) -> Result<(), Stop>
    requires small { (of.now).column.now.len < 2 ^ 31 }
    requires cells { (of.now).column.now.layout ≡ layout.Indices (of.now).cells }
    requires width { byte_width (of.now).cells.index ≡ E.WIDTH }
    requires valid { null_count (of.now).column.now ≡ 0 }
    requires long { length packed.old ≡ 4 * (of.now).column.now.len }
    requires none { AreCoded [] (found.old).left (coded_texts_at found.old []) }
    requires table { IsTable (of.now).cells.dictionary (found.old).texts table.old }
    ensures coded { OnOk result (AreCoded (values_of (of.now).column.now) (found.old).left
        (coded_texts_at found.new (numbers_in packed.new))) }
    ensures full { IfErr result (λ stop. stop ≡ OutOfRoom →
        (found.old).left < bytes_in (firsts (values_of (of.now).column.now))) }
{
    let count = of.column.len();
    let mut from = 0;
    while from < count {
        let to = count.min(from + BLOCK_SLOTS);
        let block = Block { of, from, to };
        if !found.copy_known::<E>(table, &block, packed) {
            code_block::<E>(found, table, &block, packed)?;
        }
        from = to;
    }
    Ok(())
}

// Codes the slots of a block, none of which is null, after those before it.
fn code_block<'t, E: Code>(
    found: &mut DistinctTexts<'t>,
    table: &mut [u32],
    block: &Block<'_, 't>,
    packed: &mut [u8],
) -> Result<(), Stop>
    requires small { (block.now).of.now.column.now.len < 2 ^ 31 }
    requires block { IsBlock E.WIDTH block.now }
    requires long { length packed.old ≡ 4 * (block.now).of.now.column.now.len }
    requires coded { AreCodedTo (block.now).of.now.column.now
        (block.now).from found.old packed.old }
    requires table { IsTable (block.now).of.now.cells.dictionary (found.old).texts table.old }
    ensures coded { OnOk result
        (AreCodedTo (block.now).of.now.column.now (block.now).to found.new packed.new) }
    ensures room { OnOk result (room_of found.new ≡ room_of found.old) }
    ensures table { OnOk result
        (IsTable (block.now).of.now.cells.dictionary (found.new).texts table.new) }
    ensures full { IfErr result (λ stop. stop ≡ OutOfRoom →
        room_of found.old < bytes_in (firsts (values_of (block.now).of.now.column.now))) }
{
    let of = block.of;
    let (first, _count, _slots) = (of.column.first(), of.column.len(), of.cells.len());
    let (values, dictionary) = (of.cells.values(), of.cells.dictionary());
    for place in block.from..block.to {
        let index = E::code(values, first + place) as usize;
        let number = found.place_of_index(table, dictionary, index)?;
        put_number(packed, place, number);
    }
    Ok(())
}

// Codes each slot, some of which are null.
fn code_some<'t, E: Code>(
    found: &mut DistinctTexts<'t>,
    table: &mut [u32],
    of: &IndexColumn<'t>,
    packed: &mut [u8],
) -> Result<(), Stop>
    requires small { (of.now).column.now.len < 2 ^ 31 }
    requires cells { (of.now).column.now.layout ≡ layout.Indices (of.now).cells }
    requires width { byte_width (of.now).cells.index ≡ E.WIDTH }
    requires long { length packed.old ≡ 4 * (of.now).column.now.len }
    requires none { AreCoded [] (found.old).left (coded_texts_at found.old []) }
    requires table { IsTable (of.now).cells.dictionary (found.old).texts table.old }
    ensures coded { OnOk result (AreCoded (values_of (of.now).column.now) (found.old).left
        (coded_texts_at found.new (numbers_in packed.new))) }
    ensures full { IfErr result (λ stop. stop ≡ OutOfRoom →
        (found.old).left < bytes_in (firsts (values_of (of.now).column.now))) }
{
    let (first, count) = (of.column.first(), of.column.len());
    for place in 0..count {
        let number = near_place::<E>(found, table, &of.cells, first + place)?;
        put_number(packed, place, number);
    }
    Ok(())
}

// The place of a slot.
fn near_place<'t, E: Code>(
    found: &mut DistinctTexts<'t>,
    table: &mut [u32],
    cells: &Indices<'t>,
    slot: usize,
) -> Result<u32, Stop>
    requires few { length (found.old).texts < 2 ^ 31 }
    requires width { byte_width (cells.now).index ≡ E.WIDTH }
    requires table { IsTable (cells.now).dictionary (found.old).texts table.old }
    requires within { slot < (cells.now).len }
    ensures found { IfOk result
        (λ place. Finds found.old found.new place (layout_slot (layout.Indices cells.now) slot)) }
    ensures table { OnOk result (IsTable (cells.now).dictionary (found.new).texts table.new) }
    ensures full { IfErr result (λ stop. stop ≡ OutOfRoom →
        bytes_in (found.old).texts + (found.old).left < bytes_in (firsts_behind (found.old).texts
        (layout_slot (layout.Indices cells.now) slot ∷ []))) }
{
    let _slots = cells.len();
    if !cells.validity().is_valid(slot) {
        return Ok(NO_PLACE);
    }
    let index = E::code(cells.values(), slot) as usize;
    found.place_of_index(table, cells.dictionary(), index)
}
