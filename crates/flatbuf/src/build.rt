//! Writing a buffer of the FlatBuffers binary format, from the front and with no state.
//!
//! A [`Block`] is a table, a vector or a text with everything that it leads to. Offsets count from
//! their own place, so a block means the same wherever it stands, and nothing is patched. Of the
//! layouts that the format allows, this is the one: a vtable stands right before its table and is
//! shared with no other, each slot has a field of 8 bytes, and the blocks that fields lead to stand
//! after the table. Each block has a multiple of 8 bytes, so that what it leads to is aligned.

ghost use Rattle.std.specs.Prelude.{◌≡◌, ◌≤◌, ◌<◌, ◌+◌, ◌-◌, ◌*◌, ◌%◌, ◌^◌, ◌++◌, [], ◌∷◌};
ghost use Rattle.std.specs.Prelude.{length, map, OnOk, IfOk, Ok};
ghost use Rattle.flatbuf.specs.Block.{Offset, little, numbers, padding, padded, entries, fields};
ghost use Rattle.flatbuf.specs.Block.{children, table_part, items_part, text_part, structs_part};
ghost use Rattle.flatbuf.specs.Block.{tables_part, tables_from, buffer_of};
ghost use Rattle.flatbuf.specs.GivenSlots.{given_of};
ghost use Rattle.flatbuf.specs.Fits.{FitsTable, FitsTables, FitsStructs};

use std::alloc::{AllocError, Global};
use std::marker::Model;

/// A table, a vector or a text with everything that it leads to: its bytes, a multiple of 8, and
/// where in them it begins.
#[derive(Drop)]
pub struct Block {
    bytes: Vec<u8>,
    root: usize,
}

impl Model for Block {
    ghost use Rattle.flatbuf.specs.Block.{Part, IsWhole};

    ghost Value = { Part };

    ghost view = { λ b. record { bytes = b.bytes.items; root = b.root } };

    ghost invariant = { λ b. IsWhole (record { bytes = b.bytes.items; root = b.root }) };
}

/// What a slot of a table is given.
#[derive(Drop)]
pub enum Slot<'a> {
    /// Nothing: a reader takes the slot's default.
    Absent,
    /// A scalar, which reads back in each width of up to 8 bytes that holds it. A negative number
    /// is given as its two's complement in the width of its slot.
    Number(u64),
    /// An offset to a table, a vector or a text, whose bytes are copied after the table.
    Offset(&'a Block),
}

// Writes a number of so many bytes.
#[tactic(auto, using(crate::proofs::Standing::take_little))]
fn put(out: &mut Vec<u8>, number: u64, width: usize) -> Result<(), AllocError>
    requires { width ≤ 8 }
    ensures { OnOk result (out.new.items ≡ out.old.items ++ little width number) }
{
    out.extend_from_slice(&number.to_le_bytes()[..width])
}

// How many zeros stand after so many bytes.
fn padding_len(written: usize) -> usize
    ensures { result ≡ (8 - written % 8) % 8 }
{
    (8 - written % 8) % 8
}

// Writes zeros up to a multiple of 8 after so many bytes.
#[tactic(auto, unfolding(crate::specs::Block::padding))]
fn pad(out: &mut Vec<u8>, written: usize) -> Result<(), AllocError>
    ensures { OnOk result (out.new.items ≡ out.old.items ++ padding written) }
{
    out.extend_from_slice(&[0; 8][..padding_len(written)])
}

// Writes the entries of a vtable.
fn put_entries(out: &mut Vec<u8>, slots: &[Slot<'_>]) -> Result<(), AllocError>
    requires { 8 + 8 * length slots.now < 2 ^ 16 }
    ensures { OnOk result (out.new.items
        ≡ out.old.items ++ numbers 2 (entries 8 (map given_of slots.now))) }
{
    let mut place = 8;
    for slot in slots {
        let entry = match slot {
            Slot::Absent => 0,
            Slot::Number(_) | Slot::Offset(_) => place,
        };
        put(out, entry, 2)?;
        place += 8;
    }
    Ok(())
}

// Writes the fields of a table, the first at `first`. The blocks that they lead to will stand from
// `behind` on.
fn put_fields(
    out: &mut Vec<u8>,
    slots: &[Slot<'_>],
    first: usize,
    behind: usize,
) -> Result<(), AllocError>
    requires room { first + 8 * length slots.now ≤ behind }
    requires small { behind + length (children (map given_of slots.now)) < 2 ^ 32 }
    ensures { OnOk result (out.new.items
        ≡ out.old.items ++ numbers 8 (fields 8 first behind (map given_of slots.now))) }
{
    let mut place = first;
    let mut next = behind;
    for slot in slots {
        match slot {
            Slot::Absent => put(out, 0, 8)?,
            Slot::Number(number) => put(out, *number, 8)?,
            Slot::Offset(block) => {
                put(out, (next + block.root - place) as u64, 8)?;
                next += block.bytes.len();
            }
        }
        place += 8;
    }
    Ok(())
}

// Writes the blocks that the fields of a table lead to.
fn put_children(out: &mut Vec<u8>, slots: &[Slot<'_>]) -> Result<(), AllocError>
    ensures items { OnOk result (out.new.items
        ≡ out.old.items ++ children (map given_of slots.now)) }
    ensures whole { OnOk result (length out.old.items % 8 ≡ 0 → length out.new.items % 8 ≡ 0) }
{
    for slot in slots {
        if let Slot::Offset(block) = slot {
            out.extend_from_slice(block.bytes.as_slice())?;
        }
    }
    Ok(())
}

// Writes the offsets of a vector of tables, which will stand from `behind` on.
fn put_offsets(out: &mut Vec<u8>, tables: &[Block], behind: usize) -> Result<(), AllocError>
    requires room { 8 + 4 * length tables.now ≤ behind }
    requires small { behind + length (children (map Offset tables.now)) < 2 ^ 32 }
    ensures { OnOk result (out.new.items
        ≡ out.old.items ++ numbers 4 (fields 4 8 behind (map Offset tables.now))) }
{
    let mut place = 8;
    let mut next = behind;
    for table in tables {
        put(out, (next + table.root - place) as u64, 4)?;
        next += table.bytes.len();
        place += 4;
    }
    Ok(())
}

// Writes the tables of a vector.
fn put_tables(out: &mut Vec<u8>, tables: &[Block]) -> Result<(), AllocError>
    ensures items { OnOk result (out.new.items
        ≡ out.old.items ++ children (map Offset tables.now)) }
    ensures whole { OnOk result (length out.old.items % 8 ≡ 0 → length out.new.items % 8 ≡ 0) }
{
    for table in tables {
        out.extend_from_slice(table.bytes.as_slice())?;
    }
    Ok(())
}

/// Writes blocks, and a buffer of them, into memory of its allocator. Each call fails with
/// [`AllocError`] where that has none left, and with no other error.
#[derive(Clone, Copy)]
pub struct Builder {
    pub alloc: Global,
}

impl Builder {
    /// A builder that takes memory from this allocator.
    pub fn new(alloc: Global) -> Builder
        ensures { result.alloc ≡ alloc }
    {
        Builder { alloc }
    }

    /// A table of these slots, slot 0 first.
    #[tactic(auto, unfolding(crate::specs::Block::table_part, crate::specs::Block::vtable))]
    pub fn table(&self, slots: &[Slot<'_>]) -> Result<Block, AllocError>
        requires { FitsTable (map given_of slots.now) }
        ensures { IfOk result (λ block. block ≡ table_part (map given_of slots.now)) }
    {
        let count = slots.len();
        let mut bytes = Vec::new(self.alloc);
        put(&mut bytes, 4 + 2 * count as u64, 2)?;
        put(&mut bytes, 8 + 8 * count as u64, 2)?;
        put_entries(&mut bytes, slots)?;
        let written = bytes.len();
        pad(&mut bytes, written)?;
        let root = bytes.len();
        put(&mut bytes, root as u64, 8)?;
        put_fields(&mut bytes, slots, root + 8, root + 8 + 8 * count)?;
        put_children(&mut bytes, slots)?;
        Ok(Block { bytes, root })
    }

    // A count, items, and what closes them.
    #[tactic(auto, unfolding(crate::specs::Block::items_part))]
    fn items(&self, count: u32, items: &[u8], end: &[u8]) -> Result<Block, AllocError>
        requires { length items.now + length end.now < 2 ^ 62 }
        ensures { IfOk result (λ block. block ≡ items_part count (items.now ++ end.now)) }
    {
        let mut bytes = Vec::new(self.alloc);
        put(&mut bytes, 0, 4)?;
        put(&mut bytes, u64::from(count), 4)?;
        bytes.extend_from_slice(items)?;
        bytes.extend_from_slice(end)?;
        let written = bytes.len();
        pad(&mut bytes, written)?;
        Ok(Block { bytes, root: 4 })
    }

    /// A text: how many bytes it has, its UTF-8 bytes, and a zero.
    pub fn text(&self, text: &str) -> Result<Block, AllocError>
        requires { length text.now < 2 ^ 32 }
        ensures { IfOk result (λ block. block ≡ text_part text.now) }
    {
        self.items(text.len() as u32, text.as_bytes(), &[0])
    }

    /// A vector of structs of `width` bytes each, which `structs` has one after the other. The
    /// first is aligned to 8 bytes.
    pub fn structs(&self, width: usize, structs: &[u8]) -> Result<Block, AllocError>
        requires { FitsStructs width structs.now }
        ensures { IfOk result (λ block. block ≡ structs_part width structs.now) }
    {
        self.items((structs.len() / width) as u32, structs, &[])
    }

    /// A vector of tables, in this order.
    #[tactic(auto, using(crate::proofs::Standing::tables_from_is), unfolding(crate::specs::Block::tables_part))]
    pub fn tables(&self, tables: &[Block]) -> Result<Block, AllocError>
        requires { FitsTables tables.now }
        ensures { IfOk result (λ block. block ≡ tables_part tables.now) }
    {
        let count = tables.len();
        let mut bytes = Vec::new(self.alloc);
        put(&mut bytes, 0, 4)?;
        put(&mut bytes, count as u64, 4)?;
        let written = 8 + 4 * count;
        put_offsets(&mut bytes, tables, written + padding_len(written))?;
        pad(&mut bytes, written)?;
        put_tables(&mut bytes, tables)?;
        Ok(Block { bytes, root: 4 })
    }

    /// The whole buffer of a table: the table's offset in 4 bytes, 4 zeros, and the table.
    #[tactic(auto, unfolding(crate::specs::Block::buffer_of))]
    pub fn finish(&self, table: &Block) -> Result<Vec<u8>, AllocError>
        requires { 8 + length (table.now).bytes < 2 ^ 31 }
        ensures items { IfOk result (λ bytes. bytes.items ≡ buffer_of table.now) }
        ensures whole { IfOk result (λ bytes. length bytes.items % 8 ≡ 0) }
    {
        let mut bytes = Vec::new(self.alloc);
        put(&mut bytes, 8 + table.root as u64, 8)?;
        bytes.extend_from_slice(table.bytes.as_slice())?;
        Ok(bytes)
    }
}
