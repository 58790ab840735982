//! What tells the keys of one column apart.

ghost use Rattle.std.specs.Prelude.{◌≡◌, ◌≢◌, ◌≤◌, ◌<◌, ◌+◌, ◌*◌, ◌^◌, ◌%◌, ℕ, length, slice_range};
ghost use Rattle.std.specs.Prelude.{if◌then◌else◌};
ghost use Rattle.byteorder.specs.Endian.{little_from};
ghost use Rattle.scan_base.specs.declared.value.Value.{Value as Cell};
ghost use Rattle.scan_base.specs.declared.value.Value.TheVariants.{Text as TextOf};
ghost use Rattle.arrays.specs.declared.layout.Layout.TheVariants.{Texts as TextsLayout};
ghost use Rattle.group_slots.specs.TaggedValues.{value_tagged};
ghost use Rattle.group_slots.specs.Slots.{HaveRoom, number_tag};

use crate::slots::{Entries, IntegerSlots, Number};
use arrays::{Cells, Column, TextsRef};
use byteorder::{ByteOrder, LittleEndian};
use std::marker::PhantomData;

/// The kind of a tag that says nothing of its key.
pub const NOTHING: u32 = 0;
// The kind of NULL's tag.
const NULL: u32 = 1;
// The kind of a number's tag.
const NUMBER: u32 = 2;
// The kind of an empty text's tag; that of a longer text is greater by its length.
const TEXT: u32 = 3;

/// What tells the value of a key of one column from all others, where its kind is not `NOTHING`.
#[derive(Clone, Copy, Drop)]
pub struct Tag {
    pub key: u64,
    pub kind: u32,
}

/// Tags for the values of a column.
pub trait Tags {
    ghost count: { Self → ℕ };

    ghost value: { Self → ℕ → Cell };

    ghost meaning: { Self → ℕ → ℕ → Cell };

    /// The tag of the value in a row.
    fn tag(&self, row: usize) -> Tag
        requires { row < count self.now }
        ensures { result.kind ≢ 0 → meaning self.now result.kind result.key ≡ value self.now row };
}

/// Tags of so many packed numbers of a type.
#[derive(Drop)]
pub struct NumberTags<'a, N: Number> {
    pub slots: IntegerSlots<'a>,
    pub rows: usize,
    pub of: PhantomData<N>,
    ghost kind: { slots.kind ≡ N.kind },
    ghost room: { HaveRoom slots rows },
}

impl<'a, N: Number> Tags for NumberTags<'a, N> {
    ghost use Rattle.group_slots.specs.TaggedValues.{value_tagged};
    ghost use Rattle.group_slots.specs.Slots.{slot_cell};

    ghost count = { λ t. t.rows };

    ghost value = { λ t row. slot_cell t.slots row };

    ghost meaning = { λ t. value_tagged };

    #[tactic(auto, using(crate::proofs::Tagging::number_tagged))]
    fn tag(&self, row: usize) -> Tag {
        number_tag(self.slots.is_valid(row), self.slots.number::<N>(row))
    }
}

/// Tags of so many packed indices of a type into a dictionary.
#[derive(Drop)]
pub struct IndexTags<'a, N: Number> {
    pub entries: Entries<'a>,
    pub rows: usize,
    pub of: PhantomData<N>,
    ghost kind: { entries.slots.kind ≡ N.kind },
    ghost room: { HaveRoom entries.slots rows },
}

impl<'a, N: Number> Tags for IndexTags<'a, N> {
    ghost use Rattle.group_slots.specs.TaggedValues.{entry_tagged};
    ghost use Rattle.group_slots.specs.Slots.{entry_cell};

    ghost count = { λ t. t.rows };

    ghost value = { λ t row. entry_cell t.entries row };

    ghost meaning = { λ t. entry_tagged t.entries.dictionary.now };

    #[tactic(auto, using(crate::proofs::Tagging::entry_back))]
    fn tag(&self, row: usize) -> Tag {
        let slots = &self.entries.slots;
        number_tag(slots.is_valid(row), slots.number::<N>(row))
    }
}

// The tag of a number, where it is valid.
fn number_tag(valid: bool, number: i64) -> Tag
    ensures { result ≡ number_tag valid number }
{
    if valid {
        Tag {
            key: number.cast_unsigned(),
            kind: NUMBER,
        }
    } else {
        Tag { key: 0, kind: NULL }
    }
}

/// Tags of the texts of so many rows, the first of which stands at a place.
#[derive(Drop)]
pub struct TextTags<'a> {
    pub texts: TextsRef<'a>,
    pub first: usize,
    pub rows: usize,
    ghost within: { first + rows ≤ texts.len },
    ghost small: { first + rows < 2 ^ 64 },
}

impl<'a> Tags for TextTags<'a> {
    ghost use Rattle.arrays.specs.Texts.{texts_slot};
    ghost use Rattle.group_slots.specs.TaggedValues.{value_tagged};

    ghost count = { λ t. t.rows };

    ghost value = { λ t row. texts_slot t.texts (t.first + row) };

    ghost meaning = { λ t. value_tagged };

    fn tag(&self, row: usize) -> Tag {
        let place = self.first + row;
        let _count = self.texts.len();
        if !self.texts.validity().is_valid(place) {
            return Tag { key: 0, kind: NULL };
        }
        let (begin, end) = self.texts.bounds(place, place + 1);
        text_tag(self.texts.bytes(), begin, end)
    }
}

/// The tags of a column of texts.
pub fn text_tags<'a>(column: &'a Column, texts: TextsRef<'a>) -> TextTags<'a>
    requires { column.now.layout ≡ TextsLayout texts }
    ensures texts { result.texts ≡ texts.entry }
    ensures first { result.first ≡ column.now.first }
    ensures rows { result.rows ≡ column.now.len }
{
    let rows = column.len();
    TextTags {
        texts,
        first: column.first(),
        rows,
    }
}

// The tag of a text: of a long one nothing is known.
fn text_tag(bytes: &[u8], begin: usize, end: usize) -> Tag
    requires ordered { begin ≤ end }
    requires within { end ≤ length bytes.now }
    ensures { result.kind ≢ 0 →
        value_tagged result.kind result.key ≡ TextOf (slice_range bytes.now begin end) }
{
    let len = end - begin;
    if len > 8 {
        return Tag {
            key: 0,
            kind: NOTHING,
        };
    }
    Tag {
        key: short_text(bytes, begin, len),
        kind: TEXT + len as u32,
    }
}

// Some of the bytes as a number, the first of them the lowest.
fn short_text(bytes: &[u8], begin: usize, len: usize) -> u64
    requires within { begin + len ≤ length bytes.now }
    requires short { len ≤ 8 }
    ensures { result ≡ little_from begin len bytes.now }
{
    if begin + 8 <= bytes.len() {
        return lowest(LittleEndian::read_u64(&bytes[begin..begin + 8]), len);
    }
    last_text(bytes, begin, len)
}

// The same where fewer than eight bytes follow.
#[inline(never)]
fn last_text(bytes: &[u8], begin: usize, len: usize) -> u64
    requires within { begin + len ≤ length bytes.now }
    requires short { len ≤ 8 }
    ensures { result ≡ little_from begin len bytes.now }
{
    let mut number = 0u64;
    for taken in 0..len {
        number = 256 * number + bytes[begin + (len - 1 - taken)] as u64;
    }
    number
}

// The lowest bytes of a number.
fn lowest(word: u64, len: usize) -> u64
    requires { len ≤ 8 }
    ensures { result ≡ word % 2 ^ (8 * len) }
{
    if len == 8 {
        return word;
    }
    word & ((1 << (8 * len)) - 1)
}
