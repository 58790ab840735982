//! Tables, and what their slots lead to.

ghost use Rattle.std.specs.Prelude.{◌≡◌, ◌≤◌, ◌<◌, ◌+◌, ◌^◌, length, IfSome, IfOk, option_map};
ghost use Rattle.scan_base.specs.Reading.{Gives};
ghost use Rattle.flatbuf.specs.Place.{root_of, vtable_of, field_of, scalar_of, table_of};
ghost use Rattle.flatbuf.specs.Place.{structs_of, text_of, vector_of};
ghost use Rattle.flatbuf.specs.Width.{bytes_in};

use crate::number::{items, number, target};
use crate::vector::Vector;
use crate::width::Width;
use scan_base::{Fault, read_text};
use std::marker::Model;

/// A FlatBuffers buffer.
pub struct Buf;

/// A table of a FlatBuffers buffer.
///
/// A slot is read when it is asked for: the offset of the table's vtable, the vtable's size, the
/// slot's own entry, and the value. So `Fault::BadFlatbuffer` means that one of these lies outside
/// the buffer, and no other part of the buffer is tested, nor is alignment or the table's size.
/// A slot is absent where its entry does not lie within the vtable's size, and where it is 0.
#[derive(Drop)]
pub struct Table<'a> {
    bytes: &'a [u8],
    at: usize,
}

// A contract sees the whole buffer, and where the table begins.
impl<'a> Model for Table<'a> {
    ghost use Rattle.std.specs.Prelude.{◌≤◌, ◌+◌, ◌^◌, length};
    ghost use Rattle.flatbuf.specs.Layout.{TableAt};

    ghost Value = { TableAt };

    ghost view = { λ t. record { bytes = t.bytes.now; at = t.at } };

    ghost invariant = { λ t. t.at ≤ length t.bytes.now + 2 ^ 32 };
}

impl Buf {
    /// The root table. The buffer begins with the table's offset, a number of four bytes.
    ///
    /// # Errors
    ///
    /// `Fault::BadFlatbuffer` if the buffer has less than four bytes.
    pub fn root(bytes: &[u8]) -> Result<Table<'_>, Fault>
        ensures { Gives (λ table. table) result (root_of bytes.now) }
    {
        let at = target(bytes, 0)?;
        Ok(Table { bytes, at })
    }
}

impl<'a> Table<'a> {
    pub(crate) fn new(bytes: &'a [u8], at: usize) -> Table<'a>
        requires { at ≤ length bytes.now + 2 ^ 32 }
        ensures { result ≡ record { bytes = bytes.now; at = at } }
    {
        Table { bytes, at }
    }

    // Where the table's vtable begins. The number at the table's place is a signed one of 32 bits.
    #[tactic(auto, unfolding(crate::specs::Place::vtable_of))]
    fn vtable(&self) -> Result<usize, Fault>
        ensures value { Gives (λ vtable. vtable) result (vtable_of self.now) }
        ensures begun { IfOk result (λ _. self.now.at ≤ length self.now.bytes) }
    {
        let back = number(self.bytes, self.at, 4)?;
        if back < 0x8000_0000 {
            if back > self.at as u64 {
                return Err(Fault::BadFlatbuffer);
            }
            return Ok(self.at - back as usize);
        }
        Ok(self.at + (0x1_0000_0000 - back) as usize)
    }

    /// Where the field of a slot lies, if it is there.
    ///
    /// # Errors
    ///
    /// `Fault::BadFlatbuffer` if something that is read lies outside the buffer. Of the field
    /// itself nothing is read.
    #[tactic(auto, unfolding(crate::specs::Place::field_of))]
    pub fn field(&self, slot: u16) -> Result<Option<usize>, Fault>
        ensures value { Gives (λ place. place) result (field_of self.now slot) }
        ensures near { IfOk result
            (λ place. IfSome place (λ at. at ≤ length self.now.bytes + 2 ^ 16)) }
    {
        let vtable = self.vtable()?;
        let size = number(self.bytes, vtable, 2)?;
        let entry_at = 2 * u64::from(slot) + 4;
        if size < entry_at + 2 {
            return Ok(None);
        }
        let entry = number(self.bytes, vtable + entry_at as usize, 2)?;
        if entry == 0 {
            return Ok(None);
        }
        Ok(Some(self.at + entry as usize))
    }

    /// The number of a slot, little-endian, or the default where the slot is absent. A signed
    /// number is given as its two's complement of this width.
    ///
    /// # Errors
    ///
    /// `Fault::BadFlatbuffer` if something that is read lies outside the buffer.
    #[tactic(auto, unfolding(crate::specs::Place::scalar_of))]
    pub fn scalar(&self, slot: u16, width: Width, default: u64) -> Result<u64, Fault>
        ensures value { Gives (λ n. n) result (scalar_of (bytes_in width) self.now slot default) }
        ensures fits { default < 256 ^ bytes_in width →
            IfOk result (λ n. n < 256 ^ bytes_in width) }
    {
        match self.field(slot)? {
            None => Ok(default),
            Some(at) => number(self.bytes, at, width.bytes()),
        }
    }

    /// The table that a slot leads to, or `None` where the slot is absent.
    ///
    /// # Errors
    ///
    /// `Fault::BadFlatbuffer` if something that is read lies outside the buffer. Of the table that
    /// the slot leads to nothing is read yet.
    #[tactic(auto, unfolding(crate::specs::Place::table_of))]
    pub fn table(&self, slot: u16) -> Result<Option<Table<'a>>, Fault>
        ensures { Gives (λ table. table) result (table_of self.now slot) }
    {
        match self.field(slot)? {
            None => Ok(None),
            Some(at) => Ok(Some(Table::new(self.bytes, target(self.bytes, at)?))),
        }
    }

    /// The vector of tables that a slot leads to, or `None` where the slot is absent.
    ///
    /// # Errors
    ///
    /// `Fault::BadFlatbuffer` if something that is read lies outside the buffer. Of the vector only
    /// its count is read yet.
    #[tactic(auto, unfolding(crate::specs::Place::vector_of))]
    pub fn vector(&self, slot: u16) -> Result<Option<Vector<'a>>, Fault>
        ensures { Gives (λ vector. vector) result (vector_of self.now slot) }
    {
        match self.field(slot)? {
            None => Ok(None),
            Some(at) => {
                let start = target(self.bytes, at)?;
                let count = number(self.bytes, start, 4)?;
                Ok(Some(Vector::new(self.bytes, start + 4, count as usize)))
            }
        }
    }

    /// The bytes of the vector of structs that a slot leads to, each struct of `width` bytes, one
    /// after the other; or `None` where the slot is absent.
    ///
    /// # Errors
    ///
    /// `Fault::BadFlatbuffer` if something that is read, or a struct, lies outside the buffer.
    #[tactic(auto, unfolding(crate::specs::Place::structs_of))]
    pub fn structs(&self, slot: u16, width: u16) -> Result<Option<&'a [u8]>, Fault>
        ensures { Gives (λ found. option_map (λ part. part.now) found) result
            (structs_of width self.now slot) }
    {
        match self.field(slot)? {
            None => Ok(None),
            Some(at) => {
                let part = items(self.bytes, target(self.bytes, at)?, usize::from(width))?;
                Ok(Some(part))
            }
        }
    }

    /// The text that a slot leads to, or `None` where the slot is absent. The zero that closes a
    /// text in a buffer is not read.
    ///
    /// # Errors
    ///
    /// `Fault::BadFlatbuffer` if something that is read, or a byte of the text, lies outside the
    /// buffer, or if the text is not UTF-8.
    #[tactic(auto, unfolding(crate::specs::Place::text_of))]
    pub fn text(&self, slot: u16) -> Result<Option<&'a str>, Fault>
        ensures { Gives (λ found. option_map (λ text. text.now) found) result
            (text_of self.now slot) }
    {
        match self.field(slot)? {
            None => Ok(None),
            Some(at) => {
                let part = items(self.bytes, target(self.bytes, at)?, 1)?;
                let text = read_text(part, Fault::BadFlatbuffer)?;
                Ok(Some(text))
            }
        }
    }
}
