//! Bits that are put one after another.

ghost use Rattle.std.specs.Prelude.{◌≡◌, ◌++◌, ◌∷◌, [], length, IfOk, OnOk, OnErr};

use crate::bits::Bits;
use bytes::Bytes;
use std::alloc::{AllocError, Global};
use std::marker::Model;

/// Bits that are put one after another, packed as they come. A contract sees the list of truth
/// values.
#[derive(Drop)]
pub struct BitsBuilder {
    bytes: Vec<u8>,
    len: usize,
}

impl Model for BitsBuilder {
    ghost use Rattle.std.specs.Prelude.{List, Bool};
    ghost use Rattle.bitmap.specs.Bits.{bits_of};
    ghost use Rattle.bitmap.specs.inside.Packing.{ArePacked};

    ghost Value = { List Bool };

    ghost view = { λ b. bits_of b.bytes.items 0 b.len };

    ghost invariant = { λ b. ArePacked b.bytes.items b.len };
}

impl BitsBuilder {
    /// No bits, with room made at once for so many.
    ///
    /// # Errors
    ///
    /// `AllocError` where memory is refused.
    pub fn with_capacity(alloc: Global, bits: usize) -> Result<BitsBuilder, AllocError>
        ensures { IfOk result (λ builder. builder ≡ []) }
    {
        Ok(BitsBuilder {
            bytes: Vec::with_capacity(alloc, bits.div_ceil(8))?,
            len: 0,
        })
    }

    /// How many bits there are.
    pub fn len(&self) -> usize
        ensures { result ≡ length self.now }
    {
        self.len
    }

    /// Puts a bit after the others, which stay as they are where that fails.
    ///
    /// # Errors
    ///
    /// `AllocError` where memory is refused.
    pub fn push(&mut self, bit: bool) -> Result<(), AllocError>
        ensures ok { OnOk result (self.new ≡ self.old ++ bit ∷ []) }
        ensures err { OnErr result (self.new ≡ self.old) }
    {
        let Some(len) = self.len.checked_add(1) else {
            return Err(AllocError);
        };
        let shift = self.len % 8;
        if shift == 0 {
            self.bytes.push(bit as u8)?;
            self.len = len;
            return Ok(());
        }
        self.bytes[self.len / 8] += (bit as u8) << shift;
        self.len = len;
        Ok(())
    }

    /// The bits.
    ///
    /// # Errors
    ///
    /// `AllocError` where memory is refused.
    pub fn into_bits(self) -> Result<Bits, AllocError>
        ensures value { IfOk result (λ bits. bits ≡ self) }
        ensures long { IfOk result (λ bits. length bits ≡ length self) }
    {
        Ok(Bits::new(Bytes::from_vec(self.bytes)?, 0, self.len))
    }
}
