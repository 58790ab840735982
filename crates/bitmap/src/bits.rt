//! Bits of a shared buffer.

ghost use Rattle.std.specs.Prelude.{◌≡◌, ◌==◌, ◌≤◌, ◌<◌, ◌+◌, ◌-◌, ◌&&◌, ◌||◌, not, length};
ghost use Rattle.std.specs.Prelude.{count_by, IfOk, false, ℕ, get_or, map, take, drop};
ghost use Rattle.std.specs.Simd.Lanes.{mask_l, zip2};
ghost use Rattle.bitmap.specs.Bits.{bits_of, IsRoomy};
ghost use Rattle.bitmap.specs.inside.JoinedBits.{joined};

use crate::words::{Operation, bit, count_bits, gather_bits, join_bits, short_word, word};
use bytes::{Bytes, BytesMut};
use std::alloc::{AllocError, Global};
use std::marker::Model;

/// Packed bits of a buffer, from any bit of it on, the least significant bit of each byte first.
/// The buffer is shared, and its other bits are never read as bits of this list. A contract sees
/// the list of truth values, `true` for a bit that is 1.
#[derive(Drop)]
pub struct Bits {
    bytes: Bytes,
    first: usize,
    len: usize,
}

impl Model for Bits {
    ghost use Rattle.std.specs.Prelude.{List, Bool};
    ghost use Rattle.bitmap.specs.Bits.{bits_of, IsRoomy};

    ghost Value = { List Bool };

    ghost view = { λ b. bits_of b.bytes b.first b.len };

    ghost invariant = { λ b. IsRoomy b.bytes b.first b.len };
}

impl Bits {
    /// The `len` bits of a buffer from bit `first_bit` on. It takes no memory.
    pub fn new(bytes: Bytes, first_bit: usize, len: usize) -> Bits
        requires { IsRoomy bytes first_bit len }
        ensures value { result ≡ bits_of bytes first_bit len }
        ensures long { length result ≡ len }
    {
        Bits {
            bytes,
            first: first_bit,
            len,
        }
    }

    /// How many bits there are.
    pub fn len(&self) -> usize
        ensures { result ≡ length self.now }
    {
        self.len
    }

    /// Whether there is no bit.
    pub fn is_empty(&self) -> bool
        ensures { result ≡ (length self.now == 0) }
    {
        self.len() == 0
    }

    /// Bit `place`, counted from 0.
    pub fn get(&self, place: usize) -> bool
        requires { place < length self.now }
        ensures { result ≡ get_or self.now place false }
    {
        bit(self.bytes.as_slice(), self.first + place)
    }

    /// How many bits are 1. It takes no memory.
    pub fn count(&self) -> usize
        ensures { result ≡ count_by (λ bit. bit) self.now }
    {
        count_bits(self.bytes.as_slice(), self.first, self.len)
    }

    /// How many of the `len` bits from `from` on are 1. It takes no memory.
    pub fn count_range(&self, from: usize, len: usize) -> usize
        requires { from + len ≤ length self.now }
        ensures { result ≡ count_by (λ bit. bit) (take len (drop from self.now)) }
    {
        count_bits(self.bytes.as_slice(), self.first + from, len)
    }

    /// The 64 bits from `from` on as a word, whose lowest bit is the first of them.
    pub fn word(&self, from: usize) -> u64
        requires { from + 64 ≤ length self.now }
        ensures { result ≡ mask_l (take 64 (drop from self.now)) }
    {
        word(self.bytes.as_slice(), self.first + from)
    }

    /// The `len` bits from `from` on, fewer than 64, as a word, with zeros above them.
    pub fn short_word(&self, from: usize, len: usize) -> u64
        requires within { from + len ≤ length self.now }
        requires short { len < 64 }
        ensures { result ≡ mask_l (take len (drop from self.now)) }
    {
        short_word(self.bytes.as_slice(), self.first + from, len)
    }

    /// The same bits once more, over the same buffer: none is copied.
    ///
    /// # Errors
    ///
    /// `AllocError` where the buffer refuses another owner.
    pub fn share(&self) -> Result<Bits, AllocError>
        ensures { IfOk result (λ bits. bits ≡ self.now) }
    {
        Ok(Bits {
            bytes: self.bytes.clone()?,
            first: self.first,
            len: self.len,
        })
    }

    /// The bits `from` up to, not with, `to`, over the same buffer: none is copied.
    ///
    /// # Errors
    ///
    /// `AllocError` where the buffer refuses another owner.
    pub fn slice(&self, from: usize, to: usize) -> Result<Bits, AllocError>
        requires ordered { from ≤ to }
        requires within { to ≤ length self.now }
        ensures value { IfOk result (λ bits. bits ≡ take (to - from) (drop from self.now)) }
        ensures long { IfOk result (λ bits. length bits ≡ to - from) }
    {
        Ok(Bits {
            bytes: self.bytes.clone()?,
            first: self.first + from,
            len: to - from,
        })
    }

    /// The bits at places, which are counted from `first` on, in a buffer of their own.
    ///
    /// # Errors
    ///
    /// `AllocError` where memory is refused.
    pub fn gather(&self, alloc: Global, first: usize, places: &[u32]) -> Result<Bits, AllocError>
        requires first { first ≤ length self.now }
        requires within { (k : ℕ) → k < length places.now →
            first + get_or places.now k 0 < length self.now }
        ensures value { IfOk result
            (λ bits. bits ≡ map (λ place. get_or self.now (first + place) false) places.now) }
        ensures long { IfOk result (λ bits. length bits ≡ length places.now) }
    {
        let made = gather_bits(alloc, self.bytes.as_slice(), self.first + first, places)?;
        Ok(Bits {
            bytes: Bytes::from_vec(made)?,
            first: 0,
            len: places.len(),
        })
    }

    // What two lists of one length make, bit by bit.
    fn join(&self, alloc: Global, operation: Operation, other: &Bits) -> Result<Bits, AllocError>
        requires { length self.now ≡ length other.now }
        ensures value { IfOk result (λ bits. bits ≡ zip2 (joined operation) self.now other.now) }
        ensures long { IfOk result (λ bits. length bits ≡ length self.now) }
    {
        let _ = &other.bytes;
        let left = self.bytes.as_slice();
        let right = other.bytes.as_slice();
        let made = join_bits(
            alloc,
            operation,
            left,
            self.first,
            right,
            other.first,
            self.len,
        )?;
        Ok(Bits {
            bytes: BytesMut::from(made).freeze()?,
            first: 0,
            len: self.len,
        })
    }

    /// The bits that are 1 in both, in a buffer of their own.
    ///
    /// # Errors
    ///
    /// `AllocError` where memory is refused.
    pub fn and(&self, alloc: Global, other: &Bits) -> Result<Bits, AllocError>
        requires { length self.now ≡ length other.now }
        ensures value { IfOk result (λ bits. bits ≡ zip2 (λ a b. a && b) self.now other.now) }
        ensures long { IfOk result (λ bits. length bits ≡ length self.now) }
    {
        self.join(alloc, Operation::And, other)
    }

    /// The bits that are 1 in either, in a buffer of their own.
    ///
    /// # Errors
    ///
    /// `AllocError` where memory is refused.
    pub fn or(&self, alloc: Global, other: &Bits) -> Result<Bits, AllocError>
        requires { length self.now ≡ length other.now }
        ensures value { IfOk result (λ bits. bits ≡ zip2 (λ a b. a || b) self.now other.now) }
        ensures long { IfOk result (λ bits. length bits ≡ length self.now) }
    {
        self.join(alloc, Operation::Or, other)
    }

    /// The bits that are 1 here and 0 in the other, in a buffer of their own.
    ///
    /// # Errors
    ///
    /// `AllocError` where memory is refused.
    pub fn and_not(&self, alloc: Global, other: &Bits) -> Result<Bits, AllocError>
        requires { length self.now ≡ length other.now }
        ensures value { IfOk result (λ bits. bits ≡ zip2 (λ a b. a && not b) self.now other.now) }
        ensures long { IfOk result (λ bits. length bits ≡ length self.now) }
    {
        self.join(alloc, Operation::AndNot, other)
    }
}
