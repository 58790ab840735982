//! Which slots are valid.

ghost use Rattle.std.specs.Prelude.{◌≡◌, ◌==◌, ◌<◌, ◌+◌, ℕ, IfOk};
ghost use Rattle.std.specs.Int.{bit_at};
ghost use Rattle.scan_base.specs.Reading.{Gives};
ghost use Rattle.arrays.specs.Validity.{is_valid, validity_of, HasBits, IsLong};

use bitmap::Bits;
use bytes::Bytes;
use scan_base::Fault;
use std::alloc::AllocError;
use std::marker::Model;

/// Which slots are valid: each, where there are no bits, and else those whose bit is 1. A contract
/// sees the bits, where there are some.
#[derive(Drop)]
pub struct Validity {
    bits: Option<Bits>,
}

impl Model for Validity {
    ghost use Rattle.std.specs.Prelude.{Bool, List, Option};

    ghost Value = { Option (List Bool) };

    ghost view = { λ v. v.bits };
}

impl Validity {
    /// The slots whose bit is 1 are valid; each, where there are no bits.
    pub fn new(bits: Option<Bits>) -> Validity
        ensures { result ≡ bits }
    {
        Validity { bits }
    }

    /// The validity of `len` slots, whose bits lie in a buffer, where there is one. F8 where it is
    /// too short.
    pub(crate) fn read(buffer: Option<Bytes>, len: usize) -> Result<Validity, Fault>
        ensures value { Gives (λ validity. validity) result (validity_of buffer len) }
        ensures long { IfOk result (λ validity. IsLong validity len) }
    {
        match buffer {
            None => Ok(Validity::new(None)),
            Some(bytes) if len.div_ceil(8) <= bytes.len() => {
                Ok(Validity::new(Some(Bits::new(bytes, 0, len))))
            }
            Some(_) => Err(Fault::BadBatch),
        }
    }

    /// The bits, where there are some.
    pub fn bits(&self) -> &Option<Bits>
        ensures { result.now ≡ self.now }
    {
        &self.bits
    }

    /// Whether the slot at a place is valid.
    pub fn is_valid(&self, place: usize) -> bool
        requires { HasBits self.now (place + 1) }
        ensures { result ≡ is_valid self.now place }
    {
        match &self.bits {
            None => true,
            Some(bits) => bits.get(place),
        }
    }

    /// Which of the 64 slots from `from` on are valid: a bit for each, the first lowest.
    pub fn valid_word(&self, from: usize) -> u64
        requires { HasBits self.now (from + 64) }
        ensures { (row : ℕ) → row < 64 →
            (bit_at result row == 1) ≡ is_valid self.now (from + row) }
    {
        match self.bits() {
            None => u64::MAX,
            Some(bits) => bits.word(from),
        }
    }

    /// The same once more, over the same buffer: no bit is copied.
    ///
    /// # Errors
    ///
    /// `AllocError` where the buffer refuses another owner.
    pub fn share(&self) -> Result<Validity, AllocError>
        ensures { IfOk result (λ validity. validity ≡ self.now) }
    {
        match &self.bits {
            None => Ok(Validity::new(None)),
            Some(bits) => Ok(Validity::new(Some(bits.share()?))),
        }
    }
}
