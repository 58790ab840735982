//! Numbers of a span, as they are marked.

ghost use Rattle.std.specs.Prelude.{◌≡◌, ◌<◌, ◌+◌, ◌*◌, ◌/◌, ◌^◌, IfOk, false, get_or, length};
ghost use Rattle.bitmap.specs.Bits.{bit_of};

use crate::numbers::TakesNumbers;
use crate::spans::Span;
use bitmap::Bits;
use bytes::Bytes;
use std::alloc::{AllocError, Global};

// A bit for each number of a span, and more up to a whole word. The one after the span's is there,
// and is 0.
#[derive(Drop)]
pub(crate) struct Marks {
    pub(crate) span: Span,
    bytes: Vec<u8>,
    ghost room: { length bytes.items ≡ 8 * (span.count / 64 + 1) },
    ghost few: { span.count < 2 ^ 30 },
    ghost end: { bit_of bytes.items span.count ≡ false },
}

impl Marks {
    // Those of no number.
    pub(crate) fn new(alloc: Global, span: Span) -> Result<Marks, AllocError>
        requires { span.count < 2 ^ 30 }
    {
        let mut bytes = Vec::new(alloc);
        bytes.resize(8 * (span.count / 64 + 1), 0u8)?;
        Ok(Marks { span, bytes })
    }

    // The bits, for each number whether it is marked, and those after them.
    pub(crate) fn into_bits(self) -> Result<Bits, AllocError>
        ensures long { IfOk result (λ bits. length bits ≡ 64 * (self.span.count / 64 + 1)) }
        ensures end { IfOk result (λ bits. get_or bits self.span.count false ≡ false) }
    {
        let words = self.span.count / 64 + 1;
        Ok(Bits::new(Bytes::from_vec(self.bytes)?, 0, 64 * words))
    }
}

impl TakesNumbers for Marks {
    // Marks a number, where it is one of the span's.
    fn take(&mut self, number: i128) {
        let place = self.span.place(number);
        if place < self.span.count {
            self.bytes[place / 8] |= 1 << (place % 8);
        }
    }
}
