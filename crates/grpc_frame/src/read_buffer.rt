//! The block of memory that what comes is read into.

ghost use Rattle.std.specs.Prelude.{◌≡◌, ◌<◌, ◌≤◌, ◌++◌, [], ℕ, List, Ok, drop, take, length, IfOk};
ghost use Rattle.std.specs.Prelude.{OnOk, OnErr};
ghost use Rattle.std.specs.Io.KnownBytes.{IsAtEnd};
ghost use Rattle.grpc_frame.specs.Ends.{Advances, CanFail, CountsFailure, FailsByTransport};
ghost use Rattle.grpc_frame.specs.Ends.{TakesTurn};
ghost use Rattle.grpc_frame.specs.inside.Reads.{ReadsIn};

use crate::ends::Input;
use bytes::Bytes;
use scan_base::Fault;
use std::alloc::{AllocError, Global};
use std::marker::Model;
use std::mem;

/// How long a block is that holds small records.
pub const BLOCK_LEN: usize = 65_536;

/// The most bytes of a read.
pub const READ_LEN: usize = 262_144;

// A block for a large record has room for so many times the bytes that have come of it.
const GROWTH: usize = 8;

// How much of a block counts as filled, where less has come.
const LEAST_LEN: usize = 16_384;

/// Bytes that came, with room for more after them. A contract sees the bytes and the room's length.
pub struct ReadBuffer {
    memory: Vec<u8>,
    // What came lies at `start..end`. The room after it holds zeros, or what lay there before.
    start: usize,
    end: usize,
}

// Written out, so that dropping it is one call (docs/DECISIONS.md).
impl Drop for ReadBuffer {
    fn drop(self) {
        let ReadBuffer {
            memory: _,
            start: _,
            end: _,
        } = self;
    }
}

impl Model for ReadBuffer {
    ghost use Rattle.std.specs.Prelude.{◌-◌, ◌≤◌, length, slice_range};
    ghost use Rattle.bytes.specs.Filled.{Filled};

    ghost Value = { Filled };

    ghost view = { λ block. record {
      items = slice_range block.memory.items block.start block.end;
      spare =
          length block.memory.items - block.end;
    } };

    ghost invariant = { λ block. (block.start ≤ block.end)
        × (block.end ≤ length block.memory.items) };
}

impl ReadBuffer {
    /// A block with no memory.
    pub fn new(alloc: Global) -> ReadBuffer
        ensures { result.items ≡ [] }
    {
        ReadBuffer {
            memory: Vec::new(alloc),
            start: 0,
            end: 0,
        }
    }

    /// The bytes.
    pub fn as_slice(&self) -> &[u8]
        ensures { result.now ≡ self.now.items }
    {
        &self.memory.as_slice()[self.start..self.end]
    }

    /// How many bytes there are.
    pub fn len(&self) -> usize
        ensures { result ≡ length self.now.items }
    {
        self.end - self.start
    }

    /// Takes bytes from the front. Where none is left, all of the block is room.
    pub fn advance(&mut self, count: usize)
        requires { count ≤ length self.old.items }
        ensures { self.new.items ≡ drop count self.old.items }
    {
        self.start += count;
        if self.start == self.end {
            self.start = 0;
            self.end = 0;
        }
    }

    /// Appends a piece.
    ///
    /// # Errors
    ///
    /// Where memory is refused. The bytes stay.
    pub fn extend(&mut self, piece: &[u8]) -> Result<(), AllocError>
        ensures ok { OnOk result (self.new.items ≡ self.old.items ++ piece.now) }
        ensures err { OnErr result (self.new.items ≡ self.old.items) }
    {
        let twice = self.memory.capacity().saturating_mul(2);
        self.make_room(piece.len(), twice)?;
        self.append(piece);
        Ok(())
    }

    fn append(&mut self, piece: &[u8])
        requires { length piece.now ≤ self.old.spare }
        ensures { self.new.items ≡ self.old.items ++ piece.now }
    {
        let end = self.end + piece.len();
        self.memory.as_mut_slice()[self.end..end].copy_from_slice(piece);
        self.end = end;
    }

    /// Makes room for `wanted` more bytes, in a block of at most `limit` bytes where they fit in so
    /// many.
    ///
    /// # Errors
    ///
    /// Where memory is refused. The bytes stay.
    pub fn make_room(&mut self, wanted: usize, limit: usize) -> Result<(), AllocError>
        ensures items { self.new.items ≡ self.old.items }
        ensures room { OnOk result (wanted ≤ self.new.spare) }
    {
        if wanted <= self.memory.len() - self.end {
            return Ok(());
        }
        self.move_to_front();
        self.grow(wanted, limit)
    }

    // Moves the bytes to the front, where they are not many more than the free ones before them.
    fn move_to_front(&mut self)
        ensures items { self.new.items ≡ self.old.items }
    {
        let (start, end) = (self.start, self.end);
        if start > 0 && end - start <= start.max(BLOCK_LEN) {
            self.memory.as_mut_slice().copy_within(start..end, 0);
            self.start = 0;
            self.end = end - start;
        }
    }

    // Makes room after the bytes. It writes no more zeros than the next piece needs.
    fn grow(&mut self, wanted: usize, limit: usize) -> Result<(), AllocError>
        ensures items { self.new.items ≡ self.old.items }
        ensures room { OnOk result (wanted ≤ self.new.spare) }
    {
        let Some(least) = self.end.checked_add(wanted) else {
            return Err(AllocError);
        };
        if self.memory.capacity() < least {
            let many = self.end.max(LEAST_LEN).saturating_mul(GROWTH);
            let capacity = many.min(limit).max(least);
            self.memory.reserve_exact(capacity - self.memory.len())?;
        }
        let next = self
            .end
            .saturating_add(READ_LEN)
            .min(self.memory.capacity());
        let len = self.memory.len().max(next).max(least);
        self.memory.resize(len, 0)
    }

    /// Reads one piece of at most `most` bytes into the room.
    ///
    /// # Errors
    ///
    /// `Fault::Transport` where the read failed. It is counted, and the bytes stay.
    pub fn read_from<R: Input>(&mut self, input: &mut R, most: usize) -> Result<usize, Fault>
        requires { CanFail (R.failures input.old) }
        ensures came { (came : List ℕ)
            × Advances (R.tape input.old) (R.tape input.new) came
            × ReadsIn result self.old.items self.new.items came }
        ensures most { IfOk result (λ count. count ≤ most) }
        ensures end { result ≡ Ok 0 → 0 < most → 0 < self.old.spare →
            IsAtEnd (R.tape input.new).left }
        ensures counted { CountsFailure result (R.failures input.old) (R.failures input.new) }
        ensures kind { FailsByTransport result }
        ensures fewer { TakesTurn result (R.turns input.old) (R.turns input.new) }
    {
        let end = self.end;
        let room = most.min(self.memory.len() - end);
        let count = input.read(&mut self.memory.as_mut_slice()[end..end + room])?;
        self.end = end + count;
        Ok(count)
    }

    /// Takes the first `whole` bytes, and gives those after the first `skipped` of them, in memory
    /// of just their size: a large record that stands alone keeps the block, and any other is
    /// copied out of it.
    ///
    /// # Errors
    ///
    /// Where memory is refused. The bytes stay.
    pub fn take(&mut self, skipped: usize, whole: usize) -> Result<Bytes, AllocError>
        requires { (skipped ≤ whole) × (whole ≤ length self.old.items) }
        ensures front { IfOk result (λ front. front ≡ drop skipped (take whole self.old.items)) }
        ensures rest { OnOk result (self.new.items ≡ drop whole self.old.items) }
        ensures err { OnErr result (self.new.items ≡ self.old.items) }
    {
        if whole > BLOCK_LEN && whole == self.end {
            return self.take_all(skipped);
        }
        let alloc = *self.memory.allocator();
        let content = Bytes::copy_from_slice(alloc, &self.as_slice()[skipped..whole])?;
        self.advance(whole);
        Ok(content)
    }

    // Takes all the bytes with their block.
    fn take_all(&mut self, skipped: usize) -> Result<Bytes, AllocError>
        requires { skipped ≤ length self.old.items }
        ensures front { IfOk result (λ front. front ≡ drop skipped self.old.items) }
        ensures rest { OnOk result (self.new.items ≡ []) }
        ensures err { OnErr result (self.new.items ≡ self.old.items) }
    {
        let alloc = *self.memory.allocator();
        let mut memory = mem::replace(&mut self.memory, Vec::new(alloc));
        memory.truncate(self.end);
        memory.shrink_to_fit();
        let skipped = self.start + skipped;
        match Bytes::from_vec(memory) {
            Ok(mut content) => {
                self.start = 0;
                self.end = 0;
                content.advance(skipped);
                Ok(content)
            }
            Err(failed) => {
                self.memory = failed.value;
                Err(AllocError)
            }
        }
    }
}
