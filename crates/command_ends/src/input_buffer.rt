//! What came of an input.

ghost use Rattle.std.specs.Prelude.{◌≡◌, ◌<◌, [], ℕ, List, Ok, OnOk};
ghost use Rattle.std.specs.Io.KnownBytes.{IsAtEnd};
ghost use Rattle.grpc_frame.specs.Ends.{Advances, CanFail, CountsFailure, FailsByTransport};
ghost use Rattle.grpc_frame.specs.Ends.{TakesTurn};
ghost use Rattle.command_ends.specs.inside.Pieces.{ReadsIn};

use grpc_frame::Input;
use scan_base::Fault;
use std::alloc::{AllocError, Global};
use std::marker::Model;

// How long the memory is at first.
const LEAST_LEN: usize = 65_536;

/// Bytes that came, with room for more after them. A contract sees the bytes and the room's length.
#[derive(Drop)]
pub(crate) struct InputBuffer {
    memory: Vec<u8>,
    // So many bytes of the memory have come. The room after them holds zeros.
    len: usize,
}

impl Model for InputBuffer {
    ghost use Rattle.std.specs.Prelude.{◌-◌, ◌≤◌, length, take};
    ghost use Rattle.bytes.specs.Filled.{Filled};

    ghost Value = { Filled };

    ghost view = { λ held. record
        { items = take held.len held.memory.items; spare = length held.memory.items - held.len } };

    ghost invariant = { λ held. held.len ≤ length held.memory.items };
}

impl InputBuffer {
    /// Nothing came, and there is no memory.
    pub fn new(alloc: Global) -> InputBuffer
        ensures { result.items ≡ [] }
    {
        InputBuffer {
            memory: Vec::new(alloc),
            len: 0,
        }
    }

    /// Makes room where there is none: as much as came.
    ///
    /// # Errors
    ///
    /// Where memory is refused. The bytes stay.
    pub fn make_room(&mut self) -> Result<(), AllocError>
        ensures items { self.new.items ≡ self.old.items }
        ensures room { OnOk result (0 < self.new.spare) }
    {
        if self.len < self.memory.len() {
            return Ok(());
        }
        let len = self.len.saturating_mul(2).max(LEAST_LEN);
        self.memory.resize(len, 0)
    }

    /// Reads one piece into the room.
    ///
    /// # Errors
    ///
    /// `Fault::Transport` where the read failed. It is counted, and the bytes stay.
    pub fn read_from<R: Input>(&mut self, input: &mut R) -> Result<usize, Fault>
        requires { CanFail (R.failures input.old) }
        ensures came { (came : List ℕ)
            × Advances (R.tape input.old) (R.tape input.new) came
            × ReadsIn result self.old.items self.new.items came }
        ensures end { result ≡ Ok 0 → 0 < self.old.spare → IsAtEnd (R.tape input.new).left }
        ensures counted { CountsFailure result (R.failures input.old) (R.failures input.new) }
        ensures kind { FailsByTransport result }
        ensures fewer { TakesTurn result (R.turns input.old) (R.turns input.new) }
    {
        let len = self.len;
        let room = self.memory.len() - len;
        let count = input.read(&mut self.memory.as_mut_slice()[len..len + room])?;
        self.len = len + count;
        Ok(count)
    }

    /// The bytes, in memory of just their size.
    pub fn into_vec(self) -> Vec<u8>
        ensures { result.items ≡ self.items }
    {
        let mut memory = self.memory;
        memory.truncate(self.len);
        memory.shrink_to_fit();
        memory
    }
}
