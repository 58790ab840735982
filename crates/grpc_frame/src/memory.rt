//! Ends in memory, of which one call may fail that is named before.

ghost use Rattle.std.specs.Prelude.{◌≡◌, ◌<◌, ◌≤◌, [], None, Some, true, false, OnOk, IfOk, OnErr};
ghost use Rattle.std.specs.Io.{ReadsAtMost};
ghost use Rattle.grpc_frame.specs.Ends.{CanFail, CountsFailure, FailsByTransport, ReadAdvances};
ghost use Rattle.grpc_frame.specs.Ends.{TakesTurn, tape_of};
ghost use Rattle.grpc_frame.specs.Ends.{AppendsBeginning, Writes};
ghost use Rattle.grpc_frame.specs.Memory.{fails_now, plan_after};

use crate::ends::{Input, Output};
use scan_base::Fault;
use std::alloc::Global;
use std::marker::Model;

// Counts a call, and answers whether it is the one that fails.
fn take_call(plan: &mut Option<u64>) -> bool
    ensures fails { result ≡ fails_now plan.old }
    ensures plan { plan.new ≡ plan_after plan.old }
{
    match *plan {
        None => false,
        Some(0) => {
            *plan = None;
            true
        }
        Some(calls) => {
            *plan = Some(calls - 1);
            false
        }
    }
}

/// A reader over bytes in memory. A contract sees the bytes that it gave, those that are left, the
/// most bytes of a read, how many calls go well before one fails, and the number of failures.
#[derive(Debug, Drop)]
pub struct MemoryInput<'a> {
    bytes: &'a [u8],
    // So many of them were given.
    place: usize,
    most: usize,
    plan: Option<u64>,
    failures: u64,
}

impl<'a> Model for MemoryInput<'a> {
    ghost use Rattle.std.specs.Prelude.{◌<◌, ◌≤◌, drop, length, take};
    ghost use Rattle.grpc_frame.specs.Memory.{Source};

    ghost Value = { Source };

    ghost view = { λ s. record {
      given = take s.place s.bytes.now;
      bytes = drop s.place s.bytes.now;
      most = s.most;
      plan = s.plan;
      failures = s.failures;
    } };

    ghost invariant = { λ s. (s.place ≤ length s.bytes.now) × (0 < s.most) };
}

impl<'a> MemoryInput<'a> {
    /// Reads give these bytes, as many at once as are asked for, and no call fails.
    pub fn new(bytes: &'a [u8]) -> MemoryInput<'a>
        ensures { result ≡ record {
          given = [];
          bytes = bytes.now;
          most = 18446744073709551615;
          plan =
              None;
          failures = 0;
        } }
    {
        MemoryInput {
            bytes,
            place: 0,
            most: usize::MAX,
            plan: None,
            failures: 0,
        }
    }

    /// Each read gives at most so many bytes.
    pub fn in_pieces_of(self, most: usize) -> MemoryInput<'a>
        requires { 0 < most }
        ensures { result ≡ record self.entry { most = most } }
    {
        MemoryInput { most, ..self }
    }

    /// So many calls go well, the next one fails, and those after it go well again.
    pub fn failing_after(self, calls: u64) -> MemoryInput<'a>
        ensures { result ≡ record self.entry { plan = Some calls } }
    {
        let plan = Some(calls);
        MemoryInput { plan, ..self }
    }
}

impl Input for MemoryInput<'_> {
    ghost use Rattle.std.specs.Prelude.{Some, length};

    ghost tape = { λ s. tape_of s.given (Some s.bytes) };

    ghost failures = { λ s. s.failures };

    ghost turns = { λ s. length s.bytes };

    fn read(&mut self, piece: &mut [u8]) -> Result<usize, Fault>
        requires { CanFail (self.old.failures) }
        ensures bound { ReadsAtMost result piece.new }
        ensures bytes { ReadAdvances result (tape_of self.old.given (Some self.old.bytes))
            (tape_of self.new.given (Some self.new.bytes)) piece.new }
        ensures counted { CountsFailure result self.old.failures self.new.failures }
        ensures kind { FailsByTransport result }
        ensures fewer { TakesTurn result (length self.old.bytes) (length self.new.bytes) }
        ensures most { IfOk result (λ count. count ≤ self.old.most) }
        ensures goes_well { OnOk result (fails_now self.old.plan ≡ false) }
        ensures fails { OnErr result (fails_now self.old.plan ≡ true) }
        ensures plan { self.new.plan ≡ plan_after self.old.plan }
    {
        if take_call(&mut self.plan) {
            self.failures += 1;
            return Err(Fault::Transport);
        }
        let left = &self.bytes[self.place..];
        let count = piece.len().min(left.len()).min(self.most);
        piece[..count].copy_from_slice(&left[..count]);
        self.place += count;
        Ok(count)
    }

    fn failures(&self) -> u64 {
        self.failures
    }
}

/// A writer into memory. A contract sees the bytes that are written, how many calls go well
/// before one fails, and the number of failures. Want of memory is a failed write too.
#[derive(Debug, Drop)]
pub struct MemoryOutput {
    bytes: Vec<u8>,
    plan: Option<u64>,
    failures: u64,
}

impl Model for MemoryOutput {
    ghost use Rattle.grpc_frame.specs.Memory.{Sink};

    ghost Value = { Sink };

    ghost view = { λ s. record { bytes = s.bytes.items; plan = s.plan; failures = s.failures } };
}

impl MemoryOutput {
    /// Nothing is written, and no call fails.
    pub fn new(alloc: Global) -> MemoryOutput
        ensures { result ≡ record { bytes = []; plan = None; failures = 0 } }
    {
        MemoryOutput {
            bytes: Vec::new(alloc),
            plan: None,
            failures: 0,
        }
    }

    /// So many calls go well, the next one fails with half of its bytes written, and those after
    /// it go well again.
    pub fn failing_after(self, calls: u64) -> MemoryOutput
        ensures { result ≡ record self { plan = Some calls } }
    {
        let plan = Some(calls);
        MemoryOutput { plan, ..self }
    }

    /// What is written.
    pub fn as_slice(&self) -> &[u8]
        ensures { result.now ≡ self.now.bytes }
    {
        self.bytes.as_slice()
    }
}

impl Output for MemoryOutput {
    ghost use Rattle.std.specs.Prelude.{Some};

    ghost contents = { λ s. Some s.bytes };

    ghost failures = { λ s. s.failures };

    fn write(&mut self, piece: &[u8]) -> Result<(), Fault>
        requires { CanFail (self.old.failures) }
        ensures bytes { Writes result (Some self.old.bytes) (Some self.new.bytes) piece.now }
        ensures counted { CountsFailure result self.old.failures self.new.failures }
        ensures kind { FailsByTransport result }
        ensures goes_well { OnOk result (fails_now self.old.plan ≡ false) }
        ensures plan { self.new.plan ≡ plan_after self.old.plan }
    {
        if take_call(&mut self.plan) {
            append_half(&mut self.bytes, piece);
        } else if self.bytes.extend_from_slice(piece).is_ok() {
            return Ok(());
        }
        self.failures += 1;
        Err(Fault::Transport)
    }

    fn failures(&self) -> u64 {
        self.failures
    }
}

// A write that is cut short.
fn append_half(bytes: &mut Vec<u8>, piece: &[u8])
    ensures { AppendsBeginning (Some bytes.old.items) (Some bytes.new.items) piece.now }
{
    let (front, _) = piece.split_at(piece.len() / 2);
    let _ = bytes.extend_from_slice(front);
}
