//! Readers and writers of the system's, with their failures counted.

ghost use Rattle.std.specs.Prelude.{◌≡◌, ◌<◌, ◌≤◌, ◌^◌, ◌+◌, ◌-◌, [], Some, true, false};
ghost use Rattle.std.specs.Io.KnownBytes.{Appends};
ghost use Rattle.grpc_frame.specs.Ends.{AppendsBeginning, CanFail, CountsFailure, FailsByTransport};
ghost use Rattle.grpc_frame.specs.Ends.{GrowsAlike, Writes, tape_of};

use crate::ends::{Input, Output};
use crate::transcript::{Transcript, read_noted, write_noted};
use scan_base::Fault;
use std::io::{ErrorKind, Read, Write};

/// A reader or a writer whose failures are counted. A call that a signal interrupts is made
/// again. After 18,446,744,073,709,551,615 calls of the reader or writer every further call
/// fails.
#[derive(Drop)]
pub struct CountedEnd<T> {
    end: T,
    // What its reads gave, and what its writes took.
    given: Transcript,
    taken: Transcript,
    failures: u64,
    turns: u64,
}

impl<T> CountedEnd<T> {
    /// No failure is counted yet, and no byte is read or written.
    pub fn new(end: T) -> CountedEnd<T>
        ensures end { result.end ≡ end }
        ensures given { result.given.bytes ≡ [] }
        ensures taken { result.taken.bytes ≡ [] }
        ensures failures { result.failures ≡ 0 }
        ensures turns { result.turns ≡ 2 ^ 64 - 1 }
    {
        CountedEnd {
            end,
            given: Transcript::new(),
            taken: Transcript::new(),
            failures: 0,
            turns: u64::MAX,
        }
    }

    /// The reader or writer.
    pub fn get_ref(&self) -> &T
        ensures { result.now ≡ self.now.end }
    {
        &self.end
    }

    /// Counts a failure that no call of the reader or writer told.
    pub fn count_failure(&mut self)
        requires { CanFail self.old.failures }
        ensures { self.new ≡ record self.old { failures = self.old.failures + 1 } }
    {
        self.failures += 1;
    }
}

impl<R: Read> Input for CountedEnd<R> {
    // All that the reader gave: `R.remaining` is not known of a socket or a standard stream.
    ghost tape = { λ s. tape_of s.given.bytes (R.remaining s.end) };

    ghost failures = { λ s. s.failures };

    ghost turns = { λ s. s.turns };

    fn read(&mut self, piece: &mut [u8]) -> Result<usize, Fault> {
        while self.turns > 0 {
            self.turns -= 1;
            match read_noted(&mut self.end, &mut self.given, piece) {
                Ok(count) => return Ok(count),
                Err(error) => {
                    if error.kind() != ErrorKind::Interrupted {
                        break;
                    }
                }
            }
        }
        self.failures += 1;
        Err(Fault::Transport)
    }

    fn failures(&self) -> u64 {
        self.failures
    }
}

impl<W: Write> Output for CountedEnd<W> {
    // All that the writer took: `W.contents` are not known of a socket or a standard stream.
    ghost contents = { λ s. Some s.taken.bytes };

    ghost failures = { λ s. s.failures };

    fn write(&mut self, piece: &[u8]) -> Result<(), Fault>
        requires { CanFail self.old.failures }
        ensures bytes { Writes result (Some self.old.taken.bytes)
            (Some self.new.taken.bytes) piece.now }
        ensures counted { CountsFailure result self.old.failures self.new.failures }
        ensures kind { FailsByTransport result }
        ensures held { GrowsAlike (W.contents self.old.end) (W.contents self.new.end)
            self.old.taken.bytes self.new.taken.bytes }
    {
        if write_whole(&mut self.end, &mut self.taken, &mut self.turns, piece) {
            return Ok(());
        }
        self.failures += 1;
        Err(Fault::Transport)
    }

    fn failures(&self) -> u64 {
        self.failures
    }
}

// Whether the whole piece is written. If not, a beginning of it is. Each write takes a turn.
fn write_whole<W: Write>(
    writer: &mut W,
    taken: &mut Transcript,
    turns: &mut u64,
    piece: &[u8],
) -> bool
    ensures yes { result ≡ true → Appends (Some taken.old.bytes) (Some taken.new.bytes) piece.now }
    ensures no { result ≡ false
        → AppendsBeginning (Some taken.old.bytes) (Some taken.new.bytes) piece.now }
    ensures held { GrowsAlike (W.contents writer.old) (W.contents writer.new)
        taken.old.bytes taken.new.bytes }
{
    let mut done = 0;
    while done < piece.len() {
        if *turns == 0 {
            return false;
        }
        *turns -= 1;
        match write_noted(writer, taken, &piece[done..]) {
            Ok(0) => return false,
            Ok(count) => done += count,
            Err(error) => {
                if error.kind() != ErrorKind::Interrupted {
                    return false;
                }
            }
        }
    }
    writer.flush().is_ok()
}
