//! The ends of a connection: what a server or a client reads from and writes to.

ghost use Rattle.std.specs.Prelude.{◌≡◌, ℕ, List, None, Option};
ghost use Rattle.std.specs.Io.{ReadsAtMost};
ghost use Rattle.grpc_frame.specs.Ends.{CanFail, CountsFailure, FailsByTransport, ReadAdvances};
ghost use Rattle.grpc_frame.specs.Ends.{TakesTurn, Tape, Writes};

use scan_base::Fault;

/// A reader that counts its failures, and gives bytes a bounded number of times.
pub trait Input {
    // The bytes that reads gave so far, and those that they will give from here on, where these are
    // known.
    ghost tape: { Self → Tape };

    // How many reads have failed.
    ghost failures: { Self → ℕ };

    // How many more reads can give bytes: the measure of a loop that reads to the end.
    ghost turns: { Self → ℕ };

    /// Reads some bytes to the front of `piece`, and gives their number: 0 at the end.
    ///
    /// # Errors
    ///
    /// `Fault::Transport` where the read failed. It is counted, and no byte is lost.
    fn read(&mut self, piece: &mut [u8]) -> Result<usize, Fault>
        requires { CanFail (failures self.old) }
        ensures bound { ReadsAtMost result piece.new }
        ensures bytes { ReadAdvances result (tape self.old) (tape self.new) piece.new }
        ensures counted { CountsFailure result (failures self.old) (failures self.new) }
        ensures kind { FailsByTransport result }
        ensures fewer { TakesTurn result (turns self.old) (turns self.new) };

    /// How many reads have failed.
    fn failures(&self) -> u64
        ensures { result ≡ failures self.now };
}

/// A writer that counts its failures.
pub trait Output {
    // The bytes that the writer holds, where they are known.
    ghost contents: { Self → Option (List ℕ) } = { λ _. None };

    // How many writes have failed.
    ghost failures: { Self → ℕ };

    /// Writes all of `piece`.
    ///
    /// # Errors
    ///
    /// `Fault::Transport` where the write failed. It is counted, and a beginning of `piece` is
    /// written.
    fn write(&mut self, piece: &[u8]) -> Result<(), Fault>
        requires { CanFail (failures self.old) }
        ensures bytes { Writes result (contents self.old) (contents self.new) piece.now }
        ensures counted { CountsFailure result (failures self.old) (failures self.new) }
        ensures kind { FailsByTransport result };

    /// Looks whether the other end is still there, where it shows. It writes nothing, and does not
    /// wait.
    ///
    /// # Errors
    ///
    /// `Fault::Transport` where the other end is known to be gone. It is counted as a failed write
    /// is.
    fn look(&mut self) -> Result<(), Fault>
        requires { CanFail (failures self.old) }
        ensures same { contents self.new ≡ contents self.old }
        ensures counted { CountsFailure result (failures self.old) (failures self.new) }
        ensures kind { FailsByTransport result }
    {
        Ok(())
    }

    /// How many writes have failed.
    fn failures(&self) -> u64
        ensures { result ≡ failures self.now };
}
