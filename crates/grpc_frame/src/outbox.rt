//! Records on their way to an output.

ghost use Rattle.std.specs.Prelude.{◌≡◌, ◌++◌, ◌≤◌, [], length, true, false};
ghost use Rattle.scan_base.specs.Limits.{most_message_bytes};
ghost use Rattle.grpc_frame.specs.declared.record.Record.TheVariants.{Message};
ghost use Rattle.grpc_frame.specs.Records.{spelling, message_head, IsRecord};
ghost use Rattle.grpc_frame.specs.Calls.{status_of};
ghost use Rattle.grpc_frame.specs.Ends.{CanFail, CountsFailure, FailsByTransport, Writes};
ghost use Rattle.grpc_frame.specs.Sending.{Sends};

use crate::ends::Output;
use crate::record::STATUS;
use crate::write::{message_head, status_head};
use scan_base::Fault;
use std::alloc::Global;
use std::marker::Model;

/// The most bytes that an outbox gathers.
pub const MAX_GATHERED_LEN: usize = 16_384;

/// Bytes of records that are sent and not written yet, at most `MAX_GATHERED_LEN`: small records go
/// out in one write. A contract sees those bytes.
///
/// Where a write fails, nothing is gathered any more: what was is written in part or not at all.
pub struct Outbox {
    gathered: Vec<u8>,
}

// Written out, so that dropping it is one call (docs/DECISIONS.md).
impl Drop for Outbox {
    fn drop(self) {
        let Outbox { gathered: _ } = self;
    }
}

impl Model for Outbox {
    ghost use Rattle.std.specs.Prelude.{◌≤◌, ℕ, List, length};

    ghost Value = { List ℕ };

    ghost view = { λ outbox. outbox.gathered.items };

    ghost invariant = { λ outbox. length outbox.gathered.items ≤ 16384 };
}

impl Outbox {
    /// Nothing is gathered. It takes no memory.
    pub fn new(alloc: Global) -> Outbox
        ensures { result ≡ [] }
    {
        Outbox {
            gathered: Vec::new(alloc),
        }
    }

    /// Sends a Message: its head, and then the bytes.
    ///
    /// # Errors
    ///
    /// `Fault::Transport` where a write failed. It is counted.
    pub fn send_message<W: Output>(&mut self, writer: &mut W, message: &[u8]) -> Result<(), Fault>
        requires failures { CanFail (W.failures writer.old) }
        requires short { length message.now ≤ most_message_bytes }
        ensures bytes { Sends result (W.contents writer.old) (W.contents writer.new)
            self.old self.new (spelling (Message message.now)) }
        ensures counted { CountsFailure result (W.failures writer.old) (W.failures writer.new) }
        ensures kind { FailsByTransport result }
    {
        self.send_parts(writer, &message_head(message.len()), message)
    }

    /// Sends the head of a Message of so many bytes, which are to be sent after it, in any parts.
    ///
    /// # Errors
    ///
    /// `Fault::Transport` where a write failed. It is counted.
    pub fn send_message_head<W: Output>(&mut self, writer: &mut W, len: usize) -> Result<(), Fault>
        requires failures { CanFail (W.failures writer.old) }
        requires short { len ≤ most_message_bytes }
        ensures bytes { Sends result (W.contents writer.old) (W.contents writer.new)
            self.old self.new (message_head len) }
        ensures counted { CountsFailure result (W.failures writer.old) (W.failures writer.new) }
        ensures kind { FailsByTransport result }
    {
        self.send_part(writer, &message_head(len))
    }

    /// Sends a Status: code 0 without a text, or the fault's code and text.
    ///
    /// # Errors
    ///
    /// `Fault::Transport` where a write failed. It is counted.
    pub fn send_status<W: Output>(
        &mut self,
        writer: &mut W,
        fault: Option<Fault>,
    ) -> Result<(), Fault>
        requires { CanFail (W.failures writer.old) }
        ensures bytes { Sends result (W.contents writer.old) (W.contents writer.new)
            self.old self.new (spelling (status_of fault)) }
        ensures record { IsRecord (status_of fault) }
        ensures counted { CountsFailure result (W.failures writer.old) (W.failures writer.new) }
        ensures kind { FailsByTransport result }
    {
        let Some(fault) = fault else {
            return self.send_part(writer, &[STATUS, 0, 0, 0]);
        };
        let text = fault.text();
        let text = text.as_str().as_bytes();
        self.send_parts(writer, &status_head(fault, text.len()), text)
    }

    /// Sends two parts of a record, one after the other.
    ///
    /// # Errors
    ///
    /// `Fault::Transport` where a write failed. It is counted.
    #[tactic(auto, using(crate::proofs::Sending::sending))]
    pub fn send_parts<W: Output>(
        &mut self,
        writer: &mut W,
        first: &[u8],
        second: &[u8],
    ) -> Result<(), Fault>
        requires { CanFail (W.failures writer.old) }
        ensures bytes { Sends result (W.contents writer.old) (W.contents writer.new)
            self.old self.new (first.now ++ second.now) }
        ensures counted { CountsFailure result (W.failures writer.old) (W.failures writer.new) }
        ensures kind { FailsByTransport result }
    {
        self.send_part(writer, first)?;
        self.send_part(writer, second)
    }

    /// Sends bytes of a record. They are gathered where there is room for all of them, else what
    /// was gathered before is written; and more than `MAX_GATHERED_LEN`, or those for which memory
    /// is refused, are written as they lie.
    ///
    /// # Errors
    ///
    /// `Fault::Transport` where a write failed. It is counted.
    #[tactic(auto, using(crate::proofs::Sending::sending))]
    pub fn send_part<W: Output>(&mut self, writer: &mut W, part: &[u8]) -> Result<(), Fault>
        requires { CanFail (W.failures writer.old) }
        ensures bytes { Sends result (W.contents writer.old) (W.contents writer.new)
            self.old self.new part.now }
        ensures counted { CountsFailure result (W.failures writer.old) (W.failures writer.new) }
        ensures kind { FailsByTransport result }
    {
        if self.gather(part) {
            return Ok(());
        }
        self.flush(writer)?;
        if self.gather(part) {
            return Ok(());
        }
        writer.write(part)
    }

    /// Writes what is gathered, in one write, or none where nothing is.
    ///
    /// # Errors
    ///
    /// `Fault::Transport` where the write failed. It is counted.
    pub fn flush<W: Output>(&mut self, writer: &mut W) -> Result<(), Fault>
        requires { CanFail (W.failures writer.old) }
        ensures bytes { Writes result (W.contents writer.old) (W.contents writer.new) self.old }
        ensures empty { self.new ≡ [] }
        ensures counted { CountsFailure result (W.failures writer.old) (W.failures writer.new) }
        ensures kind { FailsByTransport result }
    {
        if self.gathered.is_empty() {
            return Ok(());
        }
        let written = writer.write(&self.gathered);
        self.gathered.clear();
        written
    }

    /// Writes what is gathered, and looks whether the other end is still there.
    ///
    /// # Errors
    ///
    /// `Fault::Transport` where the write failed, or where the other end is known to be gone. It is
    /// counted.
    #[tactic(auto, using(crate::proofs::Sending::sending))]
    pub fn look<W: Output>(&mut self, writer: &mut W) -> Result<(), Fault>
        requires { CanFail (W.failures writer.old) }
        ensures bytes { Sends result (W.contents writer.old) (W.contents writer.new)
            self.old self.new [] }
        ensures counted { CountsFailure result (W.failures writer.old) (W.failures writer.new) }
        ensures kind { FailsByTransport result }
    {
        self.flush(writer)?;
        writer.look()
    }

    // The bytes.
    pub(crate) fn as_slice(&self) -> &[u8]
        ensures { result.now ≡ self.now }
    {
        &self.gathered
    }

    // Nothing is gathered any more.
    pub(crate) fn clear(&mut self)
        ensures { self.new ≡ [] }
    {
        self.gathered.clear();
    }

    // Gathers the bytes where there is room, and memory, for all of them. It answers whether it
    // did.
    pub(crate) fn gather(&mut self, part: &[u8]) -> bool
        ensures yes { result ≡ true → self.new ≡ self.old ++ part.now }
        ensures no { result ≡ false → self.new ≡ self.old }
    {
        part.len() <= MAX_GATHERED_LEN - self.gathered.len()
            && self.gathered.extend_from_slice(part).is_ok()
    }
}
