//! Records on their way to a writer.

ghost use Rattle.std.specs.Prelude.{◌≡◌, ◌++◌, ◌≤◌, [], length};
ghost use Rattle.scan_base.specs.Limits.{most_message_bytes};
ghost use Rattle.grpc_frame.specs.declared.record.Record.TheVariants.{Message};
ghost use Rattle.grpc_frame.specs.Records.{spelling, message_head, IsRecord};
ghost use Rattle.grpc_frame.specs.Calls.{status_of};
ghost use Rattle.grpc_frame.specs.Ends.{FailsByTransport, Writes};
ghost use Rattle.grpc_frame.specs.Outgoing.{CountsUp, SendsAll};

use crate::ends::Output;
use crate::outbox::Outbox;
use crate::record::STATUS;
use crate::write::{message_head, status_head};
use scan_base::Fault;
use std::alloc::Global;
use std::marker::Model;

/// Sends records to a writer: small ones go out in one write, of at most `MAX_GATHERED_LEN` bytes.
/// A contract sees what the writer holds, what waits for the next write, and how many writes have
/// failed.
///
/// Where a write fails, nothing waits any more: what did is written in part or not at all.
#[derive(Drop)]
pub struct Sender<'w, W: Output> {
    writer: &'w mut W,
    outbox: Outbox,
}

impl<'w, W: Output> Model for Sender<'w, W> {
    ghost use Rattle.grpc_frame.specs.Outgoing.{Outgoing};

    ghost Value = { Outgoing };

    ghost view = { λ sender. record {
      writer = sender.writer.ghost_name;
      held = W.contents sender.writer.now;
      waiting = sender.outbox;
      failures = W.failures sender.writer.now;
    } };
}

impl<'w, W: Output> Sender<'w, W> {
    /// Nothing waits. It takes no memory.
    pub fn new(alloc: Global, writer: &'w mut W) -> Sender<'w, W>
        ensures { result ≡ record {
          writer = writer.entry.ghost_name;
          held = W.contents writer.old;
          waiting = [];
          failures = W.failures writer.old;
        } }
    {
        let outbox = Outbox::new(alloc);
        Sender { writer, outbox }
    }

    /// The writer. What waits is not written.
    pub fn end(self) -> &'w mut W
        ensures writer { result.ghost_name ≡ self.entry.writer }
        ensures held { W.contents result.now ≡ self.entry.held }
        ensures failures { W.failures result.now ≡ self.entry.failures }
    {
        let Sender { writer, outbox: _ } = self;
        writer
    }

    /// Sends a Message: its head, and then the bytes.
    ///
    /// # Errors
    ///
    /// `Fault::Transport` where a write failed. It is counted.
    pub fn send_message(&mut self, message: &[u8]) -> Result<(), Fault>
        requires { length message.now ≤ most_message_bytes }
        ensures { SendsAll result self.old self.new (spelling (Message message.now)) }
    {
        self.send_parts(&message_head(message.len()), message)
    }

    /// Sends the head of a Message of so many bytes, which are to be sent after it, in any parts.
    ///
    /// # Errors
    ///
    /// `Fault::Transport` where a write failed. It is counted.
    pub fn send_message_head(&mut self, len: usize) -> Result<(), Fault>
        requires { len ≤ most_message_bytes }
        ensures { SendsAll result self.old self.new (message_head len) }
    {
        self.send_part(&message_head(len))
    }

    /// Sends a Status: code 0 without a text, or the fault's code and text.
    ///
    /// # Errors
    ///
    /// `Fault::Transport` where a write failed. It is counted.
    pub fn send_status(&mut self, fault: Option<Fault>) -> Result<(), Fault>
        ensures bytes { SendsAll result self.old self.new (spelling (status_of fault)) }
        ensures record { IsRecord (status_of fault) }
    {
        let Some(fault) = fault else {
            return self.send_part(&[STATUS, 0, 0, 0]);
        };
        let text = fault.text();
        let text = text.as_str().as_bytes();
        self.send_parts(&status_head(fault, text.len()), text)
    }

    /// Sends two parts of a record, one after the other.
    ///
    /// # Errors
    ///
    /// `Fault::Transport` where a write failed. It is counted.
    #[tactic(auto, using(crate::proofs::Outgoing::outgoing))]
    pub fn send_parts(&mut self, first: &[u8], second: &[u8]) -> Result<(), Fault>
        ensures { SendsAll result self.old self.new (first.now ++ second.now) }
    {
        self.send_part(first)?;
        self.send_part(second)
    }

    /// Sends bytes of a record. They wait where there is room for all of them, else what waited
    /// is written; and more than `MAX_GATHERED_LEN`, or those for which memory is refused, are
    /// written as they lie.
    ///
    /// # Errors
    ///
    /// `Fault::Transport` where a write failed. It is counted.
    #[tactic(auto, using(crate::proofs::Outgoing::outgoing))]
    pub fn send_part(&mut self, part: &[u8]) -> Result<(), Fault>
        ensures { SendsAll result self.old self.new part.now }
    {
        if self.outbox.gather(part) {
            return Ok(());
        }
        self.flush()?;
        if self.outbox.gather(part) {
            return Ok(());
        }
        write_counted(self.writer, part)
    }

    /// Writes what waits, in one write, or none where nothing does.
    ///
    /// # Errors
    ///
    /// `Fault::Transport` where the write failed. It is counted.
    #[tactic(auto, using(crate::proofs::Outgoing::outgoing))]
    pub fn flush(&mut self) -> Result<(), Fault>
        ensures bytes { SendsAll result self.old self.new [] }
        ensures empty { self.new.waiting ≡ [] }
    {
        if self.outbox.as_slice().is_empty() {
            return Ok(());
        }
        let written = write_counted(self.writer, self.outbox.as_slice());
        self.outbox.clear();
        written
    }

    /// Writes what waits, and looks whether the other end is still there.
    ///
    /// # Errors
    ///
    /// `Fault::Transport` where the write failed, or where the other end is known to be gone. It is
    /// counted.
    #[tactic(auto, using(crate::proofs::Outgoing::outgoing))]
    pub fn look(&mut self) -> Result<(), Fault>
        ensures { SendsAll result self.old self.new [] }
    {
        self.flush()?;
        look_counted(self.writer)
    }
}

// Writes a piece. Where no more failures can be counted, each further write fails.
fn write_counted<W: Output>(writer: &mut W, piece: &[u8]) -> Result<(), Fault>
    ensures bytes { Writes result (W.contents writer.old) (W.contents writer.new) piece.now }
    ensures counted { CountsUp result (W.failures writer.old) (W.failures writer.new) }
    ensures kind { FailsByTransport result }
{
    if writer.failures() == u64::MAX {
        return Err(Fault::Transport);
    }
    writer.write(piece)
}

// Looks at the other end. Where no more failures can be counted, each look fails.
fn look_counted<W: Output>(writer: &mut W) -> Result<(), Fault>
    ensures same { W.contents writer.new ≡ W.contents writer.old }
    ensures counted { CountsUp result (W.failures writer.old) (W.failures writer.new) }
    ensures kind { FailsByTransport result }
{
    if writer.failures() == u64::MAX {
        return Err(Fault::Transport);
    }
    writer.look()
}
