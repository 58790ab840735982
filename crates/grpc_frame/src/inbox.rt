//! What has come, cut into records.

ghost use Rattle.std.specs.Prelude.{◌≡◌, ◌++◌, ◌↔◌, ◌<◌, [], ℕ, List, Ok, OnOk, OnErr, IfOk, IfErr};
ghost use Rattle.std.specs.Prelude.{IsTrue, MatchOption, length};
ghost use Rattle.std.specs.Io.KnownBytes.{IsAtEnd};
ghost use Rattle.grpc_frame.specs.Ends.{Advances, CanFail};
ghost use Rattle.scan_base.specs.declared.fault.Fault.TheVariants.{OutOfMemory};
ghost use Rattle.grpc_frame.specs.declared.place.Place.TheVariants.{BetweenCalls, InAnswer};
ghost use Rattle.grpc_frame.specs.Head.{AreBytes};
ghost use Rattle.grpc_frame.specs.Calls.{TakesFront, KeepsProfile};
ghost use Rattle.grpc_frame.specs.Arrivals.{CountsTransport, IsSound, work_left};
ghost use Rattle.grpc_frame.specs.Records.{Breaks};
ghost use Rattle.grpc_frame.specs.inside.Reads.{TakesIn};

use crate::ends::Input;
use crate::head::{read_front, read_head};
use crate::place::Place;
use crate::read_buffer::{BLOCK_LEN, READ_LEN, ReadBuffer};
use crate::record::Record;
use scan_base::Fault;
use std::alloc::Global;
use std::marker::Model;

// The room that a read has at least, where so much has to come.
const ROOM_LEN: usize = 32_768;

/// What has come of a connection and is not taken yet. A contract sees those bytes and the place
/// of the record in front.
pub struct Inbox {
    block: ReadBuffer,
    place: Place,
}

// Written out, so that dropping it is one call (docs/DECISIONS.md).
impl Drop for Inbox {
    fn drop(self) {
        let Inbox { block: _, place: _ } = self;
    }
}

impl Model for Inbox {
    ghost use Rattle.grpc_frame.specs.Records.{Received};

    ghost Value = { Received };

    ghost view = { λ inbox. record { bytes = inbox.block.items; place = inbox.place } };
}

impl Inbox {
    /// The inbox of a server, which reads calls. Nothing has come. It takes no memory.
    pub fn of_server(alloc: Global) -> Inbox
        ensures { result ≡ record { bytes = []; place = BetweenCalls } }
    {
        Inbox {
            block: ReadBuffer::new(alloc),
            place: Place::BetweenCalls,
        }
    }

    /// The inbox of a client, which reads answers. Nothing has come. It takes no memory.
    pub fn of_client(alloc: Global) -> Inbox
        ensures { result ≡ record { bytes = []; place = InAnswer } }
    {
        Inbox {
            block: ReadBuffer::new(alloc),
            place: Place::InAnswer,
        }
    }

    /// Whether nothing has come after the last whole call: a server's input may end here.
    pub fn is_between_calls(&self) -> bool
        ensures { IsTrue result ↔ (self.now ≡ record { bytes = []; place = BetweenCalls }) }
    {
        self.place == Place::BetweenCalls && self.block.len() == 0
    }

    /// Takes in the next piece, cut anywhere.
    ///
    /// # Errors
    ///
    /// `Fault::OutOfMemory` where memory is refused. Nothing has changed then.
    pub fn feed(&mut self, piece: &[u8]) -> Result<(), Fault>
        ensures ok { OnOk result (self.new
            ≡ record { bytes = self.old.bytes ++ piece.now; place = self.old.place }) }
        ensures memory { IfErr result (λ fault. fault ≡ OutOfMemory) }
        ensures err { OnErr result (self.new ≡ self.old) }
    {
        self.block.extend(piece)?;
        Ok(())
    }

    /// Takes the next record, or nothing where more of it has to come first.
    ///
    /// # Errors
    ///
    /// - `Fault::BadFrame` where the kind byte is none that may come at this place, a path has more
    ///   than 256 bytes, a message's flag is not 0, or a status text is not UTF-8.
    /// - `Fault::MessageTooLarge` where a message has more than 16,777,216 bytes.
    /// - `Fault::OutOfMemory` where memory is refused.
    ///
    /// Nothing has changed then, so the first two are answered from then on, whatever is fed.
    pub fn next(&mut self) -> Result<Option<Record>, Fault>
        // By the function that reads a connection: the record in front is taken, or nothing
        // changes.
        ensures front { TakesFront result self.old self.new }

        // The same in the words of the profile, in which no order of reading is.
        ensures profile { KeepsProfile result self.old self.new }
    {
        self.take_front()
    }

    /// The fault of the record in front, as soon as what came of it shows one: `next` answers it.
    /// It takes no memory.
    pub fn flaw(&self) -> Option<Fault>
        ensures { MatchOption result (IsSound self.now) (λ fault. Breaks self.now fault) }
    {
        match read_front(self.place, self.block.as_slice()) {
            Ok(_) => None,
            Err(fault) => Some(fault),
        }
    }

    fn take_front(&mut self) -> Result<Option<Record>, Fault>
        ensures front { TakesFront result self.old self.new }
        ensures bytes { AreBytes self.old.bytes }
    {
        let Some(head) = read_front(self.place, self.block.as_slice())? else {
            return Ok(None);
        };
        let content = self.block.take(head.len, head.len + head.content_len)?;
        self.place = head.kind.place_behind(self.place);
        Ok(Some(head.kind.into_record(content)))
    }

    /// Takes in one piece of an input, and gives its length: 0 at the end.
    ///
    /// A record of more than `BLOCK_LEN` bytes gets a block of its own, of at most its size, in
    /// which nothing else lies: what has come of it is read no further than its end.
    ///
    /// # Errors
    ///
    /// `Fault::Transport` where the read failed. It is counted. `Fault::OutOfMemory` where memory
    /// for the piece is refused: nothing is read then.
    pub(crate) fn take_in<R: Input>(&mut self, input: &mut R) -> Result<usize, Fault>
        requires { CanFail (R.failures input.old) }
        ensures came { (came : List ℕ)
            × Advances (R.tape input.old) (R.tape input.new) came
            × TakesIn result self.old self.new came }
        ensures end { result ≡ Ok 0 → IsAtEnd (R.tape input.new).left }
        ensures counted { CountsTransport result (R.failures input.old) (R.failures input.new) }
        ensures fewer { IfOk result (λ count. 0 < count
            → work_left (R.turns input.new) self.new < work_left (R.turns input.old) self.old) }
    {
        let whole = self.front_len();
        let missing = match whole.saturating_sub(self.block.len()) {
            0 => BLOCK_LEN,
            missing => missing,
        };
        self.block
            .make_room(missing.min(ROOM_LEN), whole.max(BLOCK_LEN))?;
        let most = if whole > BLOCK_LEN {
            missing
        } else {
            BLOCK_LEN
        };
        self.block.read_from(input, most.min(READ_LEN))
    }

    // How many bytes the record in front has, or 0 where its head has not come.
    fn front_len(&self) -> usize {
        match read_head(self.place, self.block.as_slice()) {
            Ok(Some(head)) => head.len + head.content_len,
            _ => 0,
        }
    }
}
