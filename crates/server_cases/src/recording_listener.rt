//! A listener that keeps what it was shown, and breaks after so many connections.

use crate::history::{BookName, History};
use crate::server_thread::BoundPort;
use command_ends::{AcceptFailure, Listen, PortLine, SeatView};
use commands::shown_seat::ShownSeat;
use grpc_frame::CountedEnd;
use loopback::SocketWriter;
use std::io;
use std::net::{Net, TcpListener, TcpStream};
use std::sync::{Mutex, Wait};
use std::time::Clock;

/// What all listeners of a server keep: what they were shown, and how many connections they may
/// still give.
#[derive(Drop)]
pub(crate) struct ListenerRecord<C: BookName> {
    pub(crate) history: History<C>,
    left: u16,
}

impl<C: BookName> ListenerRecord<C> {
    /// Nothing was shown yet.
    pub(crate) fn new(connections: u16) -> ListenerRecord<C> {
        ListenerRecord {
            history: History::new(),
            left: connections,
        }
    }

    // Whether one more connection may be given. It then is.
    fn give_one(&mut self) -> bool {
        match self.left.checked_sub(1) {
            None => false,
            Some(left) => {
                self.left = left;
                true
            }
        }
    }
}

/// Takes connections of a port that is listened to already, and keeps what it is shown: by itself
/// its seat, and under a lock, with all other listeners of the port, what was seen. What it is owed
/// for a connection is that it is served for that seat.
#[derive(Drop)]
pub(crate) struct RecordingListener<'a, C: BookName, R: Wait> {
    rt: &'a R,
    kept: &'a Mutex<ListenerRecord<C>>,
    bound: BoundPort<'a, R>,
    // None stands for a new seat that was not shown yet.
    seat: Option<ShownSeat>,
}

impl<'a, C: BookName, R: Wait> RecordingListener<'a, C, R> {
    /// A listener of a port, of which others are made.
    pub(crate) fn new(
        rt: &'a R,
        kept: &'a Mutex<ListenerRecord<C>>,
        bound: BoundPort<'a, R>,
    ) -> RecordingListener<'a, C, R> {
        RecordingListener {
            rt,
            kept,
            bound,
            seat: None,
        }
    }
}

impl<'a, C: BookName, R> Listen<ShownSeat> for RecordingListener<'a, C, R>
where
    R: Net<Listener = TcpListener, Stream = TcpStream> + Wait + Clock,
{
    ghost use Rattle.std.specs.Prelude.{◌≡◌, [], Some};
    ghost use Rattle.std.specs.Io.KnownBytes.{Appends};
    ghost use Rattle.command_ends.specs.Network.{AreNew};
    ghost use Rattle.command_ends.specs.Printing.{listening_line};
    ghost use Rattle.shared_calls.specs.Sharing.{onward};
    ghost use Rattle.commands.specs.Serve.{IsServedTo};
    ghost use Rattle.server_cases.specs.History.{IsListenerRecord, case_options};

    type Reader = CountedEnd<TcpStream>;

    type Writer = SocketWriter<'a, R>;

    ghost listens = { λ _ _ _ _ _. Unit {0} };

    ghost shares = { λ _ _ _. Unit {0} };

    ghost handed = { λ keeping. keeping.bound.port.handed };

    ghost accepts = { λ _ _ _. Unit {0} };

    ghost closes = { λ _ _. Unit {0} };

    ghost port_of = { λ keeping. keeping.bound.number };

    ghost at_rest = { λ _. Unit {0} };

    // Nothing was read from it yet, and nothing was written to it.
    ghost holds = { λ _ made. AreNew made };

    ghost rests = { λ keeping seat. IsListenerRecord keeping.seat seat };

    ghost cell = { λ _ seat. seat.book ≡ C.book };

    // The line of the port is all that its output holds.
    ghost due = { λ _ port held. Appends (Some []) held (listening_line port) };

    ghost owed = { IsServedTo onward case_options };

    fn listen(&mut self, _port: u16, _idle: u16) -> io::Result<u16> {
        Ok(self.bound.number)
    }

    fn share(&mut self) -> io::Result<Self> {
        Ok(RecordingListener {
            rt: self.rt,
            kept: self.kept,
            bound: self.bound.share()?,
            seat: None,
        })
    }

    fn accept(
        &mut self,
        announced: &PortLine,
        seat: &ShownSeat,
    ) -> Result<(CountedEnd<TcpStream>, SocketWriter<'a, R>), AcceptFailure> {
        self.seat = Some(seat.again());
        self.kept.lock(self.rt).history.add(seat);
        let ends = self.bound.accept(announced, seat)?;
        if self.kept.lock(self.rt).give_one() {
            return Ok(ends);
        }
        Err(AcceptFailure::Broken)
    }

    fn done(
        &mut self,
        reader: CountedEnd<TcpStream>,
        writer: SocketWriter<'a, R>,
        seat: &ShownSeat,
    ) {
        self.seat = Some(seat.again());
        self.kept.lock(self.rt).history.add(seat);
        self.bound.done(reader, writer, seat);
    }
}
