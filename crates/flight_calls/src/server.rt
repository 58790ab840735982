//! Serving a connection.

ghost use Rattle.std.specs.Prelude.{◌≡◌, []};
ghost use Rattle.grpc_frame.specs.Ends.{CanFail};
ghost use Rattle.flight_core.specs.Seats.{Seat, seat_of, alone};
ghost use Rattle.flight_calls.specs.OwedAnswers.{Serves, connection_of};
ghost use Rattle.flight_calls.specs.Ending.{RefusesBy};

use crate::answer::{write_answer, write_last_status};
use crate::call::{Arrival, read_call};
use crate::setting::Setting;
use fetch_stream::Executor;
use flight_core::{Backend, Plain, PlainBackend};
use grpc_frame::{Inbox, Input, Output, Sender};
use scan_base::{Fault, HashSeed};

/// Serves a connection over a backend: answers its calls one after another, up to the end of its
/// input.
///
/// An answer is begun once the call's End has come, and is written before the next call is looked
/// at. Of a fetch each payload is sent before the next one is made. A fault of a call is its
/// answer, and the connection goes on.
///
/// # Errors
///
/// - `Fault::BadFrame` (F1) and `Fault::MessageTooLarge` (F2) where a record is faulty, and
///   `Fault::OutOfMemory` (F21) where memory is refused while a piece of input is taken in. The
///   fault's Status is written.
/// - `Fault::Transport` (F22) where a read or a write failed, and where the input ended inside a
///   call.
///
/// Nothing is done for a call whose End has not come. Where only the writing of an answer failed,
/// its call was done: a put that was accepted stands.
pub fn serve<R: Input, W: Output, B: Backend, X: Executor>(
    setting: &Setting<'_, X>,
    reader: &mut R,
    writer: &mut W,
    backend: &mut B,
) -> Result<(), Fault>
    requires reads { CanFail (R.failures reader.old) }
    requires writes { CanFail (W.failures writer.old) }
    ensures { Serves B.moves setting.now.options result
        (connection_of (R.tape reader.old) (W.contents writer.old)
        (R.failures reader.old) (W.failures writer.old) (B.seat backend.old))
        (connection_of (R.tape reader.new) (W.contents writer.new)
        (R.failures reader.new) (W.failures writer.new) (B.seat backend.new)) }
{
    let mut sender = Sender::new(setting.alloc, writer);
    let ended = serve_calls(setting, reader, &mut sender, backend);
    sender.end();
    ended
}

// Serves the calls of a connection.
fn serve_calls<R: Input, W: Output, B: Backend, X: Executor>(
    setting: &Setting<'_, X>,
    reader: &mut R,
    sender: &mut Sender<'_, W>,
    backend: &mut B,
) -> Result<(), Fault>
    requires reads { CanFail (R.failures reader.old) }
    requires writes { CanFail sender.old.failures }
    requires empty { sender.old.waiting ≡ [] }
    ensures serves { Serves B.moves setting.now.options result
        (connection_of (R.tape reader.old) sender.old.held
        (R.failures reader.old) sender.old.failures (B.seat backend.old))
        (connection_of (R.tape reader.new) sender.new.held
        (R.failures reader.new) sender.new.failures (B.seat backend.new)) }
    ensures writer { sender.new.writer ≡ sender.old.writer }
{
    let alloc = setting.alloc;
    let mut inbox = Inbox::of_server(alloc);
    loop {
        let request = match read_call(alloc, &mut inbox, reader) {
            Ok(Arrival::Whole(request)) => request,
            Ok(Arrival::Nothing) => return Ok(()),
            Ok(Arrival::CutShort) => return Err(Fault::Transport),
            Err(fault) => return refuse(sender, fault),
        };
        let answer = request.answer(alloc, backend, setting.options);
        let Ok(()) = write_answer(setting, sender, answer) else {
            return Err(Fault::Transport);
        };
    }
}

/// Serves a connection on a catalog of its own, which is empty at first. Hashes of its values begin
/// with the seed.
///
/// # Errors
///
/// Those of `serve`, and `Fault::OutOfMemory` (F21) where memory for the catalog is refused.
pub fn serve_alone<R: Input, W: Output, X: Executor>(
    setting: &Setting<'_, X>,
    seed: HashSeed,
    reader: &mut R,
    writer: &mut W,
) -> Result<(), Fault>
    requires reads { CanFail (R.failures reader.old) }
    requires writes { CanFail (W.failures writer.old) }
    ensures { (seat : Seat) × Serves alone setting.now.options result
        (connection_of (R.tape reader.old) (W.contents writer.old)
        (R.failures reader.old) (W.failures writer.old) (seat_of [] 0))
        (connection_of (R.tape reader.new) (W.contents writer.new)
        (R.failures reader.new) (W.failures writer.new) seat) }
{
    match Plain::new(setting.alloc, seed) {
        Ok(plain) => serve(setting, reader, writer, &mut PlainBackend::new(plain)),
        Err(fault) => {
            let mut sender = Sender::new(setting.alloc, writer);
            let ended = refuse(&mut sender, fault);
            sender.end();
            ended
        }
    }
}

// Says why the connection ends, where its transport has not failed.
fn refuse<W: Output>(sender: &mut Sender<'_, W>, fault: Fault) -> Result<(), Fault>
    requires writes { CanFail sender.old.failures }
    requires empty { sender.old.waiting ≡ [] }
    ensures refuses { RefusesBy fault result sender.old.held sender.new.held
        sender.old.failures sender.new.failures }
    ensures writer { sender.new.writer ≡ sender.old.writer }
{
    if fault == Fault::Transport {
        return Err(fault);
    }
    write_last_status(sender, fault)?;
    Err(fault)
}
