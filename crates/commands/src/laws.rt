//! Laws of servers. Each function here does nothing: its contract is a law.

ghost use Rattle.commands.specs.New.{TakenAreWhole};
ghost use Rattle.commands.specs.Serve.{AcceptsThenCloses};
ghost use Rattle.commands.specs.ServerHeadline.{ServerMeetsHeadline};
ghost use Rattle.commands.specs.ToldHistory.{HistoryIsMarked, HistoryIsTold};
ghost use Rattle.commands.specs.ToldHistory.{PutsAreTold, WorkersMakeWhatIsTold};

use crate::shown_seat::ShownSeat;
use command_ends::Listen;
use flight_calls::laws::joined;

/// The headline for a server: if every endpoint of an info was fetched to its end, over any
/// connections that the workers of one `serve` took, in any order, the streams joined are the rows
/// that were wanted, on the tables as they stood when the info was given.
pub fn server_meets_headline<L: Listen<ShownSeat>>()
    ensures { ServerMeetsHeadline (AcceptsThenCloses L.accepts L.closes) }
{
    joined();
}

/// Where accepts give new connections, as those of sockets do: of each one that a worker took, all
/// bytes that its reads gave are its whole calls and a rest, and all bytes that it holds are a
/// beginning of what is owed for them.
pub fn taken_connections_are_whole<L: Listen<ShownSeat>>()
    ensures { TakenAreWhole L.accepts L.closes }
{}

/// Where all versions are kept, the seat of a worker made the entries that the calls of its
/// connections tell of, in order, and no other.
pub fn workers_make_what_is_told<L: Listen<ShownSeat>>()
    ensures { WorkersMakeWhatIsTold (AcceptsThenCloses L.accepts L.closes) }
{}

/// Where all versions are kept, the history of workers that were new is made up of the entries that
/// the calls of each worker's connections tell of, in their order, and of no other: one for each
/// put that was accepted, and one for each expiry that was done.
pub fn history_is_told<L: Listen<ShownSeat>>()
    ensures { HistoryIsTold (AcceptsThenCloses L.accepts L.closes) }
{}

/// However many versions are kept, the history of workers that were new is made up so of the
/// entries that calls tell of, and of no other: each put has right after it at most one mark
/// that the server asked of itself.
pub fn history_is_marked<L: Listen<ShownSeat>>()
    ensures { HistoryIsMarked (AcceptsThenCloses L.accepts L.closes) }
{}

/// However many versions are kept, the puts of the history of workers that were new are made up so
/// of those that calls tell of: one for each put that was accepted.
pub fn puts_are_told<L: Listen<ShownSeat>>()
    ensures { PutsAreTold (AcceptsThenCloses L.accepts L.closes) }
{}
