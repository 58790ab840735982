//! Laws of connections. Each function here does nothing: its contract is a law.

ghost use Rattle.flight_calls.specs.Joining.{LaterCallsSee, SeatsMeetJoined};
ghost use Rattle.flight_calls.specs.Laws.{FailedReadsAnswerAll, NewConnectionsAreWhole};
ghost use Rattle.flight_calls.specs.Laws.{PutsAreMade, AnswersAreARun};
ghost use Rattle.flight_calls.specs.Laws.{ServedMeetsHeadline, AllKeptAsksNothing};

use flight_core::Backend;
pub use flight_core::laws::joined;
use flight_core::laws::runs_meet_headline;

/// Where a read failed, a server has answered each whole call that came before, over any backend.
pub fn failed_reads_answer_all<B: Backend>()
    ensures { FailedReadsAnswerAll B.moves }
{}

/// Of a connection that was new, all bytes that its reads gave are those of its whole calls and of
/// a rest, and all bytes that it holds are a beginning of what is owed for them, over any backend.
pub fn new_connections_are_whole<B: Backend>()
    ensures { NewConnectionsAreWhole B.moves }
{}

/// A connection makes the accepted puts and the marks of its whole calls, in order, and no other
/// entry but the marks of expiries that the server asks of itself, over any backend.
pub fn puts_are_made<B: Backend>()
    ensures { PutsAreMade B.moves }
{}

/// The answers of a connection that shares its log with none are a run of the core on what its
/// calls and the server ask.
pub fn answers_are_a_run()
    ensures { AnswersAreARun }
{}

/// Where all versions are kept the server asks nothing of itself.
pub fn all_kept_asks_nothing()
    ensures { AllKeptAsksNothing }
{}

/// What becomes of a connection that begins with the empty log meets the headline: so it holds of
/// what `serve_alone` reads and writes.
pub fn served_meets_headline()
    ensures { ServedMeetsHeadline }
{
    runs_meet_headline();
}

/// What a call leaves is where every later call of the connection starts, but for a put or an
/// expiry that was read, over any backend.
pub fn later_calls_see<B: Backend>()
    ensures { LaterCallsSee B.moves }
{}

/// If every endpoint of an info was fetched to its end, over any connections whose seats all learnt
/// of one log that is no shorter than the info's, the streams joined are the rows that were wanted,
/// on the tables as they stood then.
pub fn seats_meet_joined<B: Backend>()
    ensures { SeatsMeetJoined B.moves }
{
    joined();
}
