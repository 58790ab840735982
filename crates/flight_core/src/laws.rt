//! What holds of all payloads, and of all runs. Each function here has an empty body: its contract
//! is a law.

ghost use Rattle.fetch_stream.specs.Fetches.{HandlesMeanOne};
ghost use Rattle.flight_core.specs.Headline.{Joined, RunsMeetHeadline};
ghost use Rattle.flight_core.specs.Laws.{AnswersSayOneThing, PutsAreSaid, RefusalsLeaveNothing};

pub use fetch_stream::laws::streams_answer;
use ipc_batch::laws::messages_say_one_thing;

/// The payloads of an answer say at most one schema and one list of rows.
pub fn answers_say_one_thing()
    ensures { AnswersSayOneThing }
{
    messages_say_one_thing();
}

/// A put is read of payloads exactly where they say it: the command in the first of them names its
/// table and its options, and all of them say its schema and its rows.
pub fn puts_are_said()
    ensures { PutsAreSaid }
{}

/// A refused event changes nothing: without it, the others are answered by the other replies.
pub fn refusals_leave_nothing()
    ensures { RefusalsLeaveNothing }
{}

/// A handle means at most one answer at a database.
pub fn handles_mean_one()
    ensures { HandlesMeanOne }
{}

/// For running threads: the streams of an info's handles, fetched at any seats that learnt of one
/// log that is no shorter than the info's, are the rows that were wanted, at the info's log.
pub fn joined()
    ensures { Joined }
{}

/// What answers a run meets the headline.
pub fn runs_meet_headline()
    ensures { RunsMeetHeadline }
{}
