//! What holds of all statuses, and of all streams. Each function here has an empty body: its
//! contract is a law.

ghost use Rattle.flight_client.specs.Laws.{StatusesTellFaults, StreamsHoldWhatIsSaid};

/// The code and the text of a status tell its fault.
pub fn statuses_tell_faults()
    ensures { StatusesTellFaults }
{}

/// A stream that ended with status 0 has just the schema and just the rows that its payloads say.
pub fn streams_hold_what_is_said()
    ensures { StreamsHoldWhatIsSaid }
{}
