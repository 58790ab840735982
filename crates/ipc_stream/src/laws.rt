//! What holds of all streams. Each function here has an empty body: its contract is a law.

ghost use Rattle.ipc_stream.specs.Laws.{AtMostOneList, ClaimsAreSaid, FramesAreEncapsulated};

/// A stream has at most one list of messages.
pub fn at_most_one_list()
    ensures { AtMostOneList }
{}

/// How many bytes of body a header claims is what its FlatBuffers table says.
pub fn claims_are_said()
    ensures { ClaimsAreSaid }
{}

/// A header that is written in IPC form, and a body after it, are a message of a stream.
pub fn frames_are_encapsulated()
    ensures { FramesAreEncapsulated }
{}
