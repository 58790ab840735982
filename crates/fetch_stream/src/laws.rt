//! What holds of all streams. Each function here has an empty body: its contract is a law.

ghost use Rattle.fetch_stream.specs.Streams.{StreamsAnswer};

/// What a stream has given, call by call, answers its handle: at its end whole, and else a
/// beginning.
pub fn streams_answer()
    ensures { StreamsAnswer }
{}
