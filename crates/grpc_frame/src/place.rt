//! Where in a connection's stream the next record stands.

/// Where the next record stands. The place tells which records may come.
#[derive(Clone, Copy, Debug, PartialEq, Eq)]
pub enum Place {
    /// At a server, between two calls: an Open may come.
    BetweenCalls,
    /// At a server, after a call's Open: a Message or the End may come.
    InsideCall,
    /// At a client: a Message or a Status may come, each in an answer.
    InAnswer,
}
