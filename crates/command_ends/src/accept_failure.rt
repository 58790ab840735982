//! Why an accept took no connection.

/// Why an accept took no connection.
#[derive(Clone, Copy, Debug, PartialEq, Eq)]
pub enum AcceptFailure {
    /// What kept it from a connection may pass: no descriptor or no memory was free, or the client
    /// was gone.
    MayPass,
    /// The listener itself is broken: it takes no connection any more.
    Broken,
}
