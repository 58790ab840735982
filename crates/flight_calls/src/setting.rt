//! How a server is set.

use std::alloc::Global;

/// How a server answers, where the calls leave it open.
#[derive(Clone, Copy, Debug, PartialEq, Eq)]
pub struct Options {
    /// In how many parts the rows of a query may be fetched: more than 64 are as 64, and none is as
    /// one.
    pub parts: u32,
    /// How many workers may scan for the answer to a fetch, which is the same for any number.
    pub workers: usize,
    /// How many versions are kept after an accepted put, the newest ones: the older ones are
    /// expired. 0 keeps all.
    pub keep: u64,
}

/// By what a server answers: where its memory comes from, who makes the payloads of a fetch, and
/// its options.
#[derive(Drop)]
pub struct Setting<'a, X> {
    pub alloc: Global,
    pub executor: &'a X,
    pub options: Options,
}
