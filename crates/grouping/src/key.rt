//! Where rows stand.

/// Where a row stands: the number of its batch, and its own in it.
#[derive(Clone, Copy, Drop)]
pub(crate) struct Place {
    pub(crate) batch: usize,
    pub(crate) row: u32,
}
