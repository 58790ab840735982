//! The limits of tables and of their versions.

/// The most bytes of a text value.
pub const MAX_TEXT_BYTES: usize = 65_536;

/// The most rows of a table.
pub const MAX_ROWS: usize = 16_777_216;

/// The most tables of a version.
pub const MAX_TABLES: usize = 256;

/// The most versions above the floor.
pub const MAX_COMMITS: u64 = 65_536;
