//! How often long work looks at its client: each number that says it, once. An answer is the same
//! for any of them: contracts use only that a piece has no more rows than a batch.
//!
//! Rows are looked at in pieces. They count, by what each costs, and as many as are a turn end it
//! after the piece in hand. Between two turns the client is looked at, or a worker takes up what
//! has become due.

/// A turn looks at so many rows, as they count, and after them at the rest of the piece in hand. To
/// look at the client costs system calls, so a piece alone does not end a turn.
pub const TURN_ROWS: usize = 1_048_576;

/// A piece has at most so many rows, or groups, since nobody is asked within one. What filters let
/// through of a piece is one batch, which has no more.
pub const MOST_PIECE_ROWS: usize = 65_536;

/// Filters make at most so many comparisons in a piece, unless it has the fewest rows: some tenths
/// of a second where each takes long.
pub const PIECE_COMPARISONS: usize = 4_194_304;

/// Where filters compare more often for a row, a piece has fewer than `MOST_PIECE_ROWS`.
pub const ROW_COMPARISONS: usize = PIECE_COMPARISONS / MOST_PIECE_ROWS;

/// A piece has at least so many rows, if so many are there, and fewer count as so many: to begin
/// with a batch costs something too.
pub const LEAST_PIECE_ROWS: usize = 64;

/// A piece has at most so many rows where they are grouped: those that are chosen, and their
/// groups, lie in a near cache.
pub const GROUPED_ROWS: usize = 16_384;

/// As so many rows each comparison counts that is judged by the statistics of a batch.
pub const JUDGED_ROWS: usize = 64;

/// A place of so few rows is joined or grouped in no time that shows: nothing is written before.
pub const FEW_ROWS: usize = 64;

/// A worker makes rows ahead for at most so many pieces in a turn, and for one at least. Between
/// two of its turns it looks at what is due first.
pub const TURN_PIECES: usize = 8;

/// A reader passes so many morsels without a row in a turn. A piece of each has patience for as
/// many parts of the turn's rows.
pub const TURN_MORSELS: usize = 16;
