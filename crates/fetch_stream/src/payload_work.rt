//! How the payloads of a stream may be made.

use work_watch::pace::{ROW_COMPARISONS, TURN_PIECES};

// How the payloads of a stream may be made. Contracts see nothing of it: the answer is the same for
// any.
#[derive(Clone, Copy, Drop)]
pub(crate) struct Work {
    // How many workers may make them.
    pub(crate) workers: usize,
    // How many rows the range has.
    pub(crate) rows: usize,
    // How many comparisons all filters make for a row at most.
    pub(crate) comparisons: usize,
}

impl Work {
    // One worker makes them, of no row and without a filter.
    pub(crate) fn alone() -> Work {
        Work {
            workers: 1,
            rows: 0,
            comparisons: 0,
        }
    }

    // Whether the filters compare so much that a piece has fewer than 65,536 rows.
    pub(crate) fn compares_much(&self) -> bool {
        self.comparisons > ROW_COMPARISONS
    }

    // How many turns of a stream are one turn of making ahead. Each looks at a piece of rows. Where
    // filters compare more, they are fewer: all together make some 4,194,304 comparisons then, or
    // those of one piece.
    pub(crate) fn turns_ahead(&self) -> usize {
        (ROW_COMPARISONS / self.comparisons.max(1)).clamp(1, TURN_PIECES)
    }
}
