//! Ranges of rows, as even as they can be.

ghost use Rattle.std.specs.Prelude.{◌≡◌};
ghost use Rattle.endpoint_split.specs.Split.{ranges_of, IsPartition};

use arrayvec::ArrayVec;
use std::marker::Model;

/// Rows `from` up to, not with, `to`.
#[derive(Clone, Copy, Debug, Default, PartialEq, Eq)]
pub struct Range {
    pub from: u32,
    pub to: u32,
}

/// At most 64 ranges, held without memory. A contract sees their list.
#[derive(Drop)]
pub struct Ranges {
    all: ArrayVec<Range, 64>,
}

impl Model for Ranges {
    ghost use Rattle.std.specs.Prelude.{List};
    ghost use Rattle.endpoint_split.specs.declared.ranges.Range.{Range};

    ghost Value = { List Range };

    ghost view = { λ r. r.all.items };
}

impl Ranges {
    /// The ranges, in order.
    pub fn as_slice(&self) -> &[Range]
        ensures { result.now ≡ self.now }
    {
        self.all.as_slice()
    }
}

// The most endpoints of an info.
const MOST_ENDPOINTS: u32 = 64;

/// Cuts rows into as many ranges as there are parts, but no more than 64, nor than there are rows,
/// and at least one: range i of p is `i * rows / p` to `(i + 1) * rows / p`, rounded down. So of 0
/// parts, as of 1, it is one range of all rows. It takes no memory.
#[tactic(auto, unfolding(crate::specs::Split::ranges_of))]
pub fn split(rows: u32, parts: u32) -> Ranges
    ensures exact { result ≡ ranges_of rows parts }
    ensures partition { IsPartition 0 rows result }
{
    let count = u64::from(parts.min(MOST_ENDPOINTS).min(rows).max(1));
    let total = u64::from(rows);
    let mut all = ArrayVec::new();
    for i in 0..count {
        all.push(Range {
            from: (i * total / count) as u32,
            to: ((i + 1) * total / count) as u32,
        });
    }
    Ranges { all }
}
