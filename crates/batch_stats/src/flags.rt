//! The statistics of columns of truth values.

ghost use Rattle.std.specs.Prelude.{◌≡◌, ◌≤◌, ◌+◌, length, get_or, false, Some};
ghost use Rattle.scan_base.specs.declared.value.Value.TheVariants.{Bool as Flag};
ghost use Rattle.arrays.specs.Bools.{AreBools};
ghost use Rattle.arrays.specs.Column.{ColumnAt};
ghost use Rattle.arrays.specs.Validity.{where_valid};
ghost use Rattle.arrays.specs.declared.layout.Layout.TheVariants.{Bools as BoolsLayout};
ghost use Rattle.batch_stats.specs.HeldStats.{ends_held, AreSlots, IsStatsOf};
ghost use Rattle.batch_stats.specs.inside.Slots.{ends_with};

use crate::stats::Stats;
use crate::validity::first_valid;
use arrays::Bools;

// The statistics of one truth value and of the slots `from` up to, not with, `to`: it ends where
// both are found.
fn with_flags(flag: bool, cells: &Bools<'_>, from: usize, to: usize) -> Stats
    requires stands { AreBools cells.now }
    requires within { to ≤ length (cells.now).values }
    ensures ends { (column : ColumnAt) → ends_held column result
        ≡ ends_with (Some (Flag flag, Flag flag)) (where_valid (cells.now).validity
        (λ place. Flag (get_or (cells.now).values place false))) from to }
    ensures slots { (column : ColumnAt) → AreSlots column result }
{
    for place in from..to {
        if cells.validity().is_valid(place) && cells.values().get(place) != flag {
            return Stats::Flags {
                least: false,
                greatest: true,
            };
        }
    }
    Stats::Flags {
        least: flag,
        greatest: flag,
    }
}

/// The statistics of `len` slots of truth values from `first` on.
pub(crate) fn flags_stats(cells: &Bools<'_>, first: usize, len: usize) -> Stats
    requires stands { AreBools cells.now }
    requires within { first + len ≤ length (cells.now).values }
    ensures { IsStatsOf (record { layout = BoolsLayout cells.now; first = first; len = len })
        result }
{
    let _count = cells.values().len();
    let to = first + len;
    let Some(start) = first_valid(cells.validity(), first, to) else {
        return Stats::Nulls;
    };
    with_flags(cells.values().get(start), cells, start + 1, to)
}
