//! What some values are between, and how many of them are null.

ghost use Rattle.std.specs.Prelude.{◌≡◌, [], ◌∷◌, Some};
ghost use Rattle.scan_base.specs.Value.{value_of};
ghost use Rattle.batch_stats.specs.Sides.{side_at};
ghost use Rattle.batch_stats.specs.Stats.{stats_of};

use scan_base::{Value, ValueRef};

/// The least and the greatest of some values that are not null.
#[derive(Clone, Copy, Drop)]
pub struct Ends<'a> {
    pub least: ValueRef<'a>,
    pub greatest: ValueRef<'a>,
}

/// What some values are between, where one is not null, and how many are null.
#[derive(Clone, Copy, Drop)]
pub struct Side<'a> {
    pub ends: Option<Ends<'a>>,
    pub nulls: usize,
}

impl<'a> Side<'a> {
    // Values between these two, and so many nulls.
    pub(crate) fn between(least: ValueRef<'a>, greatest: ValueRef<'a>, nulls: usize) -> Side<'a>
        ensures { side_at result ≡ record {
          ends = Some (value_of least.entry, value_of greatest.entry);
          nulls = nulls;
        } }
    {
        Side {
            ends: Some(Ends { least, greatest }),
            nulls,
        }
    }

    /// One value.
    pub fn of(value: &'a Value) -> Side<'a>
        ensures { side_at result ≡ stats_of (value.now ∷ []) }
    {
        match value.borrowed() {
            ValueRef::Null => Side {
                ends: None,
                nulls: 1,
            },
            value => Side {
                ends: Some(Ends {
                    least: value,
                    greatest: value,
                }),
                nulls: 0,
            },
        }
    }
}
