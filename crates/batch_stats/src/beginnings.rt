//! How texts begin.

ghost use Rattle.std.specs.Prelude.{◌≡◌, IfSome};
ghost use Rattle.batch_stats.specs.Beginnings.{AreBeginnings};
ghost use Rattle.batch_stats.specs.Sides.{side_at};
ghost use Rattle.batch_stats.specs.Stats.{StatsAt};

use crate::side::Side;
use scan_base::ValueRef;

/// The first bytes of a text, and whether they are all of it.
#[derive(Clone, Copy, Drop)]
pub struct Beginning<'a> {
    pub first: &'a str,
    pub is_whole: bool,
}

/// How the least and the greatest of some texts begin, and how many values next to them are null.
#[derive(Clone, Copy, Drop)]
pub struct Beginnings<'a> {
    pub least: Beginning<'a>,
    pub greatest: Beginning<'a>,
    pub nulls: usize,
}

impl<'a> Beginnings<'a> {
    // What the texts are between, where both are whole.
    #[tactic(auto, using(crate::proofs::Begun::whole_stats))]
    pub(crate) fn whole(self) -> Option<Side<'a>>
        ensures { IfSome result
            (λ side. (stats : StatsAt) → AreBeginnings self.entry stats → stats ≡ side_at side) }
    {
        if self.least.is_whole && self.greatest.is_whole {
            let least = ValueRef::Text(self.least.first);
            Some(Side::between(least, ValueRef::Text(self.greatest.first), self.nulls))
        } else {
            None
        }
    }
}
