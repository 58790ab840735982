//! The possible truths of comparisons of texts with one text. They are told by how the least and
//! the greatest of the texts begin.

ghost use Rattle.std.specs.Prelude.{◌≡◌, ◌∷◌, ◌++◌, [], ℕ, List, IfSome};
ghost use Rattle.std.specs.Cmp.Lexicographic.{slice_cmp};
ghost use Rattle.std.specs.Ordering.{nat_cmp};
ghost use Rattle.scan_base.specs.Value.{value_of};
ghost use Rattle.batch_skipping.specs.PredicateTruths.{can_be_null, can_compare, equal_between};
ghost use Rattle.batch_skipping.specs.PredicateTruths.{less_between};
ghost use Rattle.batch_skipping.specs.PredicateTruths.{of_sides};
ghost use Rattle.batch_skipping.specs.inside.TextStanding.{StandSo};
ghost use Rattle.batch_stats.specs.Beginnings.{AreBeginnings, AreFirst};
ghost use Rattle.batch_stats.specs.Stats.{StatsAt, stats_of};

use crate::possible_truths::PossibleTruths;
use batch_stats::{Beginning, Beginnings};
use scan_base::{Comparison, ValueRef};
use std::cmp::Ordering;

// How the least and the greatest of some texts stand to one text, and how many values next to them
// are null.
#[derive(Clone, Copy, Drop)]
pub(crate) struct TextStanding {
    pub(crate) least: Ordering,
    pub(crate) greatest: Ordering,
    pub(crate) nulls: usize,
}

// How a longer text that begins so stands to another, where its first bytes tell: it may be
// anything to one that goes on after all of them.
fn cut_order(first: &str, text: &str) -> Option<Ordering>
    ensures { IfSome result (λ order. (next : ℕ) (rest : List ℕ) →
        order ≡ slice_cmp nat_cmp (first.now ++ next ∷ rest) text.now) }
{
    if first.cmp(text).is_ge() {
        return Some(Ordering::Greater);
    }
    if text.as_bytes().starts_with(first.as_bytes()) {
        return None;
    }
    Some(Ordering::Less)
}

// How a text that begins so stands to another, where its first bytes tell.
fn text_order(beginning: Beginning<'_>, text: &str) -> Option<Ordering>
    ensures { IfSome result (λ order. (whole : List ℕ) → AreFirst beginning.entry.first.now
        beginning.entry.is_whole whole → order ≡ slice_cmp nat_cmp whole text.now) }
{
    if beginning.is_whole {
        return Some(beginning.first.cmp(text));
    }
    cut_order(beginning.first, text)
}

impl TextStanding {
    // That of texts which begin so to a value, where this is a text and their first bytes tell.
    pub(crate) fn of(known: &Beginnings<'_>, value: ValueRef<'_>) -> Option<TextStanding>
        ensures { IfSome result (λ standing. (stats : StatsAt) → AreBeginnings known.now stats
            → StandSo standing stats (stats_of (value_of value.entry ∷ []))) }
    {
        let ValueRef::Text(text) = value else {
            return None;
        };
        let least = text_order(known.least, text)?;
        let greatest = text_order(known.greatest, text)?;
        Some(TextStanding {
            least,
            greatest,
            nulls: known.nulls,
        })
    }

    // The possible truths of a comparison of one of the texts with the one text.
    #[tactic(auto, unfolding(crate::specs::PredicateTruths::can_compare))]
    pub(crate) fn can_compare(self, comparison: Comparison) -> PossibleTruths
        ensures { (a b : StatsAt) → StandSo self a b → result ≡ can_compare comparison a b }
    {
        match comparison {
            Comparison::Equal => self.can_equal(),
            Comparison::NotEqual => self.can_equal().not(),
            Comparison::Less => self.can_be_less(),
            Comparison::Greater => self.can_be_greater(),
            Comparison::LessOrEqual => self.can_be_greater().not(),
            Comparison::GreaterOrEqual => self.can_be_less().not(),
        }
    }

    // The possible truths of a comparison of the one text with one of the texts: the literal stands
    // in front.
    #[tactic(auto, unfolding(crate::specs::PredicateTruths::can_compare), using(crate::proofs::Standings::equal_turned))]
    pub(crate) fn can_compare_turned(self, comparison: Comparison) -> PossibleTruths
        ensures { (a b : StatsAt) → StandSo self a b → result ≡ can_compare comparison b a }
    {
        match comparison {
            Comparison::Equal => self.can_equal(),
            Comparison::NotEqual => self.can_equal().not(),
            Comparison::Less => self.can_be_greater(),
            Comparison::Greater => self.can_be_less(),
            Comparison::LessOrEqual => self.can_be_less().not(),
            Comparison::GreaterOrEqual => self.can_be_greater().not(),
        }
    }

    // The possible truths of `=`.
    fn can_equal(self) -> PossibleTruths
        ensures { (a b : StatsAt) → StandSo self a b → result ≡ of_sides equal_between a b }
    {
        PossibleTruths {
            can_true: self.least.is_le() & self.greatest.is_ge(),
            can_false: self.least.is_ne() | self.greatest.is_ne(),
            can_unknown: self.nulls > 0,
        }
    }

    // The possible truths of `<`.
    fn can_be_less(self) -> PossibleTruths
        ensures { (a b : StatsAt) → StandSo self a b → result ≡ of_sides less_between a b }
    {
        PossibleTruths {
            can_true: self.least.is_lt(),
            can_false: self.greatest.is_ge(),
            can_unknown: self.nulls > 0,
        }
    }

    // The possible truths of `>`.
    fn can_be_greater(self) -> PossibleTruths
        ensures { (a b : StatsAt) → StandSo self a b → result ≡ of_sides less_between b a }
    {
        PossibleTruths {
            can_true: self.greatest.is_gt(),
            can_false: self.least.is_le(),
            can_unknown: self.nulls > 0,
        }
    }
}

// The possible truths of IS NULL of texts that begin so.
pub(crate) fn texts_can_be_null(known: &Beginnings<'_>) -> PossibleTruths
    ensures { (stats : StatsAt) → AreBeginnings known.now stats → result ≡ can_be_null stats }
{
    PossibleTruths {
        can_true: known.nulls > 0,
        can_false: true,
        can_unknown: false,
    }
}
