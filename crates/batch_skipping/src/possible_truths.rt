//! Sets of truths.

ghost use Rattle.std.specs.Prelude.{◌≡◌, ◌||◌};
ghost use Rattle.scan_base.specs.Truth.{truth_and, truth_or, truth_not, truth_is, negated_if};
ghost use Rattle.batch_skipping.specs.PossibleTruths.{only, over, over_both};

use scan_base::Truth;

/// A set of truths: those that a predicate may have in a row of a batch.
#[derive(Clone, Copy, Debug, PartialEq, Eq)]
pub struct PossibleTruths {
    pub can_true: bool,
    pub can_false: bool,
    pub can_unknown: bool,
}

impl PossibleTruths {
    /// The set of one truth.
    pub fn only(truth: Truth) -> PossibleTruths
        ensures { result ≡ only truth }
    {
        match truth {
            Truth::True => PossibleTruths {
                can_true: true,
                can_false: false,
                can_unknown: false,
            },
            Truth::False => PossibleTruths {
                can_true: false,
                can_false: true,
                can_unknown: false,
            },
            Truth::Unknown => PossibleTruths {
                can_true: false,
                can_false: false,
                can_unknown: true,
            },
        }
    }

    /// What NOT gives of the truths.
    #[tactic(auto, unfolding(crate::specs::PossibleTruths::over))]
    pub fn not(self) -> PossibleTruths
        ensures { result ≡ over truth_not self }
    {
        PossibleTruths {
            can_true: self.can_false,
            can_false: self.can_true,
            can_unknown: self.can_unknown,
        }
    }

    // Whether there is a truth in the set.
    fn is_some(self) -> bool
        ensures { result ≡ (self.can_true || (self.can_false || self.can_unknown)) }
    {
        self.can_true | (self.can_false | self.can_unknown)
    }

    /// What AND gives of a truth of each.
    #[tactic(auto, unfolding(crate::specs::PossibleTruths::over_both))]
    pub fn and(self, other: PossibleTruths) -> PossibleTruths
        ensures { result ≡ over_both truth_and self other }
    {
        PossibleTruths {
            can_true: self.can_true & other.can_true,
            can_false: self.can_false & other.is_some() | self.is_some() & other.can_false,
            can_unknown: self.can_true & other.can_unknown
                | self.can_unknown & (other.can_true | other.can_unknown),
        }
    }

    /// What OR gives of a truth of each.
    #[tactic(auto, unfolding(crate::specs::PossibleTruths::over_both))]
    pub fn or(self, other: PossibleTruths) -> PossibleTruths
        ensures { result ≡ over_both truth_or self other }
    {
        PossibleTruths {
            can_true: self.can_true & other.is_some() | self.is_some() & other.can_true,
            can_false: self.can_false & other.can_false,
            can_unknown: self.can_false & other.can_unknown
                | self.can_unknown & (other.can_false | other.can_unknown),
        }
    }

    /// What `IS tested` gives of the truths.
    #[tactic(auto, unfolding(crate::specs::PossibleTruths::over))]
    pub fn is(self, tested: Truth) -> PossibleTruths
        ensures { result ≡ over (λ x. truth_is x tested) self }
    {
        match tested {
            Truth::True => PossibleTruths {
                can_true: self.can_true,
                can_false: self.can_false || self.can_unknown,
                can_unknown: false,
            },
            Truth::False => PossibleTruths {
                can_true: self.can_false,
                can_false: self.can_true || self.can_unknown,
                can_unknown: false,
            },
            Truth::Unknown => PossibleTruths {
                can_true: self.can_unknown,
                can_false: self.can_true || self.can_false,
                can_unknown: false,
            },
        }
    }

    /// What NOT gives of the truths, where one is written.
    #[tactic(auto, unfolding(crate::specs::PossibleTruths::over))]
    pub fn not_if(self, negated: bool) -> PossibleTruths
        ensures { result ≡ over (negated_if negated) self }
    {
        if negated { self.not() } else { self }
    }
}
