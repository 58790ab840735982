//! Laws. Each function here has an empty body: its contract is the law.

ghost use Rattle.grouping.specs.AnswerRows.{HeldAnswersAreGroups};

/// What the keys and the tallies of the groups of rows answer is what a plan that groups them says.
#[tactic(auto, using(crate::proofs::Held::held_answers))]
pub fn held_answers_are_groups()
    ensures { HeldAnswersAreGroups }
{}
