//! Laws of the definitions that the contract of [`crate::parse`] cites. The functions do nothing:
//! their contracts are the laws.

ghost use Rattle.sql_parse.specs.Laws.{
  AtMostOneSentence,
  AtMostOneFault,
  AcceptedIsNotRefused,
  LimitsAreOfTheSentence,
  PassedForGood,
  FactoredSpellsTheSame,
};

/// A list of tokens says at most one sentence.
pub fn at_most_one_sentence()
    ensures { AtMostOneSentence }
{}

/// Tokens are refused with at most one fault.
pub fn at_most_one_fault()
    ensures { AtMostOneFault }
{}

/// Tokens that are accepted are not refused.
pub fn accepted_is_not_refused()
    ensures { AcceptedIsNotRefused }
{}

/// The tokens of a sentence pass no limit exactly where the sentence is within the limits: at most
/// 4 places, 64 items in its list, 64 columns in GROUP BY and 256 items in each IN, and each name
/// of at most 64 bytes.
pub fn limits_are_of_the_sentence()
    ensures { LimitsAreOfTheSentence }
{}

/// Tokens that pass a limit begin no sentence within the limits.
pub fn passed_for_good()
    ensures { PassedForGood }
{}

/// The factored productions, by which the parser reads with one token of look-ahead, spell the same
/// as the printed ones.
pub fn factored_spells_the_same()
    ensures { FactoredSpellsTheSame }
{}
