//! The laws of numbers and their texts. The contracts are the laws.

ghost use Rattle.std.specs.Prelude.{◌≡◌};
ghost use Rattle.number_words.specs.DateText.{TextsAreDates};
ghost use Rattle.number_words.specs.NumberTexts.{ReadsBack, day_number, types_tried};
ghost use Rattle.number_words.specs.declared.words.TheConstants.{TYPES_TRIED};

use crate::calendar::date_of;
use crate::moment::day_at;
use arrow_types::NumberType;

/// What is printed of a number reads as that number, if it fits its type and a text may say it.
pub fn shown_reads_back(kind: NumberType, number: i128)
    ensures { ReadsBack kind number }
{
    let _date = date_of(day_number(kind, number));
}

// The day of a number.
fn day_number(kind: NumberType, number: i128) -> i128
    ensures { result ≡ day_number kind number }
{
    match kind {
        NumberType::Timestamp(unit, _) => day_at(unit, number),
        _ => number,
    }
}

/// The order in which types are tried is that of the definitions.
pub fn types_are_tried_in_order()
    ensures { TYPES_TRIED ≡ types_tried }
{}

/// A text that reads as a day is the date that is printed of it.
pub fn texts_are_dates()
    ensures { TextsAreDates }
{}
