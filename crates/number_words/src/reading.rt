//! Reading numbers.

ghost use Rattle.std.specs.Prelude.{◌≡◌, IfSome, IsTrue};
ghost use Rattle.arrow_types.specs.DataType.{cell_of};
ghost use Rattle.number_words.specs.Dates.{day_in};
ghost use Rattle.number_words.specs.NumberTexts.{number_read, number_said};
ghost use Rattle.number_words.specs.WholeNumbers.{holds};

use crate::day_in;
use crate::moment::{time_said, timestamp_in};
use crate::whole_number::{decimal_in, kept_in};
use arrow_types::NumberType;

/// The number that a text says in a type, if a cell of the type holds it. It takes no memory.
pub fn read(kind: NumberType, text: &str) -> Option<i128>
    ensures value { result ≡ number_read kind text.now }
    ensures held { IfSome result (λ number. IsTrue (holds (cell_of kind) number)) }
{
    kept_in(kind.cell(), number_said(kind, text))
}

// The number that a text says: a day, a moment or a time in its unit, or a whole number.
fn number_said(kind: NumberType, text: &str) -> Option<i128>
    ensures { result ≡ number_said kind text.now }
{
    match kind {
        NumberType::Date => day_said(text),
        NumberType::Timestamp(unit, zoned) => timestamp_in(unit, zoned, text),
        NumberType::Time(unit) => time_said(unit, text),
        NumberType::Integer(_) | NumberType::Decimal | NumberType::Duration(_) => decimal_in(text),
    }
}

// The number of the day that a text says.
fn day_said(text: &str) -> Option<i128>
    ensures { result ≡ day_in text.now }
{
    match day_in(text) {
        Some(day) => Some(i128::from(day)),
        None => None,
    }
}
