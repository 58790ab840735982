//! The day number of a date's text.

ghost use Rattle.std.specs.Prelude.{◌≡◌, ◌<◌, ◌+◌, ◌&&◌, IsTrue, length, pos};
ghost use Rattle.number_words.specs.Dates.{day_in, day_of, two_digits, four_digits, two_stand};
ghost use Rattle.number_words.specs.Dates.{is_date_form};

use jiff_core::civil::Date;

/// The day number of a date, where 1970-01-01 is 0: of a text of four digits, `-`, two digits, `-`
/// and two digits that is a date of the Gregorian calendar in the years 0001 to 9999. `None` for
/// any other text. It takes no memory.
pub fn day_in(text: &str) -> Option<i32>
    ensures { result ≡ day_in text.now }
{
    day_of_bytes(text.as_bytes())
}

/// The same of a text's bytes.
pub(crate) fn day_of_bytes(text: &[u8]) -> Option<i32>
    ensures { result ≡ day_in text.now }
{
    if !has_form(text) {
        return None;
    }
    day_number(year_in(text), month_in(text), day_of_month_in(text))
}

// The day number of a year, a month and a day, where the calendar of the years 1 to 9999 has it.
fn day_number(year: i16, month: i8, day: i8) -> Option<i32>
    ensures { result ≡ day_of year month day }
{
    if year < 1 {
        return None;
    }
    match Date::new(year, month, day) {
        Ok(date) => Some(date.to_unix_epoch_day()),
        Err(_) => None,
    }
}

// Whether four digits, -, two digits, - and two digits stand there, and no more.
fn has_form(text: &[u8]) -> bool
    ensures { result ≡ is_date_form text.now }
{
    text.len() == 10
        && ((two_stand(text, 0) && two_stand(text, 2))
            && (two_stand(text, 5) && two_stand(text, 8)))
        && (text[4] == b'-' && text[7] == b'-')
}

/// Whether two digits stand there, from one place on.
pub(crate) fn two_stand(text: &[u8], at: usize) -> bool
    requires { at + 1 < length text.now }
    ensures { result ≡ two_stand text.now at }
{
    text[at].is_ascii_digit() && text[at + 1].is_ascii_digit()
}

/// The number that two digits say, from one place on.
pub(crate) fn two_digits(text: &[u8], at: usize) -> u8
    requires within { at + 1 < length text.now }
    requires digits { IsTrue (two_stand text.now at) }
    ensures value { result ≡ two_digits text.now at }
    ensures small { result < 100 }
{
    10 * (text[at] - b'0') + (text[at + 1] - b'0')
}

// The year of a date.
fn year_in(text: &[u8]) -> i16
    requires { IsTrue (is_date_form text.now) }
    ensures { result ≡ pos (four_digits text.now 0) }
{
    i16::from(two_digits(text, 0)) * 100 + i16::from(two_digits(text, 2))
}

// The month of a date.
fn month_in(text: &[u8]) -> i8
    requires { IsTrue (is_date_form text.now) }
    ensures { result ≡ pos (two_digits text.now 5) }
{
    two_digits(text, 5) as i8
}

// The day of a date in its month.
fn day_of_month_in(text: &[u8]) -> i8
    requires { IsTrue (is_date_form text.now) }
    ensures { result ≡ pos (two_digits text.now 8) }
{
    two_digits(text, 8) as i8
}
