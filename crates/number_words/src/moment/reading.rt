//! The moment, or the time of a day, that a text says.

ghost use Rattle.std.specs.Prelude.{◌≡◌, ◌≤◌, ◌<◌, ◌<ℤ◌, ◌≤ℤ◌, IfSome, IsTrue, drop};
ghost use Rattle.std.specs.Prelude.{neg_ℤ, pos};
ghost use Rattle.std.specs.Char.{is_ascii_digit};
ghost use Rattle.std.specs.List.{list_all};
ghost use Rattle.number_words.specs.Dates.{two_digits};
ghost use Rattle.number_words.specs.Moments.{clock_in, digit_at, ends_with_zone, fraction_in};
ghost use Rattle.number_words.specs.Moments.{has_time, in_unit, is_clock_form, is_fraction_form};
ghost use Rattle.number_words.specs.Moments.{is_more_form, zeptos_said, moment_in};
ghost use Rattle.number_words.specs.Moments.{moment_of, more_in, nanos_in, seconds_of, stamp_in};
ghost use Rattle.number_words.specs.Moments.{three_digits, time_in, time_said, time_zeptos};
ghost use Rattle.number_words.specs.Moments.{timestamp_in, whole_in, moment_zeptos};
ghost use Rattle.number_words.specs.Moments.{zeptos_of};

use crate::calendar::{day_of_bytes, two_digits, two_stand};
use arrow_types::TimeUnit;

/// The timestamp that a text says, if it is a whole number of the unit. A zone is said by a `Z`. It
/// takes no memory.
pub(crate) fn timestamp_in(unit: TimeUnit, zoned: bool, text: &str) -> Option<i128>
    ensures { result ≡ timestamp_in unit zoned text.now }
{
    in_unit(unit, stamp_in(zoned, text.as_bytes()))
}

/// The time of a day that a text says, if it is a whole number of the unit. It takes no memory.
pub(crate) fn time_said(unit: TimeUnit, text: &str) -> Option<i128>
    ensures { result ≡ time_said unit text.now }
{
    in_unit(unit, time_in(text.as_bytes()))
}

// A moment in a unit, if it is a whole number of it.
fn in_unit(unit: TimeUnit, nanos: Option<i128>) -> Option<i128>
    ensures { result ≡ in_unit unit nanos }
{
    whole_in(nanos_in(unit), nanos?)
}

// How many of a size a number is, if it is a whole number of them.
fn whole_in(size: i128, number: i128) -> Option<i128>
    requires { pos 0 <ℤ size }
    ensures { result ≡ whole_in size number }
{
    if number.rem_euclid(size).unsigned_abs() == 0 {
        Some(number.div_euclid(size))
    } else {
        None
    }
}

// How many nanoseconds a unit has.
fn nanos_in(unit: TimeUnit) -> i128
    ensures value { result ≡ pos (nanos_in unit) }
    ensures some { pos 0 <ℤ result }
{
    match unit {
        TimeUnit::Second => 1_000_000_000,
        TimeUnit::Millisecond => 1_000_000,
        TimeUnit::Microsecond => 1_000,
        TimeUnit::Nanosecond => 1,
    }
}

/// The zeptoseconds, of which a second has 10^21, from 1970-01-01 00:00:00 to the moment that the
/// text of a literal says. A `Z` may end it. It takes no memory.
pub fn zeptos_said(text: &str) -> Option<i128>
    ensures { result ≡ zeptos_said text.now }
{
    let text = text.as_bytes();
    if ends_with_zone(text) {
        moment_zeptos(&text[..text.len() - 1])
    } else {
        moment_zeptos(text)
    }
}

// The zeptoseconds from then to the moment that a text without a zone says.
fn moment_zeptos(text: &[u8]) -> Option<i128>
    ensures { result ≡ moment_zeptos text.now }
{
    if text.len() <= 29 {
        zeptos_of(moment_in(text), Some(0))
    } else {
        zeptos_of(moment_in(&text[..29]), more_in(&text[28..]))
    }
}

/// The zeptoseconds, of which a second has 10^21, from the beginning of a day to the time that the
/// text of a literal says. It takes no memory.
pub fn time_zeptos(text: &str) -> Option<i128>
    ensures { result ≡ time_zeptos text.now }
{
    let text = text.as_bytes();
    if text.len() <= 18 {
        zeptos_of(time_in(text), Some(0))
    } else {
        zeptos_of(time_in(&text[..18]), more_in(&text[17..]))
    }
}

// The zeptoseconds of nanoseconds and more.
fn zeptos_of(nanos: Option<i128>, more: Option<u64>) -> Option<i128>
    requires { IfSome nanos (λ nanos. (neg_ℤ (pos 1000000000000000000000000) ≤ℤ nanos)
        × (nanos ≤ℤ pos 1000000000000000000000000)) }
    ensures { result ≡ zeptos_of nanos more }
{
    match (nanos, more) {
        (Some(nanos), Some(more)) => Some(nanos * 1_000_000_000_000 + i128::from(more)),
        (_, _) => None,
    }
}

// The zeptoseconds that the digits after the ninth of a fraction say, in a text from the ninth on.
#[tactic(auto, using(crate::proofs::MomentForms::more_digits), unfolding(crate::specs::Moments::more_in))]
fn more_in(text: &[u8]) -> Option<u64>
    ensures { result ≡ more_in text.now }
{
    if is_more_form(text) {
        let low = 1_000 * three_digits(text, 7) + three_digits(text, 10);
        let high = 1_000 * three_digits(text, 1) + three_digits(text, 4);
        Some(1_000_000 * u64::from(high) + u64::from(low))
    } else {
        None
    }
}

// Whether up to 12 digits stand there after the first byte.
fn is_more_form(text: &[u8]) -> bool
    ensures { result ≡ is_more_form text.now }
{
    match text {
        [] => true,
        [_, digits @ ..] => digits.len() <= 12 && are_digits(digits),
    }
}

// The moment of a text with a zone, or of one without.
fn stamp_in(zoned: bool, text: &[u8]) -> Option<i128>
    ensures { result ≡ stamp_in zoned text.now }
{
    if !zoned {
        moment_in(text)
    } else if ends_with_zone(text) {
        moment_in(&text[..text.len() - 1])
    } else {
        None
    }
}

// Whether a text ends with `Z`.
fn ends_with_zone(text: &[u8]) -> bool
    ensures { result ≡ ends_with_zone text.now }
{
    text.len() >= 1 && text[text.len() - 1] == b'Z'
}

// Whether a text has room for a date and a clock, with a space between them.
fn has_time(text: &[u8]) -> bool
    ensures { result ≡ has_time text.now }
{
    text.len() >= 19 && text[10] == b' '
}

// The nanoseconds from 1970-01-01 00:00:00 to the moment that a text says.
#[tactic(auto, unfolding(crate::specs::Moments::moment_in))]
fn moment_in(text: &[u8]) -> Option<i128>
    ensures value { result ≡ moment_in text.now }
    ensures near { IfSome result (λ nanos. (neg_ℤ (pos 1000000000000000000000000) ≤ℤ nanos)
        × (nanos ≤ℤ pos 1000000000000000000000000)) }
{
    if has_time(text) {
        moment_of(
            day_of_bytes(&text[..10]),
            clock_in(&text[11..19]),
            fraction_in(&text[19..]),
        )
    } else {
        None
    }
}

// The nanoseconds since a day began that a text says.
#[tactic(auto, unfolding(crate::specs::Moments::time_in))]
fn time_in(text: &[u8]) -> Option<i128>
    ensures value { result ≡ time_in text.now }
    ensures near { IfSome result (λ nanos. (neg_ℤ (pos 1000000000000000000000000) ≤ℤ nanos)
        × (nanos ≤ℤ pos 1000000000000000000000000)) }
{
    if text.len() >= 8 {
        moment_of(Some(0), clock_in(&text[..8]), fraction_in(&text[8..]))
    } else {
        None
    }
}

// The nanoseconds from 1970-01-01 00:00:00 to a day, seconds of it, and nanoseconds of a second.
fn moment_of(day: Option<i32>, seconds: Option<u32>, nanos: Option<u32>) -> Option<i128>
    ensures value { result ≡ moment_of day seconds nanos }
    ensures near { IfSome result (λ nanos. (neg_ℤ (pos 1000000000000000000000000) ≤ℤ nanos)
        × (nanos ≤ℤ pos 1000000000000000000000000)) }
{
    match (day, seconds, nanos) {
        (Some(day), Some(seconds), Some(nanos)) => {
            let time = u64::from(seconds) * 1_000_000_000 + u64::from(nanos);
            Some(i128::from(day) * 86_400_000_000_000 + i128::from(time))
        }
        (_, _, _) => None,
    }
}

// The seconds of a day that a text says.
#[tactic(auto, unfolding(crate::specs::Moments::clock_in))]
fn clock_in(text: &[u8]) -> Option<u32>
    ensures { result ≡ clock_in text.now }
{
    if is_clock_form(text) {
        clock_of(text)
    } else {
        None
    }
}

// The seconds of a day that a text of this form says.
fn clock_of(text: &[u8]) -> Option<u32>
    requires { IsTrue (is_clock_form text.now) }
    ensures { result ≡ seconds_of (two_digits text.now 0) (two_digits text.now 3)
        (two_digits text.now 6) }
{
    let hour = two_digits(text, 0);
    let minute = two_digits(text, 3);
    let second = two_digits(text, 6);
    seconds_of(hour, minute, second)
}

// Whether two digits, :, two digits, : and two digits stand there, and no more.
fn is_clock_form(text: &[u8]) -> bool
    ensures { result ≡ is_clock_form text.now }
{
    text.len() == 8
        && (two_stand(text, 0) && (two_stand(text, 3) && two_stand(text, 6)))
        && (text[2] == b':' && text[5] == b':')
}

// The seconds of a day of 24 hours of 60 minutes of 60 seconds.
fn seconds_of(hour: u8, minute: u8, second: u8) -> Option<u32>
    ensures { result ≡ seconds_of hour minute second }
{
    if hour < 24 && minute < 60 && second < 60 {
        Some(3_600 * u32::from(hour) + (60 * u32::from(minute) + u32::from(second)))
    } else {
        None
    }
}

// The nanoseconds that a fraction of a second says.
#[tactic(auto, using(crate::proofs::MomentForms::fraction_digits), unfolding(crate::specs::Moments::fraction_in))]
fn fraction_in(text: &[u8]) -> Option<u32>
    ensures { result ≡ fraction_in text.now }
{
    if is_fraction_form(text) {
        let micros = 1_000 * three_digits(text, 4) + three_digits(text, 7);
        Some(1_000_000 * three_digits(text, 1) + micros)
    } else {
        None
    }
}

// Whether no byte stands there, or a point and 1 to 9 digits.
fn is_fraction_form(text: &[u8]) -> bool
    ensures { result ≡ is_fraction_form text.now }
{
    match text {
        [] => true,
        [first, digits @ ..] => {
            *first == b'.' && ((1 <= digits.len() && digits.len() <= 9) && are_digits(digits))
        }
    }
}

// Whether each byte is a digit.
fn are_digits(text: &[u8]) -> bool
    ensures { result ≡ list_all is_ascii_digit text.now }
{
    text.iter().all(|byte| byte.is_ascii_digit())
}

// The number that three digits say, from one place on.
fn three_digits(text: &[u8], at: usize) -> u32
    requires near { at ≤ 10 }
    requires digits { IsTrue (list_all is_ascii_digit (drop 1 text.now)) }
    requires after { 1 ≤ at }
    ensures value { result ≡ three_digits text.now at }
    ensures small { result < 1000 }
{
    100 * digit_at(text, at) + (10 * digit_at(text, at + 1) + digit_at(text, at + 2))
}

// The digit at a place, and 0 where the text has ended.
#[tactic(auto, using(crate::proofs::MomentForms::digit_of))]
fn digit_at(text: &[u8], at: usize) -> u32
    requires digits { IsTrue (list_all is_ascii_digit (drop 1 text.now)) }
    requires after { 1 ≤ at }
    ensures value { result ≡ digit_at text.now at }
    ensures small { result < 10 }
{
    if at < text.len() {
        u32::from(text[at] - b'0')
    } else {
        0
    }
}
