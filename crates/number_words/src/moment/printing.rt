//! The texts of timestamps, and of times of a day.

ghost use Rattle.std.specs.Prelude.{◌≡◌, ◌<◌, ◌≤◌, ◌+◌, ◌-◌, ◌++◌, option_map, pos};
ghost use Rattle.arrayvec.specs.ArrayString.{array_string_len};
ghost use Rattle.number_words.specs.MomentText.{clock_text, day_at, in_three_digits, micros_text};
ghost use Rattle.number_words.specs.MomentText.{is_time, millis_text, nanos_text, per_day};
ghost use Rattle.number_words.specs.MomentText.{time_at, time_text, time_within};
ghost use Rattle.number_words.specs.MomentText.{timestamp_within, zone_text};

use crate::calendar::{FORM_BYTES, date_of, push_two_digits};
use arrayvec::ArrayString;
use arrow_types::TimeUnit;

/// A timestamp as `yyyy-mm-dd hh:mm:ss`, the digits of its unit after a point, and `Z` if it has a
/// zone. `None` outside the years 0001 to 9999. It takes no memory.
pub(crate) fn timestamp_of(
    unit: TimeUnit,
    zoned: bool,
    number: i128,
) -> Option<ArrayString<FORM_BYTES>>
    ensures { option_map (λ text. text.bytes) result ≡ timestamp_within unit zoned number }
{
    let mut text = date_of(day_at(unit, number))?;
    text.push(' ');
    push_time(&mut text, unit, time_at(unit, number));
    push_zone(&mut text, zoned);
    Some(text)
}

/// A time of a day as `hh:mm:ss` and the digits of its unit after a point. `None` outside a day. It
/// takes no memory.
#[tactic(auto, using(crate::proofs::MomentTexts::natural_in))]
pub(crate) fn time_of(unit: TimeUnit, number: i128) -> Option<ArrayString<FORM_BYTES>>
    ensures { option_map (λ text. text.bytes) result ≡ time_within unit number }
{
    if is_time(unit, number) {
        let mut text = ArrayString::new();
        push_time(&mut text, unit, number.unsigned_abs() as u64);
        Some(text)
    } else {
        None
    }
}

// Whether a number is a time of a day.
fn is_time(unit: TimeUnit, number: i128) -> bool
    ensures { result ≡ is_time unit number }
{
    0 <= number && number <= last_time(unit)
}

// The last time of a day.
fn last_time(unit: TimeUnit) -> i128
    ensures { result ≡ pos (per_day unit - 1) }
{
    match unit {
        TimeUnit::Second => 86_399,
        TimeUnit::Millisecond => 86_399_999,
        TimeUnit::Microsecond => 86_399_999_999,
        TimeUnit::Nanosecond => 86_399_999_999_999,
    }
}

/// The day of a timestamp, where 1970-01-01 is 0.
pub(crate) fn day_at(unit: TimeUnit, number: i128) -> i128
    ensures { result ≡ day_at unit number }
{
    match unit {
        TimeUnit::Second => number.div_euclid(86_400),
        TimeUnit::Millisecond => number.div_euclid(86_400_000),
        TimeUnit::Microsecond => number.div_euclid(86_400_000_000),
        TimeUnit::Nanosecond => number.div_euclid(86_400_000_000_000),
    }
}

// The time since the day of a timestamp began.
fn time_at(unit: TimeUnit, number: i128) -> u64
    ensures value { result ≡ time_at unit number }
    ensures small { result < per_day unit }
{
    match unit {
        TimeUnit::Second => number.rem_euclid(86_400).unsigned_abs() as u64,
        TimeUnit::Millisecond => number.rem_euclid(86_400_000).unsigned_abs() as u64,
        TimeUnit::Microsecond => number.rem_euclid(86_400_000_000).unsigned_abs() as u64,
        TimeUnit::Nanosecond => number.rem_euclid(86_400_000_000_000).unsigned_abs() as u64,
    }
}

// Appends the time of a day, and the digits of its unit after a point.
fn push_time(text: &mut ArrayString<FORM_BYTES>, unit: TimeUnit, time: u64)
    requires small { time < per_day unit }
    requires room { array_string_len text.old ≤ 11 }
    ensures bytes { text.new.bytes ≡ text.old.bytes ++ time_text unit time }
    ensures room { array_string_len text.new ≤ 29 }
{
    match unit {
        TimeUnit::Second => push_clock(text, time as u32),
        TimeUnit::Millisecond => {
            push_clock(text, (time / 1_000) as u32);
            push_millis(text, (time % 1_000) as u32);
        }
        TimeUnit::Microsecond => {
            push_clock(text, (time / 1_000_000) as u32);
            push_micros(text, (time % 1_000_000) as u32);
        }
        TimeUnit::Nanosecond => {
            push_clock(text, (time / 1_000_000_000) as u32);
            push_nanos(text, (time % 1_000_000_000) as u32);
        }
    }
}

// Appends `Z` for a zone.
fn push_zone(text: &mut ArrayString<FORM_BYTES>, zoned: bool)
    requires room { array_string_len text.old ≤ 29 }
    ensures { text.new.bytes ≡ text.old.bytes ++ zone_text zoned }
{
    if zoned {
        text.push('Z');
    }
}

// Appends the seconds of a day as hh:mm:ss.
fn push_clock(text: &mut ArrayString<FORM_BYTES>, seconds: u32)
    requires small { seconds < 86400 }
    requires room { array_string_len text.old ≤ 11 }
    ensures bytes { text.new.bytes ≡ text.old.bytes ++ clock_text seconds }
    ensures len { array_string_len text.new ≡ array_string_len text.old + 8 }
{
    push_two_digits(text, (seconds / 3_600) as u8);
    text.push(':');
    push_two_digits(text, (seconds / 60 % 60) as u8);
    text.push(':');
    push_two_digits(text, (seconds % 60) as u8);
}

// Appends the milliseconds of a second as a point and three digits.
fn push_millis(text: &mut ArrayString<FORM_BYTES>, millis: u32)
    requires small { millis < 1000 }
    requires room { array_string_len text.old ≤ 19 }
    ensures bytes { text.new.bytes ≡ text.old.bytes ++ millis_text millis }
    ensures len { array_string_len text.new ≡ array_string_len text.old + 4 }
{
    text.push('.');
    push_three_digits(text, millis);
}

// Appends the microseconds of a second as a point and six digits.
fn push_micros(text: &mut ArrayString<FORM_BYTES>, micros: u32)
    requires small { micros < 1000000 }
    requires room { array_string_len text.old ≤ 19 }
    ensures bytes { text.new.bytes ≡ text.old.bytes ++ micros_text micros }
    ensures len { array_string_len text.new ≡ array_string_len text.old + 7 }
{
    push_millis(text, micros / 1_000);
    push_three_digits(text, micros % 1_000);
}

// Appends the nanoseconds of a second as a point and nine digits.
fn push_nanos(text: &mut ArrayString<FORM_BYTES>, nanos: u32)
    requires small { nanos < 1000000000 }
    requires room { array_string_len text.old ≤ 19 }
    ensures bytes { text.new.bytes ≡ text.old.bytes ++ nanos_text nanos }
    ensures len { array_string_len text.new ≡ array_string_len text.old + 10 }
{
    push_micros(text, nanos / 1_000);
    push_three_digits(text, nanos % 1_000);
}

// Appends a number in three digits.
fn push_three_digits(text: &mut ArrayString<FORM_BYTES>, number: u32)
    requires small { number < 1000 }
    requires room { array_string_len text.old + 3 ≤ 30 }
    ensures bytes { text.new.bytes ≡ text.old.bytes ++ in_three_digits number }
    ensures len { array_string_len text.new ≡ array_string_len text.old + 3 }
{
    text.push(char::from(b'0' + (number / 100) as u8));
    push_two_digits(text, (number % 100) as u8);
}
