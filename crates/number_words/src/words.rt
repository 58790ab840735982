//! The words of types.

ghost use Rattle.std.specs.Prelude.{◌≡◌, ◌≢◌, ◌≤◌, IfSome, MatchOption, false, length};
ghost use Rattle.std.specs.Prelude.{option_map, true};
ghost use Rattle.arrow_types.specs.declared.data_type.NumberType.{NumberType};
ghost use Rattle.arrow_types.specs.declared.data_type.NumberType.TheVariants as type;
ghost use Rattle.number_words.specs.NumberTexts.{keyword, spelling_line, word};

use arrow_types::{IntegerType, NumberType, TimeUnit};

// All types of numbers.
const TYPES: [NumberType; 26] = [
    NumberType::Integer(IntegerType::Int8),
    NumberType::Integer(IntegerType::Int16),
    NumberType::Integer(IntegerType::Int32),
    NumberType::Integer(IntegerType::Int64),
    NumberType::Integer(IntegerType::UInt8),
    NumberType::Integer(IntegerType::UInt16),
    NumberType::Integer(IntegerType::UInt32),
    NumberType::Integer(IntegerType::UInt64),
    NumberType::Decimal,
    NumberType::Date,
    NumberType::Timestamp(TimeUnit::Second, false),
    NumberType::Timestamp(TimeUnit::Millisecond, false),
    NumberType::Timestamp(TimeUnit::Microsecond, false),
    NumberType::Timestamp(TimeUnit::Nanosecond, false),
    NumberType::Timestamp(TimeUnit::Second, true),
    NumberType::Timestamp(TimeUnit::Millisecond, true),
    NumberType::Timestamp(TimeUnit::Microsecond, true),
    NumberType::Timestamp(TimeUnit::Nanosecond, true),
    NumberType::Time(TimeUnit::Second),
    NumberType::Time(TimeUnit::Millisecond),
    NumberType::Time(TimeUnit::Microsecond),
    NumberType::Time(TimeUnit::Nanosecond),
    NumberType::Duration(TimeUnit::Second),
    NumberType::Duration(TimeUnit::Millisecond),
    NumberType::Duration(TimeUnit::Microsecond),
    NumberType::Duration(TimeUnit::Nanosecond),
];

/// The types that a text may be of, in the order in which they are tried.
pub const TYPES_TRIED: [NumberType; 9] = [
    NumberType::Integer(IntegerType::Int64),
    NumberType::Decimal,
    NumberType::Date,
    NumberType::Timestamp(TimeUnit::Microsecond, false),
    NumberType::Timestamp(TimeUnit::Nanosecond, false),
    NumberType::Timestamp(TimeUnit::Microsecond, true),
    NumberType::Timestamp(TimeUnit::Nanosecond, true),
    NumberType::Time(TimeUnit::Microsecond),
    NumberType::Time(TimeUnit::Nanosecond),
];

/// The type of a word, if it is one of a type.
pub fn type_named(text: &[u8]) -> Option<NumberType>
    ensures { MatchOption result ((kind : NumberType) → text.now ≢ word kind)
        (λ kind. text.now ≡ word kind) }
{
    for kind in TYPES {
        if word(kind).as_bytes() == text {
            return Some(kind);
        }
    }
    None
}

/// The word for a type.
pub fn word(kind: NumberType) -> &'static str
    ensures { result.now ≡ word kind }
{
    match kind {
        NumberType::Integer(integer) => integer_word(integer),
        NumberType::Decimal => "decimal",
        NumberType::Date => "date",
        NumberType::Timestamp(unit, false) => timestamp_word(unit),
        NumberType::Timestamp(unit, true) => zoned_word(unit),
        NumberType::Time(unit) => time_word(unit),
        NumberType::Duration(unit) => duration_word(unit),
    }
}

// The word for an integer's type.
fn integer_word(integer: IntegerType) -> &'static str
    ensures { result.now ≡ word (type.Integer integer) }
{
    match integer {
        IntegerType::Int8 => "int8",
        IntegerType::Int16 => "int16",
        IntegerType::Int32 => "int32",
        IntegerType::Int64 => "int64",
        IntegerType::UInt8 => "uint8",
        IntegerType::UInt16 => "uint16",
        IntegerType::UInt32 => "uint32",
        IntegerType::UInt64 => "uint64",
    }
}

// The word for a timestamp without a zone.
fn timestamp_word(unit: TimeUnit) -> &'static str
    ensures { result.now ≡ word (type.Timestamp unit false) }
{
    match unit {
        TimeUnit::Second => "timestamp_s",
        TimeUnit::Millisecond => "timestamp_ms",
        TimeUnit::Microsecond => "timestamp",
        TimeUnit::Nanosecond => "timestamp_ns",
    }
}

// The word for a timestamp with one.
fn zoned_word(unit: TimeUnit) -> &'static str
    ensures { result.now ≡ word (type.Timestamp unit true) }
{
    match unit {
        TimeUnit::Second => "timestamptz_s",
        TimeUnit::Millisecond => "timestamptz_ms",
        TimeUnit::Microsecond => "timestamptz",
        TimeUnit::Nanosecond => "timestamptz_ns",
    }
}

// The word for a time of a day.
fn time_word(unit: TimeUnit) -> &'static str
    ensures { result.now ≡ word (type.Time unit) }
{
    match unit {
        TimeUnit::Second => "time_s",
        TimeUnit::Millisecond => "time_ms",
        TimeUnit::Microsecond => "time",
        TimeUnit::Nanosecond => "time_ns",
    }
}

// The word for a duration.
fn duration_word(unit: TimeUnit) -> &'static str
    ensures { result.now ≡ word (type.Duration unit) }
{
    match unit {
        TimeUnit::Second => "duration_s",
        TimeUnit::Millisecond => "duration_ms",
        TimeUnit::Microsecond => "duration",
        TimeUnit::Nanosecond => "duration_ns",
    }
}

/// A line for people: how a column is spelled, with the words of all types.
pub fn spelling_line() -> &'static [u8]
    ensures { result.now ≡ spelling_line }
{
    b"'a:int8, b:utf8?': int8..int64, uint8..uint64, decimal, date, \
    timestamp[tz][_s|_ms|_ns], time[..], duration[..], bool or utf8\n"
}

/// The word before a literal of a type, if it has one.
pub fn keyword(kind: NumberType) -> Option<&'static str>
    ensures word { option_map (λ word. word.now) result ≡ keyword kind }
    ensures short { IfSome result (λ word. length word.now ≤ 12) }
{
    match kind {
        NumberType::Date => Some("DATE"),
        NumberType::Timestamp(_, _) => Some("TIMESTAMP"),
        NumberType::Time(_) => Some("TIME"),
        NumberType::Integer(_) | NumberType::Decimal | NumberType::Duration(_) => None,
    }
}
