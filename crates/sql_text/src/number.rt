//! The value of digits.

ghost use Rattle.std.specs.Prelude.{◌≡◌};
ghost use Rattle.std.specs.Char.{is_ascii_digit};
ghost use Rattle.std.specs.List.{list_all};
ghost use Rattle.sql_text.specs.Values.{number_of};

// 10^38. The value of digits is below it.
const LIMIT: i128 = 100_000_000_000_000_000_000_000_000_000_000_000_000;

fn are_digits(bytes: &[u8]) -> bool
    ensures { result ≡ list_all is_ascii_digit bytes.now }
{
    bytes.iter().all(|b| b.is_ascii_digit())
}

/// The value of digits; none, where it is 10^38 or more, or the text is not digits alone.
pub(crate) fn number(text: &str) -> Option<i128>
    ensures { result ≡ number_of text.now }
{
    if !are_digits(text.as_bytes()) {
        return None;
    }
    let Ok(value) = text.parse::<i128>() else {
        return None;
    };
    if value < LIMIT { Some(value) } else { None }
}
