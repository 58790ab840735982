//! What stands between quotes.

ghost use Rattle.std.specs.Prelude.{◌≡◌, ◌<◌, ◌+◌, length, IfOk, IfSome, string_bytes};
ghost use Rattle.sql_text.specs.Values.{inside, undoubled, unquoted, pair_at};

use std::alloc::{AllocError, Global};

// Where the first pair of quotes begins.
fn first_pair(quote: u8, bytes: &[u8]) -> Option<usize>
    ensures place { result ≡ pair_at quote 0 bytes.now }
    ensures within { IfSome result (λ at. at + 1 < length bytes.now) }
{
    let mut at = 0;
    while at + 1 < bytes.len() {
        if bytes[at] == quote && bytes[at + 1] == quote {
            return Some(at);
        }
        at += 1;
    }
    None
}

// What stands between two quotes, where they are at the ends of the text, and else the text.
fn inside(quote: u8, text: &str) -> &str
    requires { quote < 128 }
    ensures { result.now ≡ inside quote text.now }
{
    let bytes = text.as_bytes();
    if bytes.len() >= 2 && bytes[0] == quote && bytes[bytes.len() - 1] == quote {
        &text[1..text.len() - 1]
    } else {
        text
    }
}

/// The value that is written between quotes: each pair of quotes in it is one.
pub(crate) fn unquoted(alloc: Global, quote: u8, text: &str) -> Result<String, AllocError>
    requires { quote < 128 }
    ensures { IfOk result (λ value. string_bytes value ≡ unquoted quote text.now) }
{
    let mut value = String::new(alloc);
    let mut rest = inside(quote, text);
    while let Some(at) = first_pair(quote, rest.as_bytes()) {
        let (front, after) = rest.split_at(at + 1);
        value.push_str(front)?;
        rest = after.split_at(1).1;
    }
    value.push_str(rest)?;
    Ok(value)
}

/// How many bytes that value has.
pub(crate) fn unquoted_len(quote: u8, text: &str) -> usize
    requires { quote < 128 }
    ensures { result ≡ length (unquoted quote text.now) }
{
    let mut rest = inside(quote, text).as_bytes();
    let mut len = rest.len();
    while let Some(at) = first_pair(quote, rest) {
        len -= 1;
        rest = rest.split_at(at + 2).1;
    }
    len
}
