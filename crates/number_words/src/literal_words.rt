//! The tokens of a query, with the words of literals.

ghost use Rattle.std.specs.Prelude.{◌≡◌, ◌≤◌, All, IfOk, length, map, nat_le};
ghost use Rattle.scan_base.specs.declared.fault.Fault.TheVariants.{LimitReached};
ghost use Rattle.scan_base.specs.Limits.{most_query_bytes};
ghost use Rattle.scan_base.specs.Reading.{GivesUnlessMemory, RefusesFirst, demand};
ghost use Rattle.sql_text.specs.Calls.{SaysText, lexeme_of};
ghost use Rattle.number_words.specs.LiteralWords.{begins_with_string, kind_before, kind_of_name};
ghost use Rattle.number_words.specs.LiteralWords.{with_words, worded_tokens_in};

use scan_base::Fault;
use sql_text::{Keyword, Token, TokenKind};
use std::alloc::{AllocError, Global};

/// The tokens of a query, in their order, in which a name `TIMESTAMP` or `TIME`, in any case, is a
/// word of the grammar where a string follows.
///
/// # Errors
///
/// Those of [`sql_text::tokens`].
#[tactic(auto, unfolding(crate::specs::LiteralWords::worded_tokens_in))]
pub fn tokens(alloc: Global, sql: &str) -> Result<Vec<Token<'_>>, Fault>
    ensures exact { GivesUnlessMemory (λ tokens. map lexeme_of tokens.items) result
        (worded_tokens_in sql.now) }
    ensures short { IfOk result (λ tokens. length sql.now ≤ most_query_bytes) }
    ensures names { IfOk result (λ tokens. All SaysText (map lexeme_of tokens.items)) }
    ensures first { RefusesFirst result
        (demand (nat_le (length sql.now) most_query_bytes) LimitReached) }
{
    let found = sql_text::tokens(alloc, sql)?;
    let tokens = with_words(alloc, &found)?;
    Ok(tokens)
}

// The tokens, in which a name TIMESTAMP or TIME is a word where a string follows.
fn with_words<'t>(alloc: Global, tokens: &[Token<'t>]) -> Result<Vec<Token<'t>>, AllocError>
    ensures { IfOk result (λ found. map lexeme_of found.items
        ≡ with_words (map lexeme_of tokens.now)) }
{
    let mut found = Vec::new(alloc);
    let mut left = tokens;
    while let [first, more @ ..] = left {
        found.push(Token {
            kind: kind_before(first.kind, first.text, begins_with_string(more)),
            start: first.start,
            text: first.text,
        })?;
        left = more;
    }
    Ok(found)
}

// Whether a string comes first.
fn begins_with_string(tokens: &[Token<'_>]) -> bool
    ensures { result ≡ begins_with_string (map lexeme_of tokens.now) }
{
    match tokens {
        [] => false,
        [first, ..] => matches!(first.kind, TokenKind::String),
    }
}

// What a token is, where a string follows or not.
fn kind_before(kind: TokenKind, text: &str, string: bool) -> TokenKind
    ensures { result ≡ kind_before kind text.now string }
{
    match (kind, string) {
        (TokenKind::Name, true) => kind_of_name(text),
        (other, _) => other,
    }
}

// What a name is before a string.
fn kind_of_name(text: &str) -> TokenKind
    ensures { result ≡ kind_of_name text.now }
{
    if text.eq_ignore_ascii_case("TIMESTAMP") {
        TokenKind::Keyword(Keyword::Timestamp)
    } else if text.eq_ignore_ascii_case("TIME") {
        TokenKind::Keyword(Keyword::Time)
    } else {
        TokenKind::Name
    }
}
