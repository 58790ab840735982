//! Parsing a text.

ghost use Rattle.std.specs.Prelude.{◌≡◌, ◌≢◌, false, nat_le, length, Some, IfOk};
ghost use Rattle.scan_base.specs.declared.fault.Fault.TheVariants.{OutOfMemory, LimitReached};
ghost use Rattle.scan_base.specs.Limits.{most_query_bytes};
ghost use Rattle.scan_base.specs.Reading.{RefusesFirst, demand};
ghost use Rattle.sql_parse.specs.Limits.{IsFirstPast, passes};
ghost use Rattle.sql_parse.specs.Parse.{Answered, Parsed, Refuses, fault_or};
ghost use Rattle.sql_query.specs.Names.{QueryHasNames};
ghost use Rattle.sql_query.specs.Sentence.{sentence_of};
ghost use Rattle.sql_parse.specs.Tokens.{marks};

use crate::clauses::whole_query;
use crate::limits::first_past;
use crate::refusal::Refusal;
use crate::tokens::Rest;
use scan_base::Fault;
use sql_query::Query;
use sql_text::Token;
use std::alloc::Global;

/// At most so many parentheses of predicates and prefix NOTs are open at once.
const MOST_OPEN: usize = 64;

// The fault of the first of these tokens, which offends, or the other one where there is none.
fn fault_or(other: Fault, tokens: &[Token<'_>]) -> Fault
    ensures { result ≡ fault_or other (marks tokens.now) }
{
    match tokens {
        [] => other,
        [first, ..] => {
            if first.kind.is_left_out() {
                Fault::NotInSubset
            } else {
                Fault::BadSql {
                    position: first.start,
                }
            }
        }
    }
}

// The query that the tokens are, which pass no limit, or the first fault, where the text ends at
// `end`.
fn parse_within(alloc: Global, tokens: &[Token<'_>], end: u32) -> Result<Query, Fault>
    requires { passes (marks tokens.now) ≡ false }
    ensures { Answered sentence_of (marks tokens.now) end result }
{
    match whole_query(alloc, MOST_OPEN, Rest { tokens }) {
        Ok(query) => {
            if query.is_left_out() {
                Err(Fault::NotInSubset)
            } else {
                Ok(query)
            }
        }
        Err(Refusal::Offends(left)) => {
            let (_, place) = tokens.split_at(tokens.len() - left);
            Err(fault_or(Fault::BadSql { position: end }, place))
        }
        Err(Refusal::TooDeep) => Err(Fault::LimitReached),
        Err(Refusal::OutOfMemory) => Err(Fault::OutOfMemory),
    }
}

// The first fault of the tokens, where the one at `past` is the first that passes a limit. None
// after it is read.
fn fault_past(alloc: Global, tokens: &[Token<'_>], past: usize, end: u32) -> Fault
    requires { IsFirstPast (Some past) (marks tokens.now) }
    ensures { result ≢ OutOfMemory → Refuses (marks tokens.now) end result }
{
    let (front, _) = tokens.split_at(past + 1);
    match whole_query(alloc, MOST_OPEN, Rest { tokens: front }) {
        Ok(_) => Fault::LimitReached,
        Err(Refusal::Offends(left)) => {
            let (_, place) = front.split_at(front.len() - left);
            fault_or(Fault::LimitReached, place)
        }
        Err(Refusal::TooDeep) => Fault::LimitReached,
        Err(Refusal::OutOfMemory) => Fault::OutOfMemory,
    }
}

// The query that the tokens are, or the first fault, where the text ends at `end`.
fn parse_tokens(alloc: Global, tokens: &[Token<'_>], end: u32) -> Result<Query, Fault>
    ensures { Answered sentence_of (marks tokens.now) end result }
{
    match first_past(tokens) {
        None => parse_within(alloc, tokens, end),
        Some(past) => Err(fault_past(alloc, tokens, past, end)),
    }
}

/// The query that a text is. Each name in it has 1 to 64 bytes.
///
/// The grammar is a small part of SQL-92. At most 64 parentheses of predicates and prefix NOTs may
/// be open at once, so the stack that is taken is bounded.
///
/// # Errors
///
/// The faults of [`sql_text::tokens`] come first. Then, from the left, the first of these:
/// `Fault::LimitReached` at a token that passes a limit: a name of more than 64 bytes, the fifth
/// place, the 65th item of a select list or of GROUP BY, the 257th item of an IN, the 65th open
/// parenthesis or NOT; and the fault of the token that offends, with which no sentence goes on:
/// `Fault::NotInSubset` where SQL has such a token and this server leaves it out, otherwise
/// `Fault::BadSql` at its first byte, or at the length of the text where it ends too early. A token
/// that does both offends. Last, of a whole sentence, `Fault::NotInSubset` for a JOIN with an
/// aggregate or GROUP BY, and for `*` with GROUP BY. `Fault::OutOfMemory` where memory is refused.
pub fn parse(alloc: Global, sql: &str) -> Result<Query, Fault>
    ensures parsed { Parsed sentence_of sql.now result }
    ensures named { IfOk result (λ query. QueryHasNames (sentence_of query)) }
    ensures first { RefusesFirst result
        (demand (nat_le (length sql.now) most_query_bytes) LimitReached) }
{
    let tokens = number_words::tokens(alloc, sql)?;
    parse_tokens(alloc, &tokens, sql.len() as u32)
}
