//! The limits of number and of names, in one pass over the tokens.

ghost use Rattle.std.specs.Prelude.{◌≡◌, ◌≤◌, false};
ghost use Rattle.sql_parse.specs.Calls.{tally_seen};
ghost use Rattle.sql_parse.specs.Limits as limits;
ghost use Rattle.sql_parse.specs.Limits.{IsFirstPast};
ghost use Rattle.sql_parse.specs.Tokens.{marks};

use sql_text::{Keyword, Symbol, Token, TokenKind};

/// A name has at most so many bytes.
const MOST_NAME_BYTES: usize = 64;

/// A query has at most so many places.
const MOST_PLACES: usize = 4;

/// A select list, and GROUP BY, has at most so many items.
const MOST_ITEMS: usize = 64;

/// An IN has at most so many items.
const MOST_MEMBERS: usize = 256;

/// What the tokens so far announce.
#[derive(Clone, Copy)]
pub(crate) struct Tally {
    /// Places.
    places: usize,
    /// Items of the list that was begun last.
    items: usize,
    /// How many items that list may have.
    most: usize,
}

impl Tally {
    // What is announced with the next token.
    #[tactic(auto, unfolding(crate::specs::Limits::counted, crate::specs::Tokens::same_word, crate::specs::Tokens::same_symbol))]
    fn counted(self, kind: TokenKind) -> Tally
        requires places { self.places ≤ 4 }
        requires items { self.items ≤ 256 }
        requires most { self.most ≤ 256 }
        ensures exact { tally_seen result ≡ limits.counted (tally_seen self) kind }
        ensures most { result.most ≤ 256 }
    {
        match kind {
            TokenKind::Keyword(Keyword::From | Keyword::Join) => Tally {
                places: self.places + 1,
                ..self
            },
            TokenKind::Keyword(Keyword::Select | Keyword::By) => Tally {
                items: 1,
                most: MOST_ITEMS,
                ..self
            },
            TokenKind::Keyword(Keyword::In) => Tally {
                items: 1,
                most: MOST_MEMBERS,
                ..self
            },
            TokenKind::Symbol(Symbol::Comma) => Tally {
                items: self.items + 1,
                ..self
            },
            _ => self,
        }
    }

    // Whether the place or the item that was announced last is one too many.
    #[tactic(auto, unfolding(crate::specs::Limits::is_past))]
    fn is_past(self) -> bool
        ensures exact { result ≡ limits.is_past (tally_seen self) }
        ensures within { result ≡ false → (self.places ≤ 4) × (self.items ≤ self.most) }
    {
        self.places > MOST_PLACES || self.items > self.most
    }
}

// Whether the token is a name that is too long.
#[tactic(auto, unfolding(crate::specs::Limits::is_long_name))]
fn is_long_name(token: Token<'_>) -> bool
    ensures { result ≡ limits.is_long_name token.entry.kind token.entry.text.now }
{
    match token.kind {
        TokenKind::Name | TokenKind::DelimitedName => token.value_len() > MOST_NAME_BYTES,
        _ => false,
    }
}

/// Which token is the first that passes a limit, where the tokens up to it begin a sentence. It
/// takes no memory.
#[tactic(auto, unfolding(crate::specs::Limits::passes))]
pub(crate) fn first_past(tokens: &[Token<'_>]) -> Option<usize>
    ensures { IsFirstPast result (marks tokens.now) }
{
    let mut tally = Tally {
        places: 0,
        items: 0,
        most: MOST_ITEMS,
    };
    for (index, token) in tokens.iter().enumerate() {
        if is_long_name(*token) || tally.is_past() {
            return Some(index);
        }
        tally = tally.counted(token.kind);
    }
    None
}
