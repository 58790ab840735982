//! The words that have a meaning of their own.

ghost use Rattle.std.specs.Prelude.{◌≡◌};
ghost use Rattle.sql_text.specs.Words.{word_kind, meaning_in};
ghost use Rattle.sql_text.specs.Calls.{rows_of};

use crate::token::TokenKind;

/// A word of the grammar. The case of its letters has no meaning.
#[derive(Clone, Copy, Debug, PartialEq, Eq)]
pub enum Keyword {
    Select,
    From,
    Where,
    Inner,
    Join,
    On,
    And,
    Or,
    Not,
    Is,
    Null,
    True,
    False,
    Unknown,
    In,
    Between,
    Group,
    By,
    As,
    Count,
    Sum,
    Date,
    /// `TIMESTAMP` before a string. No text is this word by itself.
    Timestamp,
    /// `TIME`, likewise.
    Time,
}

// A word and what it is.
#[derive(Clone, Copy)]
pub(crate) struct Meaning {
    word: &'static str,
    kind: TokenKind,
}

// The words that have a meaning of their own, by their length.

const WORDS_OF_2: [Meaning; 6] = [
    Meaning {
        word: "ON",
        kind: TokenKind::Keyword(Keyword::On),
    },
    Meaning {
        word: "OR",
        kind: TokenKind::Keyword(Keyword::Or),
    },
    Meaning {
        word: "IS",
        kind: TokenKind::Keyword(Keyword::Is),
    },
    Meaning {
        word: "IN",
        kind: TokenKind::Keyword(Keyword::In),
    },
    Meaning {
        word: "BY",
        kind: TokenKind::Keyword(Keyword::By),
    },
    Meaning {
        word: "AS",
        kind: TokenKind::Keyword(Keyword::As),
    },
];

const WORDS_OF_3: [Meaning; 8] = [
    Meaning {
        word: "AND",
        kind: TokenKind::Keyword(Keyword::And),
    },
    Meaning {
        word: "NOT",
        kind: TokenKind::Keyword(Keyword::Not),
    },
    Meaning {
        word: "SUM",
        kind: TokenKind::Keyword(Keyword::Sum),
    },
    Meaning {
        word: "ALL",
        kind: TokenKind::LeftOut,
    },
    Meaning {
        word: "ANY",
        kind: TokenKind::LeftOut,
    },
    Meaning {
        word: "MIN",
        kind: TokenKind::LeftOut,
    },
    Meaning {
        word: "MAX",
        kind: TokenKind::LeftOut,
    },
    Meaning {
        word: "AVG",
        kind: TokenKind::LeftOut,
    },
];

const WORDS_OF_4: [Meaning; 12] = [
    Meaning {
        word: "FROM",
        kind: TokenKind::Keyword(Keyword::From),
    },
    Meaning {
        word: "JOIN",
        kind: TokenKind::Keyword(Keyword::Join),
    },
    Meaning {
        word: "NULL",
        kind: TokenKind::Keyword(Keyword::Null),
    },
    Meaning {
        word: "TRUE",
        kind: TokenKind::Keyword(Keyword::True),
    },
    Meaning {
        word: "DATE",
        kind: TokenKind::Keyword(Keyword::Date),
    },
    Meaning {
        word: "LEFT",
        kind: TokenKind::LeftOut,
    },
    Meaning {
        word: "FULL",
        kind: TokenKind::LeftOut,
    },
    Meaning {
        word: "LIKE",
        kind: TokenKind::LeftOut,
    },
    Meaning {
        word: "SOME",
        kind: TokenKind::LeftOut,
    },
    Meaning {
        word: "CASE",
        kind: TokenKind::LeftOut,
    },
    Meaning {
        word: "CAST",
        kind: TokenKind::LeftOut,
    },
    Meaning {
        word: "WITH",
        kind: TokenKind::LeftOut,
    },
];

const WORDS_OF_5: [Meaning; 13] = [
    Meaning {
        word: "WHERE",
        kind: TokenKind::Keyword(Keyword::Where),
    },
    Meaning {
        word: "INNER",
        kind: TokenKind::Keyword(Keyword::Inner),
    },
    Meaning {
        word: "FALSE",
        kind: TokenKind::Keyword(Keyword::False),
    },
    Meaning {
        word: "GROUP",
        kind: TokenKind::Keyword(Keyword::Group),
    },
    Meaning {
        word: "COUNT",
        kind: TokenKind::Keyword(Keyword::Count),
    },
    Meaning {
        word: "ORDER",
        kind: TokenKind::LeftOut,
    },
    Meaning {
        word: "LIMIT",
        kind: TokenKind::LeftOut,
    },
    Meaning {
        word: "FETCH",
        kind: TokenKind::LeftOut,
    },
    Meaning {
        word: "UNION",
        kind: TokenKind::LeftOut,
    },
    Meaning {
        word: "RIGHT",
        kind: TokenKind::LeftOut,
    },
    Meaning {
        word: "OUTER",
        kind: TokenKind::LeftOut,
    },
    Meaning {
        word: "CROSS",
        kind: TokenKind::LeftOut,
    },
    Meaning {
        word: "USING",
        kind: TokenKind::LeftOut,
    },
];

const WORDS_OF_6: [Meaning; 10] = [
    Meaning {
        word: "SELECT",
        kind: TokenKind::Keyword(Keyword::Select),
    },
    Meaning {
        word: "OFFSET",
        kind: TokenKind::LeftOut,
    },
    Meaning {
        word: "HAVING",
        kind: TokenKind::LeftOut,
    },
    Meaning {
        word: "EXCEPT",
        kind: TokenKind::LeftOut,
    },
    Meaning {
        word: "ESCAPE",
        kind: TokenKind::LeftOut,
    },
    Meaning {
        word: "EXISTS",
        kind: TokenKind::LeftOut,
    },
    Meaning {
        word: "VALUES",
        kind: TokenKind::LeftOut,
    },
    Meaning {
        word: "INSERT",
        kind: TokenKind::LeftOut,
    },
    Meaning {
        word: "UPDATE",
        kind: TokenKind::LeftOut,
    },
    Meaning {
        word: "DELETE",
        kind: TokenKind::LeftOut,
    },
];

const WORDS_OF_7: [Meaning; 3] = [
    Meaning {
        word: "UNKNOWN",
        kind: TokenKind::Keyword(Keyword::Unknown),
    },
    Meaning {
        word: "BETWEEN",
        kind: TokenKind::Keyword(Keyword::Between),
    },
    Meaning {
        word: "NATURAL",
        kind: TokenKind::LeftOut,
    },
];

const WORDS_OF_8: [Meaning; 1] = [Meaning {
    word: "DISTINCT",
    kind: TokenKind::LeftOut,
}];

const WORDS_OF_9: [Meaning; 1] = [Meaning {
    word: "INTERSECT",
    kind: TokenKind::LeftOut,
}];

// What the first row says that has this word.
fn find(rows: &[Meaning], text: &str) -> Option<TokenKind>
    ensures { result ≡ meaning_in (rows_of rows.now) text.now }
{
    for row in rows {
        if text.eq_ignore_ascii_case(row.word) {
            return Some(row.kind);
        }
    }
    None
}

/// What a word is. The case of its letters has no meaning.
pub(crate) fn word_kind(text: &str) -> TokenKind
    ensures { result ≡ word_kind text.now }
{
    let meaning = match text.len() {
        2 => find(&WORDS_OF_2, text),
        3 => find(&WORDS_OF_3, text),
        4 => find(&WORDS_OF_4, text),
        5 => find(&WORDS_OF_5, text),
        6 => find(&WORDS_OF_6, text),
        7 => find(&WORDS_OF_7, text),
        8 => find(&WORDS_OF_8, text),
        9 => find(&WORDS_OF_9, text),
        _ => None,
    };
    meaning.unwrap_or(TokenKind::Name)
}
