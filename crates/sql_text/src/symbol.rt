//! The symbols.

ghost use Rattle.std.specs.Prelude.{◌≡◌};
ghost use Rattle.sql_text.specs.Reading.{pair, single};

/// A token of one or two punctuation marks.
#[derive(Clone, Copy, Debug, PartialEq, Eq)]
pub enum Symbol {
    /// `(`
    LeftParenthesis,
    /// `)`
    RightParenthesis,
    /// `,`
    Comma,
    /// `.`
    Period,
    /// `;`
    Semicolon,
    /// `*`
    Asterisk,
    /// `=`
    Equal,
    /// `<>`, and `!=`, which means the same.
    NotEqual,
    /// `<`
    Less,
    /// `<=`
    LessOrEqual,
    /// `>`
    Greater,
    /// `>=`
    GreaterOrEqual,
    /// `+`
    Plus,
    /// `-`
    Minus,
    /// `/`
    Solidus,
    /// `%`
    Percent,
    /// `||`
    Concatenation,
}

impl Symbol {
    /// The symbol that two bytes are, if they are one.
    #[tactic(auto, unfolding(crate::specs::Reading::pair))]
    pub(crate) fn of_two(first: u8, second: u8) -> Option<Symbol>
        ensures { result ≡ pair first second }
    {
        match (first, second) {
            (b'<', b'>') | (b'!', b'=') => Some(Symbol::NotEqual),
            (b'<', b'=') => Some(Symbol::LessOrEqual),
            (b'>', b'=') => Some(Symbol::GreaterOrEqual),
            (b'|', b'|') => Some(Symbol::Concatenation),
            _ => None,
        }
    }

    /// The symbol that a byte is, if it is one.
    #[tactic(auto, unfolding(crate::specs::Reading::single))]
    pub(crate) fn of_one(first: u8) -> Option<Symbol>
        ensures { result ≡ single first }
    {
        match first {
            b'(' => Some(Symbol::LeftParenthesis),
            b')' => Some(Symbol::RightParenthesis),
            b',' => Some(Symbol::Comma),
            b'.' => Some(Symbol::Period),
            b';' => Some(Symbol::Semicolon),
            b'*' => Some(Symbol::Asterisk),
            b'=' => Some(Symbol::Equal),
            b'<' => Some(Symbol::Less),
            b'>' => Some(Symbol::Greater),
            b'+' => Some(Symbol::Plus),
            b'-' => Some(Symbol::Minus),
            b'/' => Some(Symbol::Solidus),
            b'%' => Some(Symbol::Percent),
            _ => None,
        }
    }
}
