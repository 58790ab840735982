//! Laws of the definitions that the contracts cite. The functions do nothing: their contracts are
//! the laws.

ghost use Rattle.sql_text.specs.Laws.{ReadingKeepsPieces, RefusalIsFirstFault, AtMostOneList};
ghost use Rattle.sql_text.specs.Laws.{AtMostOneLexicalFault, TokensOrFault, QuotedReadsBack};

/// A text reads as a list of tokens exactly where its pieces, each the longest at its place, are
/// that list.
pub fn reading_keeps_pieces()
    ensures { ReadingKeepsPieces }
{}

/// A text is refused at a byte exactly where its first lexical fault stands there.
pub fn refusal_is_first_fault()
    ensures { RefusalIsFirstFault }
{}

/// A text is at most one list of tokens.
pub fn at_most_one_list()
    ensures { AtMostOneList }
{}

/// A text has at most one first fault.
pub fn at_most_one_fault()
    ensures { AtMostOneLexicalFault }
{}

/// A text is a list of tokens, or has a fault.
pub fn tokens_or_fault()
    ensures { TokensOrFault }
{}

/// A value that is written between quotes reads back.
pub fn quoted_reads_back()
    ensures { QuotedReadsBack }
{}
