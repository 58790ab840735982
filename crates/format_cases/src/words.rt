//! Answers, printed.

use scan_base::Fault;
use std::alloc::{AllocError, Global};

/// A word of an answer.
#[derive(Clone, Copy)]
pub enum Word<'a> {
    Text(&'a str),
    Number(i128),
    Flag(bool),
    /// Bytes in hex; a dash stands for none.
    Bytes(&'a [u8]),
}

fn push_bytes(text: &mut String, bytes: &[u8]) -> Result<(), AllocError> {
    if bytes.is_empty() {
        return text.push('-');
    }
    let alloc = *text.allocator();
    text.push_str(&hex::encode(alloc, bytes)?)
}

fn push_word(text: &mut String, word: Word<'_>) -> Result<(), AllocError> {
    match word {
        Word::Text(told) => text.push_str(told),
        Word::Number(number) => write!(text, "{number}"),
        Word::Flag(flag) => text.push_str(if flag { "true" } else { "false" }),
        Word::Bytes(bytes) => push_bytes(text, bytes),
    }
}

/// Adds words to a text, with a text between them.
pub fn push_words(text: &mut String, words: &[Word<'_>], between: &str) -> Result<(), AllocError> {
    let mut before = "";
    for word in words {
        text.push_str(before)?;
        push_word(text, *word)?;
        before = between;
    }
    Ok(())
}

/// Adds words to a text, with spaces between them and a comma after them.
pub fn push_part(text: &mut String, words: &[Word<'_>]) -> Result<(), AllocError> {
    push_words(text, words, " ")?;
    text.push_str(", ")
}

/// An answer of these words, with commas between them.
pub fn told(alloc: Global, words: &[Word<'_>]) -> Result<String, Fault> {
    let mut text = String::new(alloc);
    push_words(&mut text, words, ", ")?;
    Ok(text)
}
