//! How cases are written: `{64:NOT }` for 64 times `NOT `, and a backslash before a letter for what
//! no line holds.

use std::alloc::{AllocError, Global};

// Appends a piece, in which a letter after a backslash stands for another one.
fn push_piece(text: &mut String, piece: &str) -> Result<(), AllocError> {
    let mut is_behind = false;
    for letter in piece.chars() {
        if is_behind {
            text.push(match letter {
                'n' => '\n',
                'r' => '\r',
                't' => '\t',
                'v' => '\u{b}',
                'f' => '\u{c}',
                'z' => '\0',
                '[' => '{',
                other => other,
            })?;
            is_behind = false;
        } else if letter == '\\' {
            is_behind = true;
        } else {
            text.push(letter)?;
        }
    }
    Ok(())
}

// Appends what `64:NOT ` stands for.
fn push_repeated(text: &mut String, repeated: &str) -> Result<(), AllocError> {
    let (times, piece) = repeated.split_once(':').unwrap_or(("0", ""));
    for _ in 0..times.parse::<usize>().unwrap_or(0) {
        text.push_str(piece)?;
    }
    Ok(())
}

/// The text that is written so.
pub fn plain(alloc: Global, written: &str) -> Result<String, AllocError> {
    let mut text = String::new(alloc);
    for part in written.split('{') {
        let (repeated, after) = part.split_once('}').unwrap_or(("", part));
        push_repeated(&mut text, repeated)?;
        push_piece(&mut text, after)?;
    }
    Ok(text)
}
