//! Grammars as values: what they spell, and reading by them from the left with one token to look
//! ahead at.
#![tactic(auto)]
