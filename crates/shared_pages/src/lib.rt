//! Lists of handles in pages, of which a longer list shares the full ones.
#![tactic(auto)]

pub mod handles;
pub mod pages;

pub use crate::pages::Pages;
