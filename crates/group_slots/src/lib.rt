//! Tallies of groups, and the packed numbers and the tags of their keys.
#![tactic(auto)]

mod counts;
pub mod item_tallies;
mod partial_sums;
pub mod row_groups;
pub mod row_span;
pub mod slots;
mod sums;
pub mod tags;
pub mod tally;

pub use crate::item_tallies::{ItemTallies, narrowed, widened};
pub use crate::row_groups::{RowGroups, add_all};
pub use crate::row_span::{RowSpan, add_span};
pub use crate::slots::{Entries, IntegerSlots, Number, entry_slots, integer_slots};
pub use crate::tags::{IndexTags, NOTHING, NumberTags, Tag, Tags, TextTags, text_tags};
pub use crate::tally::Tally;
