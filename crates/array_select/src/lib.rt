//! Slots that are chosen, and the columns that are made of them and of values.
#![tactic(auto)]

mod at_places;
mod gather_cells;
mod gather_cuts;
mod gather_texts;
pub mod many_places;
pub mod of_slots;
mod room;
pub mod selection;
mod slot_filling;
mod source;
mod text_filling;
mod typed_values;
mod value_columns;

pub use crate::at_places::gather;
pub use crate::many_places::{SlotPlace, gather_many, texts_fit_many};
pub use crate::of_slots::{SlotRef, column_of_slots, texts_fit};
pub use crate::room::{
    MOST_BATCH_ROWS, MOST_OFFSET, fitting, has_texts, next_most, share_among, text_share,
    tried_rows,
};
pub use crate::selection::Selection;
pub use crate::typed_values::column_of_values;
pub use crate::value_columns::{
    column_of_bools, column_of_decimals, column_of_int64s, column_of_texts,
};
