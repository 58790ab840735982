//! How many rows a batch has that is made of rows, and how many bytes its texts.

ghost use Rattle.std.specs.Prelude.{◌≡◌, ◌≤◌, ◌<◌, ◌*◌, if◌then◌else◌, min, nat_lt};
ghost use Rattle.std.specs.Prelude.{ℕ, All, IfOk, OnErr, length, map};
ghost use Rattle.std.specs.List.{sum_by};
ghost use Rattle.array_select.specs.Fitting.{Fits, NoneFits, has_texts};
ghost use Rattle.array_select.specs.OfSlots.{slot_value};
ghost use Rattle.array_select.specs.Room.{allowed, most_batch_cells, most_batch_rows};
ghost use Rattle.array_select.specs.Room.{most_batch_texts, share_among};

use crate::of_slots::{SlotRef, texts_fit};
use arrow_types::DataType;
use std::alloc::AllocError;

/// As many rows as a batch has that is made of rows.
pub const MOST_BATCH_ROWS: usize = 65_536;

// As many cells as a batch has, where it has more than one row. A cell has 16 bytes or fewer next
// to its text, so that all of them have 2 MB.
const MOST_BATCH_CELLS: usize = 131_072;

// As many bytes as the texts of all columns of a batch have, where it has more than one row: 2 MB.
const MOST_BATCH_TEXTS: usize = 2_097_152;

/// The last byte of text that an offset can name.
pub const MOST_OFFSET: usize = 2_147_483_647;

/// Whether a type's values are texts.
pub fn has_texts(data_type: DataType) -> bool
    ensures { result ≡ has_texts data_type }
{
    matches!(data_type, DataType::Utf8 | DataType::Dictionary(_))
}

// How many rows a batch of so many columns has at most.
fn most_rows(columns: usize) -> usize
    ensures some { 0 < result }
    ensures few { result ≤ most_batch_rows }
    ensures cells { 1 < result → result * columns ≤ most_batch_cells }
{
    if columns == 0 {
        return MOST_BATCH_ROWS;
    }
    (MOST_BATCH_CELLS / columns).min(MOST_BATCH_ROWS).max(1)
}

/// How many rows a batch of so many columns is tried with, of so many that are left and where it is
/// to have so many at most: one at least.
pub fn tried_rows(left: usize, columns: usize, most: usize) -> usize
    requires { 0 < left }
    ensures some { 0 < result }
    ensures within { result ≤ left }
    ensures few { result ≤ most_batch_rows }
    ensures cells { 1 < result → result * columns ≤ most_batch_cells }
{
    left.min(most_rows(columns)).min(most.max(1))
}

/// How many rows the next batch is to have at most: as many as the last one has, where it was tried
/// with more, and else twice as many as that was to have. So few batches are tried with many more
/// rows than they have.
pub fn next_most(most: usize, tried: usize, rows: usize) -> usize
    ensures { result ≡ if nat_lt rows tried then rows else min most 32768 * 2 }
{
    if rows < tried {
        rows
    } else {
        most.min(MOST_BATCH_ROWS / 2) * 2
    }
}

/// How many bytes the texts of each of so many columns have at most, where all have the same share.
pub fn share_among(columns: usize) -> usize
    ensures share { result ≡ share_among columns }
    ensures few { result ≤ most_batch_texts }
{
    MOST_BATCH_TEXTS / columns.max(1)
}

/// How many bytes the texts of one column have at most, in a batch of more than one row with
/// columns of these types: each column of texts has the same share.
pub fn text_share(types: &[DataType]) -> usize
    ensures few { result ≤ most_batch_texts }
    ensures all { sum_by (allowed result) types.now ≤ most_batch_texts }
{
    let mut with_texts = 0;
    for data_type in types {
        with_texts += has_texts(*data_type) as usize;
    }
    MOST_BATCH_TEXTS / with_texts.max(1)
}

/// How many of the slots, from the first on, stand in one column of a batch: all of them, halved
/// until their texts have no more bytes than the column's share. One stands there whatever its text
/// has, unless offsets cannot name each byte: that is a want of memory.
///
/// # Errors
///
/// `AllocError` where the first text alone has more bytes than offsets can name, and nowhere else.
pub fn fitting(slots: &[SlotRef<'_>], share: usize) -> Result<usize, AllocError>
    requires there { All (λ slot. slot.place < slot.column.now.len) slots.now }
    requires some { 0 < length slots.now }
    requires few { share ≤ most_batch_texts }
    ensures fits { IfOk result (Fits share (map slot_value slots.now)) }
    ensures refused { OnErr result (NoneFits (map slot_value slots.now)) }
{
    let mut count = slots.len();
    while !texts_fit(&slots[..count], share) {
        if count == 1 {
            return alone(slots);
        }
        count /= 2;
    }
    Ok(count)
}

// The first slot alone, if offsets can name each byte of its text.
fn alone(slots: &[SlotRef<'_>]) -> Result<usize, AllocError>
    requires there { All (λ slot. slot.place < slot.column.now.len) slots.now }
    requires some { 0 < length slots.now }
    ensures fits { IfOk result
        (λ count. (share : ℕ) → Fits share (map slot_value slots.now) count) }
    ensures refused { OnErr result (NoneFits (map slot_value slots.now)) }
{
    if texts_fit(&slots[..1], MOST_OFFSET) {
        Ok(1)
    } else {
        Err(AllocError)
    }
}
