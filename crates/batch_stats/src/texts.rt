//! The statistics of columns of texts.

ghost use Rattle.std.specs.Prelude.{◌≡◌, ◌≤◌, ◌+◌, ◌-◌, ◌*◌, ℕ, length, slice_range, Some};
ghost use Rattle.scan_base.specs.declared.comparison.Comparison.TheVariants.{Less};
ghost use Rattle.scan_base.specs.declared.value.Value.{Value};
ghost use Rattle.scan_base.specs.declared.value.Value.TheVariants.{Text};
ghost use Rattle.arrays.specs.Number.{element_at, AreBytes};
ghost use Rattle.arrays.specs.Texts.{texts_slot};
ghost use Rattle.arrays.specs.declared.layout.Layout.TheVariants.{Texts as TextsLayout};
ghost use Rattle.batch_stats.specs.HeldStats.{IsStatsOf};
ghost use Rattle.batch_stats.specs.Stats.{stand, with_value};
ghost use Rattle.batch_stats.specs.inside.Slots.{ends_with};
ghost use Rattle.batch_stats.specs.inside.TextKeys.{key_of};
ghost use Rattle.batch_stats.specs.inside.TextSlots.{AreEndsAt, AreKeyed, IsKeyed, IsTextAt};
ghost use Rattle.batch_stats.specs.inside.TextSlots.{KeepsEnds};

use crate::keys::{KeyRange, key_at};
use crate::stats::Stats;
use crate::validity::first_valid;
use arrays::{Element, TextsRef};
use std::cmp::Ordering;

/// A text, the slot that has it, and its key.
#[derive(Clone, Copy, Drop)]
pub(crate) struct SlotText<'a> {
    pub(crate) place: usize,
    pub(crate) text: &'a str,
    pub(crate) key: u64,
}

/// The least and the greatest of some texts.
#[derive(Clone, Copy, Drop)]
pub(crate) struct TextRange<'a> {
    pub(crate) least: SlotText<'a>,
    pub(crate) greatest: SlotText<'a>,
}

// Whether a text is below another, by their bytes. Mostly their keys tell.
fn is_below(text: SlotText<'_>, other: SlotText<'_>) -> bool
    requires text { IsKeyed text }
    requires other { IsKeyed other }
    ensures { result ≡ stand Less (Text text.entry.text.now) (Text other.entry.text.now) }
{
    if text.key != other.key {
        return text.key < other.key;
    }
    text.text.cmp(other.text) == Ordering::Less
}

// The key of the text that the offsets of a slot cut.
fn slot_key(offsets: &[u8], bytes: &[u8], place: usize) -> u64
    requires room { 4 * (place + 2) ≤ length offsets.now }
    requires rise { element_at 4 offsets.now place ≤ element_at 4 offsets.now (place + 1) }
    requires within { element_at 4 offsets.now (place + 1) ≤ length bytes.now }
    ensures key { result ≡ key_of (slice_range bytes.now (element_at 4 offsets.now place)
        (element_at 4 offsets.now (place + 1))) }
    ensures bytes { AreBytes bytes.now }
{
    let begin = u32::read(offsets, place) as usize;
    key_at(bytes, begin, u32::read(offsets, place + 1) as usize)
}

impl<'a> TextRange<'a> {
    // The keys of texts that change no end.
    fn kept_keys(self) -> KeyRange
        requires { AreKeyed self }
        ensures kept { KeepsEnds (Some (
          Text self.entry.least.text.now,
          Text self.entry.greatest.text.now,
        )) result.low result.high }
        ensures count { result.count ≡ result.high + 1 - result.low }
    {
        KeyRange::new(self.least.key, self.greatest.key)
    }

    // The same with one text more. It stands apart, so that the loop over texts keeps few numbers.
    #[inline(never)]
    fn with(self, text: SlotText<'a>) -> TextRange<'a>
        requires keys { AreKeyed self }
        requires key { IsKeyed text }
        ensures ends { Some (Text result.least.text.now, Text result.greatest.text.now)
            ≡ with_value (Some (Text self.entry.least.text.now, Text self.entry.greatest.text.now))
            (Text text.entry.text.now) }
        ensures places { (slot : ℕ → Value) (from to : ℕ) → AreEndsAt slot from to self.entry →
            IsTextAt slot from to text.entry → AreEndsAt slot from to result }
        ensures keys { AreKeyed result }
    {
        TextRange {
            least: if is_below(text, self.least) {
                text
            } else {
                self.least
            },
            greatest: if is_below(self.greatest, text) {
                text
            } else {
                self.greatest
            },
        }
    }

    // The same with those of the slots `from` up to, not with, `to` that are valid. Most are told
    // by their keys to change no end.
    #[inline(never)]
    fn with_slots(self, cells: &TextsRef<'a>, from: usize, to: usize) -> TextRange<'a>
        requires within { to ≤ (cells.now).len }
        requires keys { AreKeyed self }
        ensures ends { Some (Text result.least.text.now, Text result.greatest.text.now)
            ≡ ends_with (Some (Text self.entry.least.text.now, Text self.entry.greatest.text.now))
            (texts_slot cells.now) from to }
        ensures places { (first : ℕ) → first ≤ from →
            AreEndsAt (texts_slot cells.now) first to self.entry →
            AreEndsAt (texts_slot cells.now) first to result }
    {
        let _count = cells.len();
        let (offsets, bytes) = (cells.offsets(), cells.bytes());
        let mut range = self;
        let mut kept = range.kept_keys();
        for place in from..to {
            let key = slot_key(offsets, bytes, place);
            if !kept.has(key) && cells.validity().is_valid(place) {
                range = range.with(SlotText {
                    place,
                    text: cells.get(place),
                    key,
                });
                kept = range.kept_keys();
            }
        }
        range
    }
}

/// The statistics of `len` slots of texts from `first` on.
pub(crate) fn texts_stats(cells: &TextsRef<'_>, first: usize, len: usize) -> Stats
    requires { first + len ≤ (cells.now).len }
    ensures { IsStatsOf (record { layout = TextsLayout cells.now; first = first; len = len })
        result }
{
    let _count = cells.len();
    let to = first + len;
    let Some(start) = first_valid(cells.validity(), first, to) else {
        return Stats::Nulls;
    };
    let text = SlotText {
        place: start,
        text: cells.get(start),
        key: slot_key(cells.offsets(), cells.bytes(), start),
    };
    let one = TextRange {
        least: text,
        greatest: text,
    };
    let range = one.with_slots(cells, start + 1, to);
    Stats::Texts {
        least: range.least.place - first,
        greatest: range.greatest.place - first,
    }
}
