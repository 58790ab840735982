//! The buffers of texts, looked at before they are slots.

ghost use Rattle.std.specs.Prelude.{◌≡◌, ◌≤◌, ◌<◌, ◌+◌, ◌*◌, ◌^◌, ◌||◌, length};
ghost use Rattle.std.specs.List.{list_all, range_with_len};
ghost use Rattle.arrays.specs.Number.{element_at};
ghost use Rattle.arrays.specs.Validity.{IsLong};
ghost use Rattle.arrays.specs.Texts.{text_at, is_offset, text_stands, texts_stand};

use crate::element::Element;
use crate::text_checks::{are_cut_from_text, is_utf8};
use crate::validity::Validity;
use std::marker::Model;

// The buffers of texts, which may not stand.
#[derive(Drop)]
pub(crate) struct TextParts<'a> {
    pub validity: &'a Validity,
    pub offsets: &'a [u8],
    pub bytes: &'a [u8],
    pub len: usize,
}

impl<'a> Model for TextParts<'a> {
    ghost use Rattle.arrays.specs.Texts.{TextsAt};

    ghost Value = { TextsAt };

    ghost view = { λ s. record {
      validity = s.validity.now;
      offsets = s.offsets.now;
      bytes = s.bytes.now;
      len = s.len;
    } };
}

impl<'a> TextParts<'a> {
    // Offset `place`, as a number without a sign.
    fn offset(&self, place: usize) -> usize
        requires { 4 * (place + 1) ≤ length (self.now).offsets }
        ensures { result ≡ element_at 4 (self.now).offsets place }
    {
        u32::read(self.offsets, place) as usize
    }

    // Whether an offset is not negative and within the data.
    fn is_offset(&self, place: usize) -> bool
        requires { 4 * (place + 1) ≤ length (self.now).offsets }
        ensures { result ≡ is_offset self.now place }
    {
        let offset = self.offset(place);
        offset <= self.bytes.len() && offset < 1 << 31
    }

    // The bytes of a slot.
    fn text(&self, place: usize) -> &'a [u8]
        requires offsets { 4 * (place + 2) ≤ length (self.now).offsets }
        requires ordered { element_at 4 (self.now).offsets place
            ≤ element_at 4 (self.now).offsets (place + 1) }
        requires within { element_at 4 (self.now).offsets (place + 1) ≤ length (self.now).bytes }
        ensures { result.now ≡ text_at self.now place }
    {
        &self.bytes[self.offset(place)..self.offset(place + 1)]
    }

    // Whether a slot's text stands.
    fn slot_stands(&self, place: usize) -> bool
        requires offsets { 4 * (place + 2) ≤ length (self.now).offsets }
        requires place { place < (self.now).len }
        requires validity { IsLong (self.now).validity (self.now).len }
        ensures { result ≡ text_stands self.now place }
    {
        let _count = self.len;
        if !self.is_offset(place + 1) || self.offset(place) > self.offset(place + 1) {
            return false;
        }
        !self.validity.is_valid(place) || is_utf8(self.text(place))
    }

    // Whether each slot's text stands. They are looked at one by one only where they are not cut
    // from one text.
    fn slots_stand(&self) -> bool
        requires offsets { 4 * ((self.now).len + 1) ≤ length (self.now).offsets }
        requires validity { IsLong (self.now).validity (self.now).len }
        ensures { result ≡ list_all (text_stands self.now) (range_with_len 0 (self.now).len) }
    {
        if are_cut_from_text(self.offsets, self.bytes, self.len) {
            return true;
        }
        for place in 0..self.len {
            if !self.slot_stands(place) {
                return false;
            }
        }
        true
    }

    // Whether there are enough offsets, and each text stands.
    pub(crate) fn are_texts(&self) -> bool
        requires { IsLong (self.now).validity (self.now).len }
        ensures { result ≡ texts_stand self.now }
    {
        if self.len == 0 && self.offsets.is_empty() {
            return true;
        }
        if self.offsets.len() / 4 <= self.len {
            return false;
        }
        self.is_offset(0) && self.slots_stand()
    }
}
