//! Texts of several columns at places, in buffers of their own.

ghost use Rattle.std.specs.Prelude.{◌≡◌, ◌<◌, ◌^◌, All, IfOk, length, get_or};
ghost use Rattle.scan_base.specs.Value.{value_of};
ghost use Rattle.scan_base.specs.declared.value.Value.TheVariants.{Null};
ghost use Rattle.arrow_types.specs.declared.data_type.DataType.TheVariants.{Utf8};
ghost use Rattle.arrays.specs.Column.{IsColumn};
ghost use Rattle.arrays.specs.TypedLayouts.{IsOfType};
ghost use Rattle.arrays.specs.WrittenSlots.{text_bytes, offsets_from, texts_joined};
ghost use Rattle.array_select.specs.inside.SlotFilling.{FillSlots};
ghost use Rattle.array_select.specs.inside.GatheredMany.{columns_of, values_at, AreThere};

use crate::many_places::SlotPlaces;
use crate::text_filling::text_bytes;
use arrays::{Cells, Values};
use bytes::Bytes;
use scan_base::ValueRef;
use std::alloc::{AllocError, Global};

impl<'a> SlotPlaces<'a> {
    pub(crate) fn gather_texts(&self, alloc: Global) -> Result<Values, AllocError>
        requires there { AreThere self.now }
        requires typed { All (λ column. IsOfType Utf8 column.layout) (columns_of self.now) }
        requires stand { All IsColumn (columns_of self.now) }
        requires short { length (texts_joined (values_at self.now)) < 2 ^ 31 }
        ensures { IfOk result (λ kept. FillSlots kept Utf8 (values_at self.now)) }
    {
        let (offsets, total) = self.gather_offsets(alloc)?;
        let bytes = self.gather_bytes(alloc, total)?;
        Ok(Values::Texts(Bytes::from_vec(offsets)?, Bytes::from_vec(bytes)?))
    }

    // The offsets that cut the texts where they stand one after another, and how many bytes those
    // have.
    fn gather_offsets(&self, alloc: Global) -> Result<(Vec<u8>, u32), AllocError>
        requires there { AreThere self.now }
        requires short { length (texts_joined (values_at self.now)) < 2 ^ 31 }
        ensures offsets { IfOk result (λ made. made.0.items ≡ offsets_from 0 (values_at self.now)) }
        ensures total { IfOk result (λ made. made.1 ≡ length (texts_joined (values_at self.now))) }
    {
        let room = self.places.len().saturating_add(1).saturating_mul(4);
        let mut offsets = Vec::with_capacity(alloc, room)?;
        let mut offset: u32 = 0;
        for number in 0..self.places.len() {
            offsets.extend_from_slice(&offset.to_le_bytes())?;
            offset += self.text(number).len() as u32;
        }
        offsets.extend_from_slice(&offset.to_le_bytes())?;
        Ok((offsets, offset))
    }

    // The texts, one after another; room for `total` bytes is made at once.
    fn gather_bytes(&self, alloc: Global, total: u32) -> Result<Vec<u8>, AllocError>
        requires { AreThere self.now }
        ensures { IfOk result (λ made. made.items ≡ texts_joined (values_at self.now)) }
    {
        let mut made = Vec::with_capacity(alloc, total as usize)?;
        for number in 0..self.places.len() {
            made.extend_from_slice(self.text(number))?;
        }
        Ok(made)
    }

    // The bytes of the text of a slot, by its number, and none where it is no text.
    pub(crate) fn text(&self, number: usize) -> &'a [u8]
        requires there { AreThere self.now }
        requires number { number < length self.now.places.now }
        ensures { result.now ≡ text_bytes (get_or (values_at self.now) number Null) }
    {
        text_bytes(self.value(number))
    }

    // The value of a slot, by its number.
    pub(crate) fn value(&self, number: usize) -> ValueRef<'a>
        requires there { AreThere self.now }
        requires number { number < length self.now.places.now }
        ensures { value_of result ≡ get_or (values_at self.now) number Null }
    {
        let place = self.places[number];
        self.columns[place.column as usize].value_at(place.place as usize)
    }
}
