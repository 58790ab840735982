//! Slots of several columns at places, in buffers of their own.

ghost use Rattle.std.specs.Prelude.{◌≡◌, ◌<◌, ◌^◌, All, IfOk, false, get_or, length, map, nat_le};
ghost use Rattle.std.specs.Prelude.{not};
ghost use Rattle.arrow_types.specs.Answer.{copied_type};
ghost use Rattle.scan_base.specs.Value.{is_null};
ghost use Rattle.scan_base.specs.declared.value.Value.TheVariants.{Null};
ghost use Rattle.arrays.specs.Column.{slot_of, values_of, IsColumn};
ghost use Rattle.arrays.specs.Nulls.{null_count};
ghost use Rattle.arrays.specs.TypedLayouts.{IsOfType};
ghost use Rattle.arrays.specs.WrittenSlots.{texts_joined};
ghost use Rattle.array_select.specs.GatherMany.{value_in, IsPlaceIn};
ghost use Rattle.array_select.specs.inside.SlotFilling.{AreValidUnlessNull, FillSlots};
ghost use Rattle.array_select.specs.inside.GatheredMany.{columns_of, values_at, AreThere};

use arrays::{Cells, Column, Nulls, Slots, Validity, Values, is_null};
use arrow_types::DataType;
use bitmap::BitsBuilder;
use std::alloc::{AllocError, Global};

/// A slot of one of several columns: the number of the column, and the slot's place in it, both
/// counted from 0.
#[derive(Clone, Copy, Drop)]
pub struct SlotPlace {
    pub column: u32,
    pub place: u32,
}

// Columns, and the places of slots of them.
#[derive(Clone, Copy, Drop)]
pub(crate) struct SlotPlaces<'a> {
    pub(crate) columns: &'a [&'a Column],
    pub(crate) places: &'a [SlotPlace],
}

/// The slots of these columns of a type at these places, in order, in buffers of their own: a slot
/// may be taken more than once. The type is no dictionary's.
///
/// # Errors
///
/// `AllocError` where memory is refused.
pub fn gather_many(
    alloc: Global,
    data_type: DataType,
    columns: &[&Column],
    places: &[SlotPlace],
) -> Result<Column, AllocError>
    requires plain { copied_type data_type ≡ data_type }
    requires typed { All (λ column. IsOfType data_type column.layout)
        (map (λ column. column.now) columns.now) }
    requires there { All (IsPlaceIn (map (λ column. column.now) columns.now)) places.now }
    requires short { length (texts_joined
        (map (value_in (map (λ column. column.now) columns.now)) places.now)) < 2 ^ 31 }
    ensures values { IfOk result (λ column. values_of column
        ≡ map (value_in (map (λ column. column.now) columns.now)) places.now) }
    ensures long { IfOk result (λ column. column.len ≡ length places.now) }
    ensures typed { IfOk result (λ column. IsOfType data_type column.layout) }
{
    let slots = SlotPlaces { columns, places };
    let validity = slots.gather_validity(alloc)?;
    let kept = slots.gather_values(alloc, data_type, &validity)?;
    Ok(Column::new(Slots::from_parts(validity, places.len(), kept)))
}

// Whether a slot of a column is not null.
fn has_value(column: &Column, place: usize) -> bool
    requires { place < column.now.len }
    ensures { result ≡ not (is_null (slot_of column.now place)) }
{
    let _count = column.len();
    let at = column.first() + place;
    match column.slots().nulls() {
        Nulls::Nowhere => true,
        Nulls::AtZeros(bits) => bits.get(at),
        Nulls::AtValues => !is_null(column.value_at(place)),
    }
}

/// Whether the texts of the slots of these columns at these places have no more than `most` bytes,
/// one after another.
pub fn texts_fit_many(columns: &[&Column], places: &[SlotPlace], most: usize) -> bool
    requires { All (IsPlaceIn (map (λ column. column.now) columns.now)) places.now }
    ensures { result ≡ nat_le (length
        (texts_joined (map (value_in (map (λ column. column.now) columns.now)) places.now))) most }
{
    let slots = SlotPlaces { columns, places };
    let mut left = most;
    for number in 0..places.len() {
        let bytes = slots.text(number).len();
        if bytes > left {
            return false;
        }
        left -= bytes;
    }
    true
}

impl<'a> SlotPlaces<'a> {
    // Which of the slots are valid: without bits, where no slot of the columns is null.
    fn gather_validity(&self, alloc: Global) -> Result<Validity, AllocError>
        requires { AreThere self.now }
        ensures valid { IfOk result (λ validity. AreValidUnlessNull validity (values_at self.now)) }
        ensures stand { IfOk result (λ _. All IsColumn (columns_of self.now)) }
    {
        if !self.have_nulls() {
            return Ok(Validity::new(None));
        }
        let mut bits = BitsBuilder::with_capacity(alloc, self.places.len())?;
        for number in 0..self.places.len() {
            bits.push(self.has_value(number))?;
        }
        Ok(Validity::new(Some(bits.into_bits()?)))
    }

    // Whether a slot, by its number, is not null.
    fn has_value(&self, number: usize) -> bool
        requires there { AreThere self.now }
        requires number { number < length self.now.places.now }
        ensures { result ≡ not (is_null (get_or (values_at self.now) number Null)) }
    {
        let place = self.places[number];
        has_value(self.columns[place.column as usize], place.place as usize)
    }

    // Whether a slot of the columns is null.
    fn have_nulls(&self) -> bool
        ensures nulls { result ≡ false →
            All (λ column. null_count column ≡ 0) (columns_of self.now) }
        ensures stand { All IsColumn (columns_of self.now) }
    {
        let mut nulls = false;
        for column in self.columns {
            let _count = column.len();
            nulls = nulls | (column.null_count() > 0);
        }
        nulls
    }

    // The values of the slots, as a column of their type keeps them.
    fn gather_values(
        &self,
        alloc: Global,
        data_type: DataType,
        validity: &Validity,
    ) -> Result<Values, AllocError>
        requires there { AreThere self.now }
        requires plain { copied_type data_type ≡ data_type }
        requires typed { All (λ column. IsOfType data_type column.layout) (columns_of self.now) }
        requires short { length (texts_joined (values_at self.now)) < 2 ^ 31 }
        requires stand { All IsColumn (columns_of self.now) }
        requires valid { AreValidUnlessNull validity.now (values_at self.now) }
        ensures { IfOk result (λ kept. FillSlots kept data_type (values_at self.now)) }
    {
        match data_type {
            DataType::Number(number) => self.gather_numbers(alloc, number, validity),
            DataType::Bool => self.gather_flags(alloc),
            DataType::Utf8 | DataType::Dictionary(_) => self.gather_texts(alloc),
        }
    }
}
