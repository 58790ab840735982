//! Which slots are null, and how many.

ghost use Rattle.std.specs.Prelude.{◌≡◌, ◌≤◌, ◌+◌};
ghost use Rattle.scan_base.specs.Value.{value_of, is_null};
ghost use Rattle.arrays.specs.Layout.{layout_count, layout_slot};
ghost use Rattle.arrays.specs.Nulls.{null_count, AreAt};

use crate::cells::Cells;
use crate::slots::Slots;
use bitmap::Bits;
use scan_base::ValueRef;

/// Where the nulls of slots are.
#[derive(Clone, Copy)]
pub enum Nulls<'a> {
    /// No slot is null.
    Nowhere,
    /// Those slots are null whose bit is 0.
    AtZeros(&'a Bits),
    /// It takes each slot's value to tell.
    AtValues,
}

/// Whether a value is null.
pub fn is_null(value: ValueRef<'_>) -> bool
    ensures { result ≡ is_null (value_of value.entry) }
{
    match value {
        ValueRef::Null => true,
        _ => false,
    }
}

impl Slots {
    /// Where the nulls are.
    pub fn nulls(&self) -> Nulls<'_>
        ensures { AreAt result (layout_count self.now) (layout_slot self.now) }
    {
        let _count = self.len();
        if self.may_be_null_where_valid() {
            return Nulls::AtValues;
        }
        match self.validity().bits() {
            None => Nulls::Nowhere,
            Some(bits) => Nulls::AtZeros(bits),
        }
    }

    // How many of the slots from `first` on are null, of `len` of them.
    pub(crate) fn null_count(&self, first: usize, len: usize) -> usize
        requires { first + len ≤ layout_count self.now }
        ensures { result ≡ null_count (record { layout = self.now; first = first; len = len }) }
    {
        match self.nulls() {
            Nulls::Nowhere => 0,
            Nulls::AtZeros(bits) => len - bits.count_range(first, len),
            Nulls::AtValues => self.null_values(first, len),
        }
    }

    // The same, slot by slot.
    fn null_values(&self, first: usize, len: usize) -> usize
        requires { first + len ≤ layout_count self.now }
        ensures { result ≡ null_count (record { layout = self.now; first = first; len = len }) }
    {
        let _count = self.len();
        let mut count = 0;
        for place in 0..len {
            if is_null(self.value_at(first + place)) {
                count += 1;
            }
        }
        count
    }
}
