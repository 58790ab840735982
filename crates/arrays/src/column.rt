//! One column of a batch.

ghost use Rattle.std.specs.Prelude.{◌≡◌, ◌==◌, ◌≤◌, ◌<◌, ◌+◌, ℕ, false, IfOk};
ghost use Rattle.std.specs.List.{list_any};
ghost use Rattle.scan_base.specs.Value.{is_null};
ghost use Rattle.arrays.specs.Layout.{layout_count, IsLayout};
ghost use Rattle.arrays.specs.Nulls.{null_count};
ghost use Rattle.arrays.specs.Column.{cut, whole, slot_of, values_of, IsColumn};

use crate::cells::Cells;
use crate::layout::Layout;
use crate::slots::Slots;
use scan_base::ValueRef;
use std::alloc::AllocError;
use std::marker::Model;

/// Slots of one layout, or those of them from one up to another, and how many of them are null. Its
/// buffers are cuts of the body that they came in. A contract sees the layout and the range.
pub struct Column {
    slots: Slots,
    first: usize,
    len: usize,
    null_count: usize,
}

// Written out, so that dropping it is one call (docs/DECISIONS.md).
impl Drop for Column {
    fn drop(self) {
        let Column {
            slots: _,
            first: _,
            len: _,
            null_count: _,
        } = self;
    }
}

impl Model for Column {
    ghost use Rattle.arrays.specs.Column.{ColumnAt};
    ghost use Rattle.arrays.specs.inside.Nulls.{IsCounted};

    ghost Value = { ColumnAt };

    ghost view = { λ c. record { layout = c.slots; first = c.first; len = c.len } };

    ghost invariant = { λ c. IsCounted (record { layout = c.slots; first = c.first; len = c.len })
        c.null_count };
}

impl Column {
    /// A column of all these slots.
    pub fn new(slots: Slots) -> Column
        ensures { result ≡ whole slots }
    {
        let len = slots.len();
        Column::counted(slots, 0, len)
    }

    // A column of the slots from `first` on, whose nulls it counts.
    fn counted(slots: Slots, first: usize, len: usize) -> Column
        requires { first + len ≤ layout_count slots }
        ensures { result ≡ record { layout = slots; first = first; len = len } }
    {
        let _count = slots.len();
        let null_count = slots.null_count(first, len);
        Column {
            slots,
            first,
            len,
            null_count,
        }
    }

    /// Whether there is no slot.
    pub fn is_empty(&self) -> bool
        ensures { result ≡ ((self.now).len == 0) }
    {
        self.len == 0
    }

    /// The slots, those of which from `first` on are this column's.
    pub fn slots(&self) -> &Slots
        ensures { result.now ≡ (self.now).layout }
    {
        &self.slots
    }

    /// The same slots by their layout.
    pub fn layout(&self) -> Layout<'_>
        ensures value { result ≡ (self.now).layout }
        ensures stands { IsLayout (self.now).layout }
    {
        self.slots.layout()
    }

    /// The place of this column's first slot among them.
    pub fn first(&self) -> usize
        ensures { result ≡ (self.now).first }
    {
        self.first
    }

    /// The slots `from` up to, not with, `to`, over the same buffers: no value is copied.
    ///
    /// # Errors
    ///
    /// `AllocError` where a buffer or a dictionary refuses another owner.
    pub fn slice(&self, from: usize, to: usize) -> Result<Column, AllocError>
        requires ordered { from ≤ to }
        requires within { to ≤ (self.now).len }
        ensures { IfOk result (λ column. column ≡ cut self.now from to) }
    {
        Ok(Column::counted(self.slots.share()?, self.first + from, to - from))
    }

    /// How many slots are null. They were counted when the column was made.
    pub fn null_count(&self) -> usize
        ensures { result ≡ null_count self.now }
    {
        self.null_count
    }
}

impl Cells for Column {
    ghost use Rattle.arrays.specs.Column.{slot_of};

    ghost slot_count = { λ column. column.len };

    ghost slot = { slot_of };

    fn len(&self) -> usize
        ensures count { result ≡ (self.now).len }
        ensures stands { IsColumn self.now }
    {
        self.len
    }

    fn value_at(&self, place: usize) -> ValueRef<'_> {
        self.slots.value_at(self.first + place)
    }

    fn may_have_nulls(&self) -> bool
        ensures slots { result ≡ false →
            (place : ℕ) → place < (self.now).len → is_null (slot_of self.now place) ≡ false }
        ensures values { result ≡ false → list_any is_null (values_of self.now) ≡ false }
    {
        self.slots.may_have_nulls()
    }
}
