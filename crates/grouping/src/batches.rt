//! Batches of the answer.

ghost use Rattle.std.specs.Prelude.{◌≡◌, ◌≤◌, ◌<◌, ◌-◌, ◌+◌, ◌*◌, ◌^◌, ℕ, All, IfOk, length, map};
ghost use Rattle.std.specs.Prelude.{take, drop};
ghost use Rattle.array_select.specs.OfSlots.{slot_value, IsSlotOf};
ghost use Rattle.arrays.specs.WrittenSlots.{texts_joined};
ghost use Rattle.array_select.specs.Fitting.{Fits};
ghost use Rattle.array_select.specs.Room.{most_batch_cells, share_among};
ghost use Rattle.typed_plan.specs.TypedPlans.{type_at};
ghost use Rattle.grouping.specs.Answers.{IsThere};
ghost use Rattle.grouping.specs.inside.Answering.{first_cell};
ghost use Rattle.grouping.specs.inside.Finishing.{groups_in, GroupsFit, CanAnswer, IsItemColumn};
ghost use Rattle.grouping.specs.inside.Finishing.{IsGroupBatch, IsNextOf, item_cells};

use crate::answer_columns::{count_column, sum_column};
use crate::key::Place;
use array_select::{SlotRef, column_of_slots, fitting, has_texts, share_among};
use arrays::{Batch, Column};
use arrow_types::DataType;
use group_slots::ItemTallies;
use std::alloc::{AllocError, Global};
use typed_plan::Aggregate;

/// What was grouped, and what is kept of the groups.
#[derive(Clone, Copy, Drop)]
pub(crate) struct GroupRows<'a> {
    pub(crate) batches: &'a [Batch],
    pub(crate) types: &'a [DataType],
    pub(crate) keys: &'a [usize],
    pub(crate) items: &'a [Aggregate],
    pub(crate) firsts: &'a [Place],
    pub(crate) tallies: &'a [ItemTallies],
}

// The elements `from` up to, not with, `to`.
fn part<T>(elements: &[T], from: usize, to: usize) -> &[T]
    requires ordered { from ≤ to }
    requires within { to ≤ length elements.now }
    ensures { result.now ≡ take (to - from) (drop from elements.now) }
{
    &elements[from..to]
}

impl<'a> GroupRows<'a> {
    /// How many groups there are.
    pub(crate) fn groups(&self) -> usize
        ensures { result ≡ length (groups_in self.now).found }
    {
        if self.keys.is_empty() {
            1
        } else {
            self.firsts.len()
        }
    }

    /// The items of the groups from one on, as a batch: as many as have room in one, no more than
    /// `most`.
    ///
    /// # Errors
    ///
    /// `AllocError` where memory is refused, or a text has too many bytes.
    pub(crate) fn next(&self, alloc: Global, from: usize, most: usize) -> Result<Batch, AllocError>
        requires can { CanAnswer self.now }
        requires some { 0 < most }
        requires within { from + most ≤ length (groups_in self.now).found }
        requires cells { 1 < most → most * length self.now.items.now ≤ most_batch_cells }
        ensures { IfOk result (IsNextOf (groups_in self.now) from most) }
    {
        let count = self.how_many_fit(alloc, from, most)?;
        self.batch(alloc, from, from + count)
    }

    // How many of the groups from one on have room in one batch, of no more than `most`.
    fn how_many_fit(&self, alloc: Global, from: usize, most: usize) -> Result<usize, AllocError>
        requires can { CanAnswer self.now }
        requires some { 0 < most }
        requires within { from + most ≤ length (groups_in self.now).found }
        ensures { IfOk result
            (GroupsFit (groups_in self.now) from most (length self.now.items.now)) }
    {
        let mut count = most;
        for item in 0..self.items.len() {
            count = self.how_many_fit_in(alloc, item, from, count)?;
        }
        Ok(count)
    }

    // How many of the groups from one on have an item whose texts have room in one batch, of no
    // more than `most`.
    fn how_many_fit_in(
        &self,
        alloc: Global,
        item: usize,
        from: usize,
        most: usize,
    ) -> Result<usize, AllocError>
        requires can { CanAnswer self.now }
        requires there { item < length self.now.items.now }
        requires some { 0 < most }
        requires within { from + most ≤ length (groups_in self.now).found }
        ensures { IfOk result (Fits (share_among (length self.now.items.now))
            (item_cells (groups_in self.now) item from most)) }
    {
        match self.items[item] {
            Aggregate::Key(place) => {
                let firsts = part(self.firsts, from, from + most);
                self.how_many_firsts_fit(alloc, self.keys[place], firsts)
            }
            Aggregate::CountRows | Aggregate::Count(_) | Aggregate::Sum(_) => Ok(most),
        }
    }

    // How many of these first rows have texts in a column that have room in one batch. Only texts
    // are looked at.
    fn how_many_firsts_fit(
        &self,
        alloc: Global,
        column: usize,
        firsts: &[Place],
    ) -> Result<usize, AllocError>
        requires can { CanAnswer self.now }
        requires there { column < length self.now.types.now }
        requires firsts { All (IsThere self.now.batches.now) firsts.now }
        requires some { 0 < length firsts.now }
        ensures { IfOk result (Fits (share_among (length self.now.items.now))
            (map (first_cell self.now.batches.now column) firsts.now)) }
    {
        if !has_texts(self.types[column]) {
            return Ok(firsts.len());
        }
        let slots = self.slots(alloc, column, firsts)?;
        fitting(slots.as_slice(), share_among(self.items.len()))
    }

    // The items of the groups `from` up to, not with, `to`.
    fn batch(&self, alloc: Global, from: usize, to: usize) -> Result<Batch, AllocError>
        requires can { CanAnswer self.now }
        requires ordered { from ≤ to }
        requires within { to ≤ length (groups_in self.now).found }
        requires named { (item : ℕ) → item < length self.now.items.now →
            length (texts_joined (item_cells (groups_in self.now) item from (to - from))) < 2 ^ 31 }
        ensures { IfOk result (IsGroupBatch (groups_in self.now) from (to - from)) }
    {
        let mut columns = Vec::with_capacity(alloc, self.items.len())?;
        for item in 0..self.items.len() {
            columns.push(self.column(alloc, item, from, to)?)?;
        }
        Ok(Batch::new(columns, to - from))
    }

    // An item of the groups `from` up to, not with, `to`.
    fn column(
        &self,
        alloc: Global,
        item: usize,
        from: usize,
        to: usize,
    ) -> Result<Column, AllocError>
        requires can { CanAnswer self.now }
        requires there { item < length self.now.items.now }
        requires ordered { from ≤ to }
        requires within { to ≤ length (groups_in self.now).found }
        requires named { length
            (texts_joined (item_cells (groups_in self.now) item from (to - from))) < 2 ^ 31 }
        ensures { IfOk result (IsItemColumn (groups_in self.now) item from (to - from)) }
    {
        match self.items[item] {
            Aggregate::Key(place) => {
                let column = self.keys[place];
                let slots = self.slots(alloc, column, part(self.firsts, from, to))?;
                column_of_slots(alloc, self.types[column], slots.as_slice())
            }
            Aggregate::CountRows | Aggregate::Count(_) => {
                count_column(alloc, &self.tallies[item], from, to)
            }
            Aggregate::Sum(_) => sum_column(alloc, &self.tallies[item], from, to),
        }
    }

    // The slots of first rows in a column.
    fn slots(
        &self,
        alloc: Global,
        column: usize,
        firsts: &[Place],
    ) -> Result<Vec<SlotRef<'a>>, AllocError>
        requires can { CanAnswer self.now }
        requires there { column < length self.now.types.now }
        requires firsts { All (IsThere self.now.batches.now) firsts.now }
        ensures values { IfOk result (λ slots. map slot_value slots.items
            ≡ map (first_cell self.now.batches.now column) firsts.now) }
        ensures there { IfOk result
            (λ slots. All (IsSlotOf (type_at self.now.types.now column)) slots.items) }
    {
        let mut slots = Vec::with_capacity(alloc, firsts.len())?;
        for first in firsts {
            slots.push(self.slot(column, first))?;
        }
        Ok(slots)
    }

    // The slot of a first row in a column.
    fn slot(&self, column: usize, first: &Place) -> SlotRef<'a>
        requires can { CanAnswer self.now }
        requires there { column < length self.now.types.now }
        requires first { IsThere self.now.batches.now first.now }
        ensures value { slot_value result ≡ first_cell self.now.batches.now column first.now }
        ensures there { IsSlotOf (type_at self.now.types.now column) result }
    {
        SlotRef {
            column: &self.batches[first.batch].columns()[column],
            place: first.row,
        }
    }
}
