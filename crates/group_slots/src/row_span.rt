//! Rows of a batch that stand next to each other, all of one group.

ghost use Rattle.std.specs.Prelude.{◌≡◌, ◌≤◌, ◌<◌, ◌+◌, ◌-◌, ◌∷◌, IfOk, IfSome, OnOk, [], get_or};
ghost use Rattle.std.specs.Prelude.{length};
ghost use Rattle.scan_base.specs.Limits.{most_rows};
ghost use Rattle.arrays.specs.Nulls.{null_count};
ghost use Rattle.typed_plan.specs.declared.plan.Aggregate.TheVariants.{Count as CountOf};
ghost use Rattle.typed_plan.specs.declared.plan.Aggregate.TheVariants.{Sum as SumOf};
ghost use Rattle.group_slots.specs.Adding.{AreAdded, CanCountAll, IsAdded, IsKept, lists_of};
ghost use Rattle.group_slots.specs.Counting.{AreWithin, CanCount, IsSmall};
ghost use Rattle.group_slots.specs.HeldTallies.{count_tally, tallies_in};
ghost use Rattle.group_slots.specs.RowSpans.{IsSpan, IsTallyOf, rows_of_span};
ghost use Rattle.group_slots.specs.RowSpans.{span_groups, span_rows};
ghost use Rattle.group_slots.specs.Slots.{AreSlots};
ghost use Rattle.group_slots.specs.Tallies.{both, no_rows, tally_of};

use crate::item_tallies::{ItemTallies, widened};
use crate::partial_sums::sum_of_span;
use crate::slots::{IntegerSlots, MarkedValidity, Number, WholeValidity, integer_slots};
use crate::tally::Tally;
use arrays::{Batch, Cells, Column, Layout};
use arrow_types::IntegerType;
use std::alloc::AllocError;
use typed_plan::Aggregate;

/// The rows of a batch from one up to, not with, another, which are all of the only group, and how
/// many rows were fed before them.
#[derive(Clone, Copy, Drop)]
pub struct RowSpan<'p> {
    pub batch: &'p Batch,
    pub from: usize,
    pub to: usize,
    pub fed: usize,
}

/// Adds the rows to the tallies of the only group, one for each item. No row is looked at but for
/// sums, and for nulls in a part of a column.
///
/// # Errors
///
/// `AllocError` where memory is refused.
pub fn add_span(
    tallies: &mut [ItemTallies],
    items: &[Aggregate],
    span: &RowSpan<'_>,
) -> Result<(), AllocError>
    requires there { CanCountAll items.now span.now.batch.now.columns }
    requires span { IsSpan span.now }
    requires few { span.now.fed + (span.now.to - span.now.from) ≤ most_rows }
    requires kept { IsKept items.now 1 span.now.fed (lists_of tallies.old) }
    ensures added { OnOk result
        (AreAdded items.now span.now.batch.now.columns (span_rows span.now)
        (span_groups span.now) 1 span.now.fed (lists_of tallies.old) (lists_of tallies.new)
        (length items.now)) }
    ensures kept { OnOk result (IsKept items.now 1
        (span.now.fed + (span.now.to - span.now.from)) (lists_of tallies.new)) }
{
    for item in 0..items.len() {
        span.add_to(&mut tallies[item], items[item])?;
    }
    Ok(())
}

// Adds to the only count.
fn add_count(counts: &mut [u64], more: u64)
    requires one { length counts.old ≡ 1 }
    requires few { get_or counts.old 0 0 + more ≤ most_rows }
    ensures { counts.new ≡ (get_or counts.old 0 0 + more) ∷ [] }
{
    counts[0] += more;
}

// Adds to the only tally.
fn add_tally(tallies: &mut [Tally], more: Tally)
    requires one { length tallies.old ≡ 1 }
    requires few { (get_or tallies.old 0 no_rows).count + more.count ≤ most_rows }
    requires small { IsSmall (get_or tallies.old 0 no_rows) }
    requires more { IsSmall more }
    ensures both { tallies.new ≡ both (get_or tallies.old 0 no_rows) more ∷ [] }
    ensures small { IsSmall (both (get_or tallies.old 0 no_rows) more) }
{
    tallies[0] = tallies[0].with(more);
}

// Adds to the only tally. Only counts are held until a sum is other than 0.
fn add_more(tallies: &mut ItemTallies, more: Tally) -> Result<(), AllocError>
    requires one { length (tallies_in tallies.old) ≡ 1 }
    requires few { (get_or (tallies_in tallies.old) 0 no_rows).count + more.count ≤ most_rows }
    requires small { IsSmall (get_or (tallies_in tallies.old) 0 no_rows) }
    requires more { IsSmall more }
    ensures { OnOk result (tallies_in tallies.new
        ≡ both (get_or (tallies_in tallies.old) 0 no_rows) more ∷ []) }
{
    match tallies {
        ItemTallies::Sums(sums) => add_tally(sums.as_mut_slice(), more),
        ItemTallies::Counts(counts) => {
            if more.sum == 0 {
                add_count(counts.as_mut_slice(), more.count);
            } else {
                let mut sums = widened(*counts.allocator(), counts.as_slice())?;
                add_tally(sums.as_mut_slice(), more);
                *tallies = ItemTallies::Sums(sums);
            }
        }
    }
    Ok(())
}

// How many slots of a column have a value. Their nulls were counted when it was made.
#[tactic(auto, using(crate::proofs::RangeTallies::nulls_within))]
fn values_in(column: &Column) -> u64
    ensures { result ≡ column.now.len - null_count column.now }
{
    (column.len() - column.null_count()) as u64
}

impl<'p> RowSpan<'p> {
    // Adds the rows to the tally of the only group.
    fn add_to(&self, tallies: &mut ItemTallies, item: Aggregate) -> Result<(), AllocError>
        requires there { CanCount item self.now.batch.now.columns }
        requires span { IsSpan self.now }
        requires few { self.now.fed + (self.now.to - self.now.from) ≤ most_rows }
        requires one { length (tallies_in tallies.old) ≡ 1 }
        requires small { AreWithin self.now.fed (tallies_in tallies.old) }
        ensures added { OnOk result (IsAdded item self.now.batch.now.columns (span_rows self.now)
            (span_groups self.now) 1 (tallies_in tallies.old) (tallies_in tallies.new)) }
        ensures small { OnOk result (AreWithin (self.now.fed + (self.now.to - self.now.from))
            (tallies_in tallies.new)) }
    {
        let more = self.tally(item)?;
        add_more(tallies, more)
    }

    // The tally of the rows.
    fn tally(&self, item: Aggregate) -> Result<Tally, AllocError>
        requires there { CanCount item self.now.batch.now.columns }
        requires span { IsSpan self.now }
        requires few { self.now.to - self.now.from ≤ most_rows }
        ensures { IfOk result (IsTallyOf item (rows_of_span self.now)) }
    {
        match item {
            Aggregate::Key(_) => Ok(Tally::new()),
            Aggregate::CountRows => Ok(Tally::of_count((self.to - self.from) as u64)),
            Aggregate::Count(column) => Ok(Tally::of_count(self.values(column)?)),
            Aggregate::Sum(column) => Ok(self.sum(column)),
        }
    }

    // How many values the rows have in a column.
    fn values(&self, column: usize) -> Result<u64, AllocError>
        requires there { column < length self.now.batch.now.columns }
        requires span { IsSpan self.now }
        ensures count { IfOk result
            (λ count. count_tally count ≡ tally_of (CountOf column) (rows_of_span self.now)) }
        ensures few { IfOk result (λ count. count ≤ self.now.to - self.now.from) }
    {
        let cells = &self.batch.columns()[column];
        let rows = self.to - self.from;
        if rows == cells.len() {
            let all = values_in(cells);
            return Ok(all);
        }
        let part = cells.slice(self.from, self.to)?;
        let some = values_in(&part);
        Ok(some)
    }

    // The sum of the rows' numbers in a column.
    fn sum(&self, column: usize) -> Tally
        requires there { CanCount (SumOf column) self.now.batch.now.columns }
        requires span { IsSpan self.now }
        requires few { self.now.to - self.now.from ≤ most_rows }
        ensures { IsTallyOf (SumOf column) (rows_of_span self.now) result }
    {
        let numbers = &self.batch.columns()[column];
        let _count = numbers.len();
        match numbers.layout() {
            Layout::Integers(cells) => self.sum_kind(column, &integer_slots(numbers, &cells)),
            _ => self.sum_each(column),
        }
    }

    // The same, where these are the numbers of the column.
    fn sum_kind(&self, column: usize, slots: &IntegerSlots<'_>) -> Tally
        requires there { CanCount (SumOf column) self.now.batch.now.columns }
        requires slots { AreSlots slots.now column self.now.batch.now }
        requires span { IsSpan self.now }
        requires few { self.now.to - self.now.from ≤ most_rows }
        ensures { IsTallyOf (SumOf column) (rows_of_span self.now) result }
    {
        match slots.kind {
            IntegerType::Int8 => self.sum_slots::<i8>(column, slots),
            IntegerType::Int16 => self.sum_slots::<i16>(column, slots),
            IntegerType::Int32 => self.sum_slots::<i32>(column, slots),
            IntegerType::Int64 => self.sum_slots::<i64>(column, slots),
            IntegerType::UInt8 => self.sum_slots::<u8>(column, slots),
            IntegerType::UInt16 => self.sum_slots::<u16>(column, slots),
            IntegerType::UInt32 => self.sum_slots::<u32>(column, slots),
            IntegerType::UInt64 => self.sum_each(column),
        }
    }

    // The same, where these are the numbers of the column, of a type: in 64 bits, or else row by
    // row.
    fn sum_slots<N: Number>(&self, column: usize, slots: &IntegerSlots<'_>) -> Tally
        requires there { CanCount (SumOf column) self.now.batch.now.columns }
        requires kind { slots.now.kind ≡ N.kind }
        requires slots { AreSlots slots.now column self.now.batch.now }
        requires span { IsSpan self.now }
        requires few { self.now.to - self.now.from ≤ most_rows }
        ensures { IsTallyOf (SumOf column) (rows_of_span self.now) result }
    {
        match self.short_sum::<N>(column, slots) {
            Some(tally) => tally,
            None => self.sum_each(column),
        }
    }

    // The same, if 64 bits hold the sum of the first of them, however many.
    fn short_sum<N: Number>(&self, column: usize, slots: &IntegerSlots<'_>) -> Option<Tally>
        requires kind { slots.now.kind ≡ N.kind }
        requires slots { AreSlots slots.now column self.now.batch.now }
        requires span { IsSpan self.now }
        requires few { self.now.to - self.now.from ≤ most_rows }
        ensures { IfSome result (IsTallyOf (SumOf column) (rows_of_span self.now)) }
    {
        match slots.validity.bits() {
            None => sum_of_span::<N, WholeValidity>(column, slots, self),
            Some(_) => sum_of_span::<N, MarkedValidity>(column, slots, self),
        }
    }

    // The same, row by row.
    fn sum_each(&self, column: usize) -> Tally
        requires there { CanCount (SumOf column) self.now.batch.now.columns }
        requires span { IsSpan self.now }
        requires few { self.now.to - self.now.from ≤ most_rows }
        ensures { IsTallyOf (SumOf column) (rows_of_span self.now) result }
    {
        let mut tally = Tally::new();
        for row in self.from..self.to {
            tally = tally.with_row(Aggregate::Sum(column), self.batch, row);
        }
        tally
    }
}
