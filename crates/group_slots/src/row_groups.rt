//! Rows that are fed, and their groups.

ghost use Rattle.std.specs.Prelude.{◌≡◌, ◌≤◌, ◌<◌, ℕ, ◌+◌, All, OnOk, length};
ghost use Rattle.scan_base.specs.Limits.{most_rows};
ghost use Rattle.group_slots.specs.Adding.{IsAdded, AreAdded, CanCountAll, IsKept, lists_of};
ghost use Rattle.group_slots.specs.Counting.{AreWithin, CanCount, stepped};
ghost use Rattle.group_slots.specs.HeldTallies.{tallies_in};

use crate::counts::{count_rows, count_values};
use crate::item_tallies::{ItemTallies, widened};
use crate::sums::sum_rows;
use crate::tally::Tally;
use arrays::Batch;
use std::alloc::AllocError;
use typed_plan::Aggregate;

/// Rows of a batch, the group of each, and how many rows were fed before them.
#[derive(Clone, Copy, Drop)]
pub struct RowGroups<'p> {
    pub batch: &'p Batch,
    pub rows: &'p [u32],
    pub groups: &'p [u32],
    pub fed: usize,
}

// Adds each row to the tally of its group. Of a key nothing is kept, so its tallies stay.
fn add_rows(
    tallies: &mut ItemTallies,
    item: Aggregate,
    part: &RowGroups<'_>,
) -> Result<(), AllocError>
    requires there { CanCount item part.now.batch.now.columns }
    requires within { All (λ row. row < part.now.batch.now.rows) part.now.rows.now }
    requires grouped { All (λ group. group < length (tallies_in tallies.old)) part.now.groups.now }
    requires long { length part.now.groups.now ≡ length part.now.rows.now }
    requires few { part.now.fed + length part.now.rows.now ≤ most_rows }
    requires small { AreWithin part.now.fed (tallies_in tallies.old) }
    ensures stepped { OnOk result (tallies_in tallies.new
        ≡ stepped item part.now.batch.now.columns part.now.groups.now part.now.rows.now
        (tallies_in tallies.old) (length part.now.rows.now)) }
    ensures small { OnOk result
        (AreWithin (part.now.fed + length part.now.rows.now) (tallies_in tallies.new)) }
{
    match tallies {
        ItemTallies::Counts(counts) => match item {
            Aggregate::Key(_) => {}
            Aggregate::CountRows => count_rows(counts.as_mut_slice(), part),
            Aggregate::Count(column) => count_values(counts.as_mut_slice(), column, part),
            Aggregate::Sum(column) => {
                let mut sums = widened(*counts.allocator(), counts.as_slice())?;
                sum_rows(sums.as_mut_slice(), column, part);
                *tallies = ItemTallies::Sums(sums);
            }
        },
        ItemTallies::Sums(sums) => match item {
            Aggregate::Sum(column) => sum_rows(sums.as_mut_slice(), column, part),
            _ => add_each(sums.as_mut_slice(), item, part),
        },
    }
    Ok(())
}

/// Adds each row to the tally of its group, one by one.
pub(crate) fn add_each(tallies: &mut [Tally], item: Aggregate, part: &RowGroups<'_>)
    requires there { CanCount item part.now.batch.now.columns }
    requires within { All (λ row. row < part.now.batch.now.rows) part.now.rows.now }
    requires grouped { All (λ group. group < length tallies.old) part.now.groups.now }
    requires long { length part.now.groups.now ≡ length part.now.rows.now }
    requires few { part.now.fed + length part.now.rows.now ≤ most_rows }
    requires small { AreWithin part.now.fed tallies.old }
    ensures stepped { tallies.new ≡ stepped item part.now.batch.now.columns part.now.groups.now
        part.now.rows.now tallies.old (length part.now.rows.now) }
    ensures small { AreWithin (part.now.fed + length part.now.rows.now) tallies.new }
{
    for k in 0..part.rows.len() {
        let group = part.groups[k] as usize;
        tallies[group] = tallies[group].with_row(item, part.batch, part.rows[k] as usize);
    }
}

/// Adds each row to the tally of its group, of so many groups that were found.
///
/// # Errors
///
/// `AllocError` where memory is refused.
pub(crate) fn add_to(
    tallies: &mut ItemTallies,
    item: Aggregate,
    part: &RowGroups<'_>,
    found: usize,
) -> Result<(), AllocError>
    requires there { CanCount item part.now.batch.now.columns }
    requires within { All (λ row. row < part.now.batch.now.rows) part.now.rows.now }
    requires grouped { All (λ group. group < found) part.now.groups.now }
    requires long { length part.now.groups.now ≡ length part.now.rows.now }
    requires few { part.now.fed + length part.now.rows.now ≤ most_rows }
    requires grown { length (tallies_in tallies.old) ≤ found }
    requires small { AreWithin part.now.fed (tallies_in tallies.old) }
    ensures added { OnOk result (IsAdded item part.now.batch.now.columns part.now.rows.now
        part.now.groups.now found (tallies_in tallies.old) (tallies_in tallies.new)) }
    ensures small { OnOk result
        (AreWithin (part.now.fed + length part.now.rows.now) (tallies_in tallies.new)) }
{
    tallies.resize(found)?;
    add_rows(tallies, item, part)
}

/// Adds each row to the tallies of its group, one for each item.
///
/// # Errors
///
/// `AllocError` where memory is refused.
pub fn add_all(
    tallies: &mut [ItemTallies],
    items: &[Aggregate],
    part: &RowGroups<'_>,
    found: usize,
) -> Result<(), AllocError>
    requires there { CanCountAll items.now part.now.batch.now.columns }
    requires within { All (λ row. row < part.now.batch.now.rows) part.now.rows.now }
    requires grouped { All (λ group. group < found) part.now.groups.now }
    requires long { length part.now.groups.now ≡ length part.now.rows.now }
    requires few { part.now.fed + length part.now.rows.now ≤ most_rows }
    requires kept { (before : ℕ) × (before ≤ found)
        × IsKept items.now before part.now.fed (lists_of tallies.old) }
    ensures added { OnOk result
        (AreAdded items.now part.now.batch.now.columns part.now.rows.now part.now.groups.now found
        part.now.fed (lists_of tallies.old) (lists_of tallies.new) (length items.now)) }
    ensures kept { OnOk result
        (IsKept items.now found (part.now.fed + length part.now.rows.now) (lists_of tallies.new)) }
{
    for item in 0..items.len() {
        add_to(&mut tallies[item], items[item], part, found)?;
    }
    Ok(())
}
