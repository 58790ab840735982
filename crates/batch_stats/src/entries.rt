//! The statistics of columns of a dictionary.

ghost use Rattle.std.specs.Prelude.{◌≡◌, ◌≤◌, ◌<◌, ◌+◌, ◌*◌, ℕ, length};
ghost use Rattle.arrays.specs.Number.{byte_width, element_at};
ghost use Rattle.arrays.specs.declared.layout.Layout.TheVariants.{Indices as IndicesLayout};
ghost use Rattle.batch_stats.specs.HeldStats.{IsStatsOf};
ghost use Rattle.batch_stats.specs.inside.Slots.{IsFirstValid};

use crate::code_sets::{CodeSet, LastCodes, MOST_LAST, MarkedCodes, SortedCodes};
use crate::stats::Stats;
use crate::validity::first_valid;
use arrays::{Cells, Code, Column, Indices};
use arrow_types::IntegerType;
use std::alloc::Global;

// The statistics of a column by the codes of its slots, of which the one at `start` is the first
// valid one. The value of a code that the set has been given is not looked at again, where the set
// has it still.
fn stats_with<C: Code, S: CodeSet>(
    column: &Column,
    cells: &Indices<'_>,
    start: usize,
    known: &mut S,
) -> Stats
    requires layout { (column.now).layout ≡ IndicesLayout cells.now }
    requires width { C.WIDTH ≡ byte_width (cells.now).index }
    requires start { IsFirstValid (cells.now).validity (column.now).first
        ((column.now).first + (column.now).len) start }
    requires known { (code : ℕ) → S.has known.old code →
        code ≡ element_at (byte_width (cells.now).index) (cells.now).values start }
    ensures { IsStatsOf column.now result }
{
    let _count = cells.len();
    let (first, to) = (column.first(), column.first() + column.len());
    let mut stats = Stats::Nulls.with_slot(column, start - first);
    known.insert(C::code(cells.values(), start));
    for place in start + 1..to {
        if cells.validity().is_valid(place) && known.insert(C::code(cells.values(), place)) {
            stats = stats.with_slot(column, place - first);
        }
    }
    stats
}

// The same by the codes that came last.
fn stats_by_last<C: Code>(column: &Column, cells: &Indices<'_>, start: usize) -> Stats
    requires layout { (column.now).layout ≡ IndicesLayout cells.now }
    requires width { C.WIDTH ≡ byte_width (cells.now).index }
    requires start { IsFirstValid (cells.now).validity (column.now).first
        ((column.now).first + (column.now).len) start }
    ensures { IsStatsOf column.now result }
{
    let (_count, _len) = (cells.len(), column.len());
    let mut last = LastCodes::new(C::code(cells.values(), start));
    stats_with::<C, LastCodes>(column, cells, start, &mut last)
}

// The same, each used value looked at once, unless memory is refused: by marks of the dictionary's
// values where they are not many more than the slots, and else by marks of the slots' codes.
fn stats_by_code<C: Code>(
    alloc: Global,
    column: &Column,
    cells: &Indices<'_>,
    start: usize,
) -> Stats
    requires layout { (column.now).layout ≡ IndicesLayout cells.now }
    requires width { C.WIDTH ≡ byte_width (cells.now).index }
    requires start { IsFirstValid (cells.now).validity (column.now).first
        ((column.now).first + (column.now).len) start }
    ensures { IsStatsOf column.now result }
{
    let count = cells.dictionary().len();
    if count <= MOST_LAST {
        return stats_by_last::<C>(column, cells, start);
    }
    if (count - MOST_LAST) / 8 <= column.len() {
        return match MarkedCodes::new(alloc, count) {
            Ok(mut known) => stats_with::<C, MarkedCodes>(column, cells, start, &mut known),
            Err(_) => stats_by_last::<C>(column, cells, start),
        };
    }
    let _count = cells.len();
    let to = column.first() + column.len();
    match SortedCodes::new::<C>(alloc, cells, start, to) {
        Ok(mut known) => stats_with::<C, SortedCodes>(column, cells, start, &mut known),
        Err(_) => stats_by_last::<C>(column, cells, start),
    }
}

/// The statistics of a column of indices.
pub(crate) fn entries_stats(alloc: Global, column: &Column, cells: &Indices<'_>) -> Stats
    requires { (column.now).layout ≡ IndicesLayout cells.now }
    ensures { IsStatsOf column.now result }
{
    let _count = cells.len();
    let (first, to) = (column.first(), column.first() + column.len());
    let Some(start) = first_valid(cells.validity(), first, to) else {
        return Stats::Nulls;
    };
    match cells.index_type() {
        IntegerType::Int8 | IntegerType::UInt8 => stats_by_last::<u8>(column, cells, start),
        IntegerType::Int16 | IntegerType::UInt16 => {
            stats_by_code::<u16>(alloc, column, cells, start)
        }
        IntegerType::Int32 | IntegerType::UInt32 => {
            stats_by_code::<u32>(alloc, column, cells, start)
        }
        IntegerType::Int64 | IntegerType::UInt64 => {
            stats_by_code::<u64>(alloc, column, cells, start)
        }
    }
}
