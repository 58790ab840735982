//! Groups of other rows, and which groups they join.

ghost use Rattle.std.specs.Prelude.{◌≡◌, ◌≤◌, ◌<◌, ℕ, ◌+◌, All, IfOk, OnOk, length, map};
ghost use Rattle.indexmap.specs.IndexSet.{insert_all};
ghost use Rattle.scan_base.specs.Limits.{most_rows};
ghost use Rattle.typed_plan.specs.GroupedRows.{same_key};
ghost use Rattle.group_slots.specs.Adding.{IsKept, lists_of};
ghost use Rattle.group_slots.specs.Counting.{AreWithin, counted_in};
ghost use Rattle.group_slots.specs.HeldTallies.{count_tallies, tallies_in};
ghost use Rattle.first_rows.specs.RowKeys.{key_of};
ghost use Rattle.grouping.specs.inside.Merging.{AllJoined, AreJoined, FirstsJoin, AreTalliesJoined};
ghost use Rattle.grouping.specs.inside.Merging.{joined_tallies};
ghost use Rattle.grouping.specs.inside.Placing.{found_by, IsFirst};

use crate::groups::Grouping;
use crate::seen_batch::SeenBatch;
use first_rows::FirstRows;
use group_slots::{ItemTallies, Tally, widened};
use std::alloc::{AllocError, Global};
use typed_plan::Aggregate;
use work_watch::pace::MOST_PIECE_ROWS;
use work_watch::{Watches, tell};

/// The tallies of other groups, and the group that each joins. How many groups were found in all,
/// and how many rows were fed here and there.
#[derive(Clone, Copy, Drop)]
pub(crate) struct OtherGroups<'p> {
    pub(crate) tallies: &'p [ItemTallies],
    pub(crate) groups: &'p [usize],
    pub(crate) found: usize,
    pub(crate) fed: usize,
    pub(crate) more: usize,
}

impl<'t> Grouping<'t> {
    /// The group that each of other first rows joins, or opens after all others; without columns
    /// there is one group. After each 65,536 groups who watches is told of them, and may end it. A
    /// group counts as often as the key has columns.
    ///
    /// # Errors
    ///
    /// `AllocError` where memory is refused, or who watches ends it.
    pub(crate) fn join_firsts<W: Watches>(
        &self,
        alloc: Global,
        firsts: &mut FirstRows<'t>,
        others: &FirstRows<'t>,
        watch: &mut W,
    ) -> Result<Vec<usize>, AllocError>
        requires others { All (IsFirst self.now.batches.now self.now.keys.now) others.now.keys }
        requires ready { W.ready watch.old }
        ensures found { OnOk result (found_by self.now.keys.now firsts.new.keys
            ≡ insert_all same_key (found_by self.now.keys.now firsts.old.keys)
            (found_by self.now.keys.now others.now.keys)) }
        ensures joined { IfOk result
            (λ groups. AreJoined (found_by self.now.keys.now firsts.new.keys)
            (found_by self.now.keys.now others.now.keys) groups.items
            (length (found_by self.now.keys.now others.now.keys))) }
        ensures firsts { OnOk result (FirstsJoin firsts.old.keys others.now.keys firsts.new.keys) }
        ensures ready { OnOk result (W.ready watch.new) }
        ensures watched { W.watched watch.old watch.new }
    {
        if self.keys.is_empty() {
            let mut groups = Vec::with_capacity(alloc, 1)?;
            groups.push(0)?;
            return Ok(groups);
        }
        self.join_each(alloc, firsts, others, watch)
    }

    // The group that each of these first rows joins, or opens after all others. A text is looked at
    // once for its code in a batch.
    fn join_each<W: Watches>(
        &self,
        alloc: Global,
        firsts: &mut FirstRows<'t>,
        others: &FirstRows<'t>,
        watch: &mut W,
    ) -> Result<Vec<usize>, AllocError>
        requires others { All (IsFirst self.now.batches.now self.now.keys.now) others.now.keys }
        requires ready { W.ready watch.old }
        ensures found { OnOk result (map key_of firsts.new.keys
            ≡ insert_all same_key (map key_of firsts.old.keys) (map key_of others.now.keys)) }
        ensures joined { IfOk result (λ groups. AreJoined (map key_of firsts.new.keys)
            (map key_of others.now.keys) groups.items (length (map key_of others.now.keys))) }
        ensures firsts { OnOk result (FirstsJoin firsts.old.keys others.now.keys firsts.new.keys) }
        ensures ready { OnOk result (W.ready watch.new) }
        ensures watched { W.watched watch.old watch.new }
    {
        let columns = self.keys.len();
        let mut seen = SeenBatch::new(alloc, firsts.seed(), columns);
        let mut groups = Vec::with_capacity(alloc, others.len())?;
        for place in 0..others.len() {
            let other = others.get(place);
            seen.turn_to(other.number);
            groups.push(firsts.insert_seen(&mut seen.numbers, other)?)?;
            tell_piece(watch, place, columns)?;
        }
        Ok(groups)
    }
}

// Tells who watches of a piece of groups, where the group at this place is the last one of it. Each
// counts so often.
fn tell_piece<W: Watches>(watch: &mut W, place: usize, weight: usize) -> Result<(), AllocError>
    requires ready { W.ready watch.old }
    ensures ready { OnOk result (W.ready watch.new) }
    ensures watched { W.watched watch.old watch.new }
{
    if place % MOST_PIECE_ROWS == MOST_PIECE_ROWS - 1 {
        return tell(watch, weight.saturating_mul(MOST_PIECE_ROWS));
    }
    Ok(())
}

/// Adds each of other tallies to the tally of its group, for each item. After each item who watches
/// is told of as many rows as there are other groups, and may end it.
///
/// # Errors
///
/// `AllocError` where memory is refused, or who watches ends it.
pub(crate) fn join_all<W: Watches>(
    tallies: &mut [ItemTallies],
    items: &[Aggregate],
    others: &OtherGroups<'_>,
    watch: &mut W,
) -> Result<(), AllocError>
    requires grouped { All (λ group. group < others.now.found) others.now.groups.now }
    requires few { others.now.fed + others.now.more ≤ most_rows }
    requires kept { (before : ℕ) × (before ≤ others.now.found)
        × IsKept items.now before others.now.fed (lists_of tallies.old) }
    requires others { IsKept items.now (length others.now.groups.now) others.now.more
        (lists_of others.now.tallies.now) }
    requires ready { W.ready watch.old }
    ensures joined { OnOk result (AllJoined others.now.groups.now
        (lists_of others.now.tallies.now) others.now.found (others.now.fed + others.now.more)
        (lists_of tallies.old) (lists_of tallies.new) (length items.now)) }
    ensures kept { OnOk result (IsKept items.now others.now.found (others.now.fed + others.now.more)
        (lists_of tallies.new)) }
    ensures ready { OnOk result (W.ready watch.new) }
    ensures watched { W.watched watch.old watch.new }
{
    for item in 0..items.len() {
        join_item(
            &mut tallies[item],
            &others.tallies[item],
            others.groups,
            others.found,
        )?;
        tell(watch, others.groups.len())?;
    }
    Ok(())
}

// Adds each of other tallies to the tally of its group, of so many groups that were found.
fn join_item(
    tallies: &mut ItemTallies,
    others: &ItemTallies,
    groups: &[usize],
    found: usize,
) -> Result<(), AllocError>
    requires grouped { All (λ group. group < found) groups.now }
    requires long { length groups.now ≡ length (tallies_in others.now) }
    requires grown { length (tallies_in tallies.old) ≤ found }
    requires few { counted_in (tallies_in tallies.old) + counted_in (tallies_in others.now)
        ≤ most_rows }
    requires small { AreWithin (counted_in (tallies_in tallies.old)) (tallies_in tallies.old) }
    requires others { AreWithin (counted_in (tallies_in others.now)) (tallies_in others.now) }
    ensures joined { OnOk result (AreTalliesJoined groups.now (tallies_in others.now) found
        (tallies_in tallies.old) (tallies_in tallies.new)) }
    ensures small { OnOk result
        (AreWithin (counted_in (tallies_in tallies.old) + counted_in (tallies_in others.now))
        (tallies_in tallies.new)) }
{
    tallies.resize(found)?;
    join_tallies(tallies, others, groups)
}

// Adds each of other tallies to the tally of its group. Counts stay counts where nothing was summed
// on either side.
fn join_tallies(
    tallies: &mut ItemTallies,
    others: &ItemTallies,
    groups: &[usize],
) -> Result<(), AllocError>
    requires grouped { All (λ group. group < length (tallies_in tallies.old)) groups.now }
    requires long { length groups.now ≡ length (tallies_in others.now) }
    requires few { counted_in (tallies_in tallies.old) + counted_in (tallies_in others.now)
        ≤ most_rows }
    requires small { AreWithin (counted_in (tallies_in tallies.old)) (tallies_in tallies.old) }
    requires others { AreWithin (counted_in (tallies_in others.now)) (tallies_in others.now) }
    ensures joined { OnOk result (tallies_in tallies.new
        ≡ joined_tallies groups.now (tallies_in others.now) (tallies_in tallies.old)
        (length groups.now)) }
    ensures small { OnOk result
        (AreWithin (counted_in (tallies_in tallies.old) + counted_in (tallies_in others.now))
        (tallies_in tallies.new)) }
{
    match tallies {
        ItemTallies::Counts(counts) => match others {
            ItemTallies::Counts(more) => {
                join_counts(counts.as_mut_slice(), more.as_slice(), groups);
            }
            ItemTallies::Sums(more) => {
                let mut sums = widened(*counts.allocator(), counts.as_slice())?;
                join_sums(sums.as_mut_slice(), more.as_slice(), groups);
                *tallies = ItemTallies::Sums(sums);
            }
        },
        ItemTallies::Sums(sums) => match others {
            ItemTallies::Counts(more) => {
                let more = widened(*more.allocator(), more.as_slice())?;
                join_sums(sums.as_mut_slice(), more.as_slice(), groups);
            }
            ItemTallies::Sums(more) => {
                join_sums(sums.as_mut_slice(), more.as_slice(), groups);
            }
        },
    }
    Ok(())
}

// Adds each of other counts to the count of its group.
fn join_counts(counts: &mut [u64], others: &[u64], groups: &[usize])
    requires grouped { All (λ group. group < length counts.old) groups.now }
    requires long { length groups.now ≡ length others.now }
    requires few { counted_in (count_tallies counts.old) + counted_in (count_tallies others.now)
        ≤ most_rows }
    requires small { AreWithin (counted_in (count_tallies counts.old)) (count_tallies counts.old) }
    ensures joined { count_tallies counts.new ≡ joined_tallies groups.now (count_tallies others.now)
        (count_tallies counts.old) (length groups.now) }
    ensures small { AreWithin (counted_in (count_tallies counts.old)
        + counted_in (count_tallies others.now)) (count_tallies counts.new) }
{
    for k in 0..groups.len() {
        let group = groups[k];
        counts[group] += others[k];
    }
}

// Adds each of other tallies to the tally of its group.
fn join_sums(tallies: &mut [Tally], others: &[Tally], groups: &[usize])
    requires grouped { All (λ group. group < length tallies.old) groups.now }
    requires long { length groups.now ≡ length others.now }
    requires few { counted_in tallies.old + counted_in others.now ≤ most_rows }
    requires small { AreWithin (counted_in tallies.old) tallies.old }
    requires others { AreWithin (counted_in others.now) others.now }
    ensures joined { tallies.new
        ≡ joined_tallies groups.now others.now tallies.old (length groups.now) }
    ensures small { AreWithin (counted_in tallies.old + counted_in others.now) tallies.new }
{
    for k in 0..groups.len() {
        let group = groups[k];
        tallies[group] = tallies[group].with(others[k]);
    }
}
