//! Tallies of an item: counts alone, until something is summed.

ghost use Rattle.std.specs.Prelude.{◌≡◌, IfOk, OnOk, map};
ghost use Rattle.group_slots.specs.HeldTallies.{count_tallies, padded, tallies_in, AreBlank};

use crate::tally::Tally;
use std::alloc::{AllocError, Global};

/// For one item the tally of each group. Before the first sum the sums are 0, and only counts are
/// held.
#[derive(Drop)]
pub enum ItemTallies {
    Counts(Vec<u64>),
    Sums(Vec<Tally>),
}

impl ItemTallies {
    /// Of so many groups without rows.
    ///
    /// # Errors
    ///
    /// `AllocError` where memory is refused.
    pub fn blank(alloc: Global, groups: usize) -> Result<ItemTallies, AllocError>
        ensures { IfOk result (λ tallies. AreBlank groups (tallies_in tallies)) }
    {
        let mut tallies = ItemTallies::Counts(Vec::new(alloc));
        tallies.resize(groups)?;
        Ok(tallies)
    }

    /// Of so many groups: those after the own have no rows.
    ///
    /// # Errors
    ///
    /// `AllocError` where memory is refused.
    #[tactic(auto, using(crate::proofs::Counted::counts_padded))]
    pub fn resize(&mut self, groups: usize) -> Result<(), AllocError>
        ensures { OnOk result (tallies_in self.new ≡ padded groups (tallies_in self.old)) }
    {
        match self {
            ItemTallies::Counts(counts) => counts.resize(groups, 0),
            ItemTallies::Sums(sums) => sums.resize(groups, Tally::new()),
        }
    }
}

/// Counts, as tallies that can sum.
///
/// # Errors
///
/// `AllocError` where memory is refused.
pub fn widened(alloc: Global, counts: &[u64]) -> Result<Vec<Tally>, AllocError>
    ensures { IfOk result (λ sums. sums.items ≡ count_tallies counts.now) }
{
    let mut sums = Vec::with_capacity(alloc, counts.len())?;
    for count in counts {
        sums.push(Tally::of_count(*count))?;
    }
    Ok(sums)
}

/// The counts of tallies.
///
/// # Errors
///
/// `AllocError` where memory is refused.
pub fn narrowed(alloc: Global, tallies: &[Tally]) -> Result<Vec<u64>, AllocError>
    ensures { IfOk result (λ counts. counts.items ≡ map (λ tally. tally.count) tallies.now) }
{
    let mut counts = Vec::with_capacity(alloc, tallies.len())?;
    for tally in tallies {
        counts.push(tally.count)?;
    }
    Ok(counts)
}
