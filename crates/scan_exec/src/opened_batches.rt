//! The batches that a scan opens, each by the number of its place and its own.

ghost use Rattle.std.specs.Prelude.{◌≡◌, ◌++◌, IfOk, OnOk, drop, map};
ghost use Rattle.batch_skipping.specs.OpenedBatches.{numbered_batches};

use batch_skipping::OpenedList;
use std::alloc::{AllocError, Global};

// The batches of the further places, place by place, each by the number of its place and its own.
pub(crate) fn further_batches(
    alloc: Global,
    lists: &[OpenedList],
) -> Result<Vec<(usize, usize)>, AllocError>
    ensures { IfOk result (λ batches. batches.items
        ≡ numbered_batches 1 (drop 1 (map (λ list. list.numbers.items) lists.now))) }
{
    let mut batches = Vec::new(alloc);
    for place in 1..lists.len() {
        push_numbers(&mut batches, place, lists[place].numbers.as_slice())?;
    }
    Ok(batches)
}

// The batches of these numbers of a place, after others.
pub(crate) fn push_numbers(
    batches: &mut Vec<(usize, usize)>,
    place: usize,
    numbers: &[usize],
) -> Result<(), AllocError>
    ensures { OnOk result
        (batches.new.items ≡ batches.old.items ++ map (λ number. (place, number)) numbers.now) }
{
    for number in numbers {
        batches.push((place, *number))?;
    }
    Ok(())
}
