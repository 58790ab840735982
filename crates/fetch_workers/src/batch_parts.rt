//! Parts of batches, one after the other.

ghost use Rattle.std.specs.Prelude.{◌≡◌, ◌≤◌, ◌<◌, max, min};
ghost use Rattle.fetch_workers.specs.Parts.{batches_before};

use arrays::Batch;

// Into how many parts so many batches are cut for so many workers. Each has one batch or more. The
// groups of a part are made again and merged by the thread that reads them. So there are no more
// parts than workers.
pub(crate) fn part_count(batches: usize, workers: usize) -> usize
    ensures { result ≡ min batches (max 1 workers) }
{
    batches.min(workers.max(1))
}

// How many batches stand before the part of a number, of so many batches and parts.
pub(crate) fn count_before(batches: usize, parts: usize, number: usize) -> usize
    requires some { 0 < parts }
    requires there { number ≤ parts }
    ensures { result ≡ batches_before batches parts number }
{
    number * (batches / parts) + number.min(batches % parts)
}

// How many rows batches have.
pub(crate) fn row_count(batches: &[Batch]) -> usize {
    let mut rows = 0usize;
    for batch in batches {
        rows = rows.saturating_add(batch.rows());
    }
    rows
}
