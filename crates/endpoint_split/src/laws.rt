//! Laws of ranges and handles. The functions do nothing: their contracts are the laws.

ghost use Rattle.endpoint_split.specs.Handle.{HandleReadsBack};
ghost use Rattle.endpoint_split.specs.Split.{RangesArePartition};

/// What is written of a handle reads back.
pub fn handle_reads_back()
    ensures { HandleReadsBack }
{}

/// The ranges of any rows lead from the first row to the last, with no gap and no overlap.
pub fn ranges_are_partition()
    ensures { RangesArePartition }
{}
