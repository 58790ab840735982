//! Laws. Each function here has an empty body: its contract is the law.

ghost use Rattle.arrays.specs.Column.{ColumnSlicesKeepValues};
ghost use Rattle.arrays.specs.Batch.{BatchSlicesKeepRows};
ghost use Rattle.arrays.specs.TypedLayouts.{ValuesAreOfTheirType};

/// The slots of a column from one up to, not with, another have the values that they had.
#[tactic(auto, using(crate::proofs::Slices::columns_keep))]
pub fn column_slices_keep_values()
    ensures { ColumnSlicesKeepValues }
{}

/// The rows of a batch from one up to, not with, another are the rows that they were.
#[tactic(auto, using(crate::proofs::Slices::batches_keep))]
pub fn batch_slices_keep_rows()
    ensures { BatchSlicesKeepRows }
{}

/// Each value of a column is null or one of the column's type: within the range of its integers, of
/// 128 bits, or a text whose bytes are UTF-8.
#[tactic(auto, using(crate::proofs::OfType::values_are))]
pub fn values_are_of_their_type()
    ensures { ValuesAreOfTheirType }
{}
