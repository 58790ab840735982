//! Laws. Each function here has an empty body: its contract is the law.

ghost use Rattle.array_buffers.specs.ColumnBuffers.{ColumnsReadBack};

/// What is written of a column says the column's values.
#[tactic(auto, using(crate::proofs::ColumnsAgain::columns_again))]
pub fn columns_read_back()
    ensures { ColumnsReadBack }
{}
