//! What holds of every predicate and batch. Each function here has an empty body: its contract is
//! the law.

ghost use Rattle.batch_skipping.specs.Laws.{OwnValuesAreWithin, RowsArePossible};
ghost use Rattle.batch_skipping.specs.Laws.{SkippedRowsAreNotKept, TruthIsPossible};

/// The truth of a predicate in a row is a possible one, where the statistics allow for each cell of
/// the row.
pub fn truth_is_possible()
    ensures { TruthIsPossible }
{}

/// Statistics allow for each of the values that they are of, where these are of one type.
pub fn own_values_are_within()
    ensures { OwnValuesAreWithin }
{}

/// The truth of a predicate in a row of a batch is a possible one by the statistics of the batch's
/// columns.
pub fn rows_are_possible()
    ensures { RowsArePossible }
{}

/// Of a batch in which a predicate cannot be true no row is kept, also where its rows are a part of
/// wider ones.
pub fn skipped_rows_are_not_kept()
    ensures { SkippedRowsAreNotKept }
{}
