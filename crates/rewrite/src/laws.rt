//! What holds of every rewritten plan. Each law is a function whose contract says it.

ghost use Rattle.rewrite.specs.FoldedPredicates.{FoldingKeepsTruths, FoldedNamesColumns};
ghost use Rattle.rewrite.specs.Laws.{PushingKeepsRows, PushedStandBelow, SkippingKeepsRows};
ghost use Rattle.rewrite.specs.PrunedColumns.{PruningKeepsRows};

/// A folded predicate has the truth that it had, in every row, and each comparison, BETWEEN, IN and
/// IS NULL of it names a column.
pub fn folding_keeps_truths()
    ensures truths { FoldingKeepsTruths }
    ensures columns { FoldedNamesColumns }
{}

/// A tree whose filters are pushed down gives the same rows, in order.
pub fn pushing_keeps_rows()
    ensures { PushingKeepsRows }
{}

/// No outermost conjunct of a pushed filter that names columns of exactly one place stands above a
/// join.
pub fn pushed_stand_below()
    ensures { PushedStandBelow }
{}

/// Rows of a place that its own conjuncts do not let through may be left out before a tree is run.
pub fn skipping_keeps_rows()
    ensures { SkippingKeepsRows }
{}

/// A tree whose scans read the used columns alone gives the used cells of the same rows.
pub fn pruning_keeps_rows()
    ensures { PruningKeepsRows }
{}
