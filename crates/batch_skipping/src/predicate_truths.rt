//! The possible truths of a predicate on a batch.

ghost use Rattle.std.specs.Prelude.{◌≡◌, Bool, IfSome, IsTrue, None, true};
ghost use Rattle.std.specs.List.{list_all};
ghost use Rattle.scan_base.specs.Predicate.{names_only, operand_names};
ghost use Rattle.scan_base.specs.View.{pred_of};
ghost use Rattle.batch_skipping.specs.PredicateTruths.{can, can_be_among, can_be_null};
ghost use Rattle.batch_skipping.specs.PredicateTruths.{can_be_within};
ghost use Rattle.batch_skipping.specs.PredicateTruths.{can_compare, side_of};
ghost use Rattle.batch_skipping.specs.inside.ClassRange.{stats_between};
ghost use Rattle.batch_skipping.specs.inside.TextStanding.{StandSo};
ghost use Rattle.batch_stats.specs.Beginnings.{AreBeginnings};
ghost use Rattle.batch_stats.specs.Sides.{side_at};
ghost use Rattle.batch_stats.specs.Stats.{StatsAt};

use crate::class_range::{ClassRange, OneClass};
use crate::compare::{can_be_null, can_compare};
use crate::possible_truths::PossibleTruths;
use crate::text_standing::{TextStanding, texts_can_be_null};
use batch_stats::{Beginnings, Side};
use scan_base::{Comparison, Operand, Predicate, Truth};

/// The statistics of the columns of a batch, by what names a column.
pub trait ColumnStats<C> {
    /// The statistics of a column.
    ghost stats: { Self → C → StatsAt };

    /// Whether the batch has the column.
    ghost has: { Self → C → Bool };

    /// What the values of a column are between, and how many are null.
    fn side(&self, column: &C) -> Side<'_>
        requires { IsTrue (has self.now column.now) }
        ensures { side_at result ≡ stats self.now column.now };

    /// How a column's least and greatest text begin, where this is known; `None` of other values.
    fn beginnings(&self, column: &C) -> Option<Beginnings<'_>>
        requires { IsTrue (has self.now column.now) }
        ensures { IfSome result (λ known. AreBeginnings known (stats self.now column.now)) };
}

// The statistics of an operand: of a literal those of its one value.
fn side_of<'a, C, M: ColumnStats<C>>(operand: &'a Operand<C>, batch: &'a M) -> Side<'a>
    requires { IsTrue (operand_names (M.has batch.now) operand.now) }
    ensures { side_at result ≡ side_of (M.stats batch.now) operand.now }
{
    match operand {
        Operand::Column(column) => batch.side(column),
        Operand::Literal(value) => Side::of(value),
    }
}

// The same of an operand whose values are of one class.
fn range_of<'a, K: OneClass<'a>, C, M: ColumnStats<C>>(
    operand: &'a Operand<C>,
    batch: &'a M,
) -> Option<ClassRange<K>>
    requires { IsTrue (operand_names (M.has batch.now) operand.now) }
    ensures { IfSome result
        (λ range. stats_between K.as_value range ≡ side_of (M.stats batch.now) operand.now) }
{
    match operand {
        Operand::Column(column) => ClassRange::of_side(&batch.side(column)),
        Operand::Literal(value) => Some(K::of_value(value.borrowed())?.alone()),
    }
}

// Whether an operand is a column that has nothing but nulls here.
fn is_null_alone<C, M: ColumnStats<C>>(operand: &Operand<C>, batch: &M) -> bool
    requires { IsTrue (operand_names (M.has batch.now) operand.now) }
    ensures { result ≡ true → (side_of (M.stats batch.now) operand.now).ends ≡ None }
{
    match operand {
        Operand::Column(column) => batch.side(column).ends.is_none(),
        Operand::Literal(_) => false,
    }
}

// The possible truths of a comparison of values of one class. It is `None` of others. The right
// side is mostly a literal, so it is looked at first.
#[tactic(auto, using(crate::proofs::Nulls::nulls_compared))]
fn ranges_compared<'a, K: OneClass<'a>, C, M: ColumnStats<C>>(
    comparison: Comparison,
    left: &'a Operand<C>,
    right: &'a Operand<C>,
    batch: &'a M,
) -> Option<PossibleTruths>
    requires left { IsTrue (operand_names (M.has batch.now) left.now) }
    requires right { IsTrue (operand_names (M.has batch.now) right.now) }
    ensures { IfSome result (λ possible. possible ≡ can_compare comparison
        (side_of (M.stats batch.now) left.now) (side_of (M.stats batch.now) right.now)) }
{
    let right: ClassRange<K> = range_of(right, batch)?;
    let range: Option<ClassRange<K>> = range_of(left, batch);
    match range {
        Some(left) => Some(left.can_compare(comparison, &right)),
        None if is_null_alone(left, batch) => Some(PossibleTruths::only(Truth::Unknown)),
        None => None,
    }
}

// The possible truths of BETWEEN of values of one class. It is `None` of others.
#[tactic(auto, using(crate::proofs::Nulls::nulls_within))]
fn range_within<'a, K: OneClass<'a>, C, M: ColumnStats<C>>(
    operand: &'a Operand<C>,
    low: &'a Operand<C>,
    high: &'a Operand<C>,
    batch: &'a M,
) -> Option<PossibleTruths>
    requires operand { IsTrue (operand_names (M.has batch.now) operand.now) }
    requires low { IsTrue (operand_names (M.has batch.now) low.now) }
    requires high { IsTrue (operand_names (M.has batch.now) high.now) }
    ensures { IfSome result
        (λ possible. possible ≡ can_be_within (side_of (M.stats batch.now) operand.now)
        (side_of (M.stats batch.now) low.now) (side_of (M.stats batch.now) high.now)) }
{
    let low: ClassRange<K> = range_of(low, batch)?;
    let high: ClassRange<K> = range_of(high, batch)?;
    let range: Option<ClassRange<K>> = range_of(operand, batch);
    match range {
        Some(range) => Some(range.can_be_within(&low, &high)),
        None if is_null_alone(operand, batch) => Some(PossibleTruths::only(Truth::Unknown)),
        None => None,
    }
}

// How the texts of an operand begin, where it is a column of which this is known.
fn beginnings_of<'a, C, M: ColumnStats<C>>(
    operand: &Operand<C>,
    batch: &'a M,
) -> Option<Beginnings<'a>>
    requires { IsTrue (operand_names (M.has batch.now) operand.now) }
    ensures { IfSome result
        (λ known. AreBeginnings known (side_of (M.stats batch.now) operand.now)) }
{
    match operand {
        Operand::Column(column) => batch.beginnings(column),
        Operand::Literal(_) => None,
    }
}

// How texts that begin so stand to a literal, where this is a text and their first bytes tell.
fn standing_to<C>(known: &Beginnings<'_>, literal: &Operand<C>) -> Option<TextStanding>
    ensures { IfSome result (λ standing. (stats : C → StatsAt) (a : StatsAt) →
        AreBeginnings known.now a → StandSo standing a (side_of stats literal.now)) }
{
    match literal {
        Operand::Literal(value) => TextStanding::of(known, value.borrowed()),
        Operand::Column(_) => None,
    }
}

// The possible truths of a column of texts next to a literal, where their first bytes tell.
fn begun_compared<C, M: ColumnStats<C>>(
    comparison: Comparison,
    left: &Operand<C>,
    right: &Operand<C>,
    batch: &M,
) -> Option<PossibleTruths>
    requires left { IsTrue (operand_names (M.has batch.now) left.now) }
    requires right { IsTrue (operand_names (M.has batch.now) right.now) }
    ensures { IfSome result (λ possible. possible ≡ can_compare comparison
        (side_of (M.stats batch.now) left.now) (side_of (M.stats batch.now) right.now)) }
{
    if let Some(known) = beginnings_of(left, batch) {
        return Some(standing_to(&known, right)?.can_compare(comparison));
    }
    let known = beginnings_of(right, batch)?;
    Some(standing_to(&known, left)?.can_compare_turned(comparison))
}

// The same of a literal in front of a column. It is asked before any side is read as a range, which
// may need the batch.
fn literal_compared<C, M: ColumnStats<C>>(
    comparison: Comparison,
    left: &Operand<C>,
    right: &Operand<C>,
    batch: &M,
) -> Option<PossibleTruths>
    requires left { IsTrue (operand_names (M.has batch.now) left.now) }
    requires right { IsTrue (operand_names (M.has batch.now) right.now) }
    ensures { IfSome result (λ possible. possible ≡ can_compare comparison
        (side_of (M.stats batch.now) left.now) (side_of (M.stats batch.now) right.now)) }
{
    match left {
        Operand::Literal(_) => begun_compared(comparison, left, right, batch),
        Operand::Column(_) => None,
    }
}

// The same of BETWEEN.
fn begun_within<C, M: ColumnStats<C>>(
    operand: &Operand<C>,
    low: &Operand<C>,
    high: &Operand<C>,
    batch: &M,
) -> Option<PossibleTruths>
    requires operand { IsTrue (operand_names (M.has batch.now) operand.now) }
    requires low { IsTrue (operand_names (M.has batch.now) low.now) }
    requires high { IsTrue (operand_names (M.has batch.now) high.now) }
    ensures { IfSome result
        (λ possible. possible ≡ can_be_within (side_of (M.stats batch.now) operand.now)
        (side_of (M.stats batch.now) low.now) (side_of (M.stats batch.now) high.now)) }
{
    if let Some(known) = beginnings_of(operand, batch) {
        let low = standing_to(&known, low)?;
        let high = standing_to(&known, high)?;
        let above = low.can_compare(Comparison::GreaterOrEqual);
        return Some(above.and(high.can_compare(Comparison::LessOrEqual)));
    }
    let above = begun_compared(Comparison::GreaterOrEqual, operand, low, batch)?;
    Some(above.and(begun_compared(Comparison::LessOrEqual, operand, high, batch)?))
}

// The same of the OR of the equalities with each item.
fn begun_among<C, M: ColumnStats<C>>(
    operand: &Operand<C>,
    items: &[Operand<C>],
    batch: &M,
) -> Option<PossibleTruths>
    requires operand { IsTrue (operand_names (M.has batch.now) operand.now) }
    requires items { IsTrue (list_all (operand_names (M.has batch.now)) items.now) }
    ensures { IfSome result (λ possible. possible
        ≡ can_be_among (M.stats batch.now) (side_of (M.stats batch.now) operand.now) items.now) }
{
    let known = beginnings_of(operand, batch)?;
    let mut found = PossibleTruths::only(Truth::False);
    for index in (0..items.len()).rev() {
        let item = standing_to(&known, &items[index])?;
        found = item.can_compare(Comparison::Equal).or(found);
    }
    Some(found)
}

// Leaves are not inlined: a chain has a frame of `can` for each side, which is to be small.

// left comparison right, of any values
#[inline(never)]
fn sides_compared<C, M: ColumnStats<C>>(
    comparison: Comparison,
    left: &Operand<C>,
    right: &Operand<C>,
    batch: &M,
) -> PossibleTruths
    requires left { IsTrue (operand_names (M.has batch.now) left.now) }
    requires right { IsTrue (operand_names (M.has batch.now) right.now) }
    ensures { result ≡ can_compare comparison (side_of (M.stats batch.now) left.now)
        (side_of (M.stats batch.now) right.now) }
{
    can_compare(comparison, &side_of(left, batch), &side_of(right, batch))
}

// left comparison right
#[inline(never)]
fn can_be_compared<C, M: ColumnStats<C>>(
    comparison: Comparison,
    left: &Operand<C>,
    right: &Operand<C>,
    batch: &M,
) -> PossibleTruths
    requires left { IsTrue (operand_names (M.has batch.now) left.now) }
    requires right { IsTrue (operand_names (M.has batch.now) right.now) }
    ensures { result ≡ can_compare comparison (side_of (M.stats batch.now) left.now)
        (side_of (M.stats batch.now) right.now) }
{
    if let Some(possible) = literal_compared(comparison, left, right, batch) {
        return possible;
    }
    if let Some(possible) = ranges_compared::<i128, C, M>(comparison, left, right, batch) {
        return possible;
    }
    if let Some(possible) = begun_compared(comparison, left, right, batch) {
        return possible;
    }
    match ranges_compared::<&str, C, M>(comparison, left, right, batch) {
        Some(possible) => possible,
        None => sides_compared(comparison, left, right, batch),
    }
}

// operand >= low AND operand <= high, of any values
#[inline(never)]
fn sides_within<C, M: ColumnStats<C>>(
    operand: &Operand<C>,
    low: &Operand<C>,
    high: &Operand<C>,
    batch: &M,
) -> PossibleTruths
    requires operand { IsTrue (operand_names (M.has batch.now) operand.now) }
    requires low { IsTrue (operand_names (M.has batch.now) low.now) }
    requires high { IsTrue (operand_names (M.has batch.now) high.now) }
    ensures { result ≡ can_be_within (side_of (M.stats batch.now) operand.now)
        (side_of (M.stats batch.now) low.now) (side_of (M.stats batch.now) high.now) }
{
    let side = side_of(operand, batch);
    let above = can_compare(Comparison::GreaterOrEqual, &side, &side_of(low, batch));
    above.and(can_compare(Comparison::LessOrEqual, &side, &side_of(high, batch)))
}

// operand >= low AND operand <= high
#[inline(never)]
fn can_be_within<C, M: ColumnStats<C>>(
    operand: &Operand<C>,
    low: &Operand<C>,
    high: &Operand<C>,
    batch: &M,
) -> PossibleTruths
    requires operand { IsTrue (operand_names (M.has batch.now) operand.now) }
    requires low { IsTrue (operand_names (M.has batch.now) low.now) }
    requires high { IsTrue (operand_names (M.has batch.now) high.now) }
    ensures { result ≡ can_be_within (side_of (M.stats batch.now) operand.now)
        (side_of (M.stats batch.now) low.now) (side_of (M.stats batch.now) high.now) }
{
    if let Some(possible) = range_within::<i128, C, M>(operand, low, high, batch) {
        return possible;
    }
    if let Some(possible) = begun_within(operand, low, high, batch) {
        return possible;
    }
    match range_within::<&str, C, M>(operand, low, high, batch) {
        Some(possible) => possible,
        None => sides_within(operand, low, high, batch),
    }
}

// The OR of the equalities with each item, where all are of one class. It is `None` of others.
fn range_among<'a, K: OneClass<'a>, C, M: ColumnStats<C>>(
    operand: &'a Operand<C>,
    items: &'a [Operand<C>],
    batch: &'a M,
) -> Option<PossibleTruths>
    requires operand { IsTrue (operand_names (M.has batch.now) operand.now) }
    requires items { IsTrue (list_all (operand_names (M.has batch.now)) items.now) }
    ensures { IfSome result (λ possible. possible
        ≡ can_be_among (M.stats batch.now) (side_of (M.stats batch.now) operand.now) items.now) }
{
    let range: ClassRange<K> = range_of(operand, batch)?;
    let mut found = PossibleTruths::only(Truth::False);
    for index in (0..items.len()).rev() {
        let item: ClassRange<K> = range_of(&items[index], batch)?;
        found = range.can_compare(Comparison::Equal, &item).or(found);
    }
    Some(found)
}

// The OR of the equalities with each item, of any values.
#[inline(never)]
fn sides_among<C, M: ColumnStats<C>>(
    operand: &Operand<C>,
    items: &[Operand<C>],
    batch: &M,
) -> PossibleTruths
    requires operand { IsTrue (operand_names (M.has batch.now) operand.now) }
    requires items { IsTrue (list_all (operand_names (M.has batch.now)) items.now) }
    ensures { result
        ≡ can_be_among (M.stats batch.now) (side_of (M.stats batch.now) operand.now) items.now }
{
    let side = side_of(operand, batch);
    let mut found = PossibleTruths::only(Truth::False);
    for index in (0..items.len()).rev() {
        let item = side_of(&items[index], batch);
        found = can_compare(Comparison::Equal, &side, &item).or(found);
    }
    found
}

// The same. A column of nulls alone is looked at once.
#[tactic(auto, using(crate::proofs::Nulls::nulls_among))]
fn others_among<C, M: ColumnStats<C>>(
    operand: &Operand<C>,
    items: &[Operand<C>],
    batch: &M,
) -> PossibleTruths
    requires operand { IsTrue (operand_names (M.has batch.now) operand.now) }
    requires items { IsTrue (list_all (operand_names (M.has batch.now)) items.now) }
    ensures { result
        ≡ can_be_among (M.stats batch.now) (side_of (M.stats batch.now) operand.now) items.now }
{
    if items.len() > 0 && is_null_alone(operand, batch) {
        return PossibleTruths::only(Truth::Unknown);
    }
    sides_among(operand, items, batch)
}

// The OR of the equalities with each item.
#[inline(never)]
fn can_be_among<C, M: ColumnStats<C>>(
    operand: &Operand<C>,
    items: &[Operand<C>],
    batch: &M,
) -> PossibleTruths
    requires operand { IsTrue (operand_names (M.has batch.now) operand.now) }
    requires items { IsTrue (list_all (operand_names (M.has batch.now)) items.now) }
    ensures { result
        ≡ can_be_among (M.stats batch.now) (side_of (M.stats batch.now) operand.now) items.now }
{
    if let Some(possible) = begun_among(operand, items, batch) {
        return possible;
    }
    if let Some(possible) = range_among::<i128, C, M>(operand, items, batch) {
        return possible;
    }
    match range_among::<&str, C, M>(operand, items, batch) {
        Some(possible) => possible,
        None => others_among(operand, items, batch),
    }
}

// operand IS NULL
#[inline(never)]
fn can_be_missing<C, M: ColumnStats<C>>(operand: &Operand<C>, batch: &M) -> PossibleTruths
    requires { IsTrue (operand_names (M.has batch.now) operand.now) }
    ensures { result ≡ can_be_null (side_of (M.stats batch.now) operand.now) }
{
    match beginnings_of(operand, batch) {
        Some(known) => texts_can_be_null(&known),
        None => can_be_null(&side_of(operand, batch)),
    }
}

// The possible truths of a predicate.
fn can<C, M: ColumnStats<C>>(predicate: &Predicate<C>, batch: &M) -> PossibleTruths
    requires { IsTrue (names_only (M.has batch.now) (pred_of predicate.now)) }
    ensures { result ≡ can (M.stats batch.now) (pred_of predicate.now) }
{
    match predicate {
        Predicate::And(left, right) => can(left, batch).and(can(right, batch)),
        Predicate::Or(left, right) => can(left, batch).or(can(right, batch)),
        Predicate::Not(predicate) => can(predicate, batch).not(),
        Predicate::Is {
            negated,
            tested,
            predicate,
        } => can(predicate, batch).is(*tested).not_if(*negated),
        Predicate::Compare {
            comparison,
            left,
            right,
        } => can_be_compared(*comparison, left, right, batch),
        Predicate::Between {
            negated,
            operand,
            low,
            high,
        } => can_be_within(operand, low, high, batch).not_if(*negated),
        Predicate::In {
            negated,
            operand,
            items,
        } => can_be_among(operand, items.as_slice(), batch).not_if(*negated),
        Predicate::IsNull { negated, operand } => {
            can_be_missing(operand, batch).not_if(*negated)
        }
        Predicate::Constant(truth) => PossibleTruths::only(*truth),
    }
}

/// Whether a predicate can be true in a row of a batch, by its statistics. It takes no memory.
pub fn may_hold<C, M: ColumnStats<C>>(conjunct: &Predicate<C>, batch: &M) -> bool
    requires { IsTrue (names_only (M.has batch.now) (pred_of conjunct.now)) }
    ensures { result ≡ (can (M.stats batch.now) (pred_of conjunct.now)).can_true }
{
    can(conjunct, batch).can_true
}
