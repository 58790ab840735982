//! Which batches of a place can hold a row that is kept.

ghost use Rattle.std.specs.Prelude.{◌≡◌, ◌<◌, ◌≤◌, IfOk, IsTrue, length, map};
ghost use Rattle.std.specs.List.{filter, list_all};
ghost use Rattle.scan_base.specs.Predicate.{names_only, operand_names};
ghost use Rattle.scan_base.specs.View.{pred_of};
ghost use Rattle.rewrite.specs.Conjuncts.{is_between};
ghost use Rattle.typed_plan.specs.TypedPlans.{has_columns};
ghost use Rattle.batch_skipping.specs.OpenedBatches.{given_columns, given_width};
ghost use Rattle.batch_skipping.specs.inside.JudgedBatches.{all_can, batch_columns};

use crate::weight::batch_weight;
use crate::{ColumnStats, may_hold};
use batch_stats::{Beginnings, Side};
use scan_base::{Operand, Predicate};
use std::alloc::{AllocError, Global};
use table_versions::TableVersion;
use typed_plan::Columns;
use work_watch::comparisons_in;

// The columns of a place that its scan gives: how many they are, and the number of the first among
// those of all places.
#[derive(Clone, Copy, Drop)]
pub(crate) struct PlaceColumns<'a> {
    pub(crate) columns: &'a Columns,
    pub(crate) first: usize,
    pub(crate) width: usize,
}

impl PlaceColumns<'_> {
    // Whether a column is one of them.
    fn has(&self, column: usize) -> bool
        ensures { result ≡ is_between self.now.first self.now.width column }
    {
        self.first <= column && column - self.first < self.width
    }

    // Whether an operand is one of them, or a value.
    fn has_operand(&self, operand: &Operand<usize>) -> bool
        ensures { result ≡ operand_names (is_between self.now.first self.now.width) operand.now }
    {
        match operand {
            Operand::Column(column) => self.has(*column),
            Operand::Literal(_) => true,
        }
    }

    // Whether each of some operands is.
    fn has_operands(&self, operands: &[Operand<usize>]) -> bool
        ensures { result
            ≡ list_all (operand_names (is_between self.now.first self.now.width)) operands.now }
    {
        operands.iter().all(|operand| self.has_operand(operand))
    }

    // Whether a predicate names no other column.
    fn has_all_of(&self, predicate: &Predicate<usize>) -> bool
        ensures { result
            ≡ names_only (is_between self.now.first self.now.width) (pred_of predicate.now) }
    {
        match predicate {
            Predicate::And(left, right) => self.has_all_of(left) && self.has_all_of(right),
            Predicate::Or(left, right) => self.has_all_of(left) && self.has_all_of(right),
            Predicate::Not(predicate) => self.has_all_of(predicate),
            Predicate::Is { predicate, .. } => self.has_all_of(predicate),
            Predicate::Compare { left, right, .. } => {
                self.has_operand(left) && self.has_operand(right)
            }
            Predicate::Between {
                operand,
                low,
                high,
                ..
            } => self.has_operand(operand) && (self.has_operand(low) && self.has_operand(high)),
            Predicate::In { operand, items, .. } => {
                self.has_operand(operand) && self.has_operands(items.as_slice())
            }
            Predicate::IsNull { operand, .. } => self.has_operand(operand),
            Predicate::Constant(_) => true,
        }
    }
}

// Conjuncts that name no column of another place. A batch that is judged by them counts as `weight`
// rows.
#[derive(Drop)]
pub(crate) struct PlaceFilter<'a> {
    pub(crate) parts: Vec<&'a Predicate<usize>>,
    pub(crate) place: PlaceColumns<'a>,
    pub(crate) weight: usize,
}

impl<'a> PlaceFilter<'a> {
    // Those of some conjuncts that name no column of another place.
    pub(crate) fn new(
        alloc: Global,
        conjuncts: &[&'a Predicate<usize>],
        place: PlaceColumns<'a>,
    ) -> Result<PlaceFilter<'a>, AllocError>
        ensures parts { IfOk result (λ made. map (λ part. pred_of part.now) made.parts.items
            ≡ filter (names_only (is_between place.entry.first place.entry.width))
            (map (λ part. pred_of part.now) conjuncts.now)) }
        ensures place { IfOk result (λ made. made.place ≡ place.entry) }
        ensures weight { IfOk result (λ made. 1 ≤ made.weight) }
    {
        let mut parts = Vec::new(alloc);
        let mut comparisons = 0usize;
        for conjunct in conjuncts {
            if place.has_all_of(conjunct) {
                parts.push(*conjunct)?;
                comparisons = comparisons.saturating_add(comparisons_in(conjunct));
            }
        }
        let weight = batch_weight(comparisons);
        Ok(PlaceFilter {
            parts,
            place,
            weight,
        })
    }

    // Whether each conjunct can be true in a batch of the place's table.
    pub(crate) fn can_hold(&self, table: &TableVersion, index: usize) -> bool
        requires there { index < length table.now.batches }
        requires own { IsTrue
            (list_all (names_only (is_between self.now.place.first self.now.place.width))
            (map (λ part. pred_of part.now) self.now.parts.items)) }
        requires fit { IsTrue
            (has_columns (length table.now.schema.fields) self.now.place.columns.now) }
        requires wide { self.now.place.width
            ≡ given_width self.now.place.columns.now (length table.now.schema.fields) }
        ensures { result
            ≡ all_can (map (λ part. pred_of part.now) self.now.parts.items) self.now.place.first
            (given_columns self.now.place.columns.now (batch_columns table.now index)) }
    {
        let place = self.place;
        let batch = PlaceBatch {
            table,
            index,
            place,
        };
        for part in &self.parts {
            if !may_hold(*part, &batch) {
                return false;
            }
        }
        true
    }
}

// A batch of a place, by its number in the place's table.
#[derive(Clone, Copy, Drop)]
struct PlaceBatch<'a> {
    table: &'a TableVersion,
    index: usize,
    place: PlaceColumns<'a>,
}

impl ColumnStats<usize> for PlaceBatch<'_> {
    ghost use Rattle.std.specs.Prelude.{◌-◌, ◌&&◌, length, nat_lt};
    ghost use Rattle.batch_stats.specs.Columns.{stats_in};
    ghost use Rattle.rewrite.specs.Conjuncts.{is_between};
    ghost use Rattle.typed_plan.specs.TypedPlans.{has_columns};
    ghost use Rattle.batch_skipping.specs.OpenedBatches.{given_columns, given_width};
    ghost use Rattle.batch_skipping.specs.inside.JudgedBatches.{batch_columns};

    ghost stats = { λ of column. stats_in (given_columns of.place.columns.now
        (batch_columns of.table.now of.index)) (column - of.place.first) };

    ghost has = { λ of column. nat_lt of.index (length of.table.now.batches)
        && (has_columns (length of.table.now.schema.fields) of.place.columns.now
        && is_between of.place.first
        (given_width of.place.columns.now (length of.table.now.schema.fields)) column) };

    fn side(&self, column: &usize) -> Side<'_> {
        let number = *column - self.place.first;
        match self.place.columns {
            Columns::All => self.table.side(self.index, number),
            Columns::These(numbers) => self.table.side(self.index, numbers.as_slice()[number]),
        }
    }

    fn beginnings(&self, column: &usize) -> Option<Beginnings<'_>> {
        let number = *column - self.place.first;
        match self.place.columns {
            Columns::All => self.table.beginnings(self.index, number),
            Columns::These(numbers) => {
                let number = numbers.as_slice()[number];
                self.table.beginnings(self.index, number)
            }
        }
    }
}
