//! Sums of few groups, in pieces of 64 bits.

ghost use Rattle.std.specs.Prelude.{◌≡◌, ◌≤◌, ◌<◌, ◌+◌, ◌+ℤ◌, true, All, IfSome, ◌-◌, is_some};
ghost use Rattle.std.specs.Prelude.{length};
ghost use Rattle.scan_base.specs.Limits.{most_rows};
ghost use Rattle.typed_plan.specs.declared.plan.Aggregate.TheVariants.{Sum as SumOf};
ghost use Rattle.group_slots.specs.Tallies.{no_rows, summed};
ghost use Rattle.group_slots.specs.Counting.{AreWithin, counted_in, stepped};
ghost use Rattle.group_slots.specs.Pieces.{AreBoth, piece_tally, tallies_of};
ghost use Rattle.group_slots.specs.RowSpans.{IsSpan, IsTallyOf, rows_of_span};
ghost use Rattle.group_slots.specs.Slots.{AreSlots, number_or_null};

use crate::row_groups::RowGroups;
use crate::row_span::RowSpan;
use crate::slots::{IntegerSlots, Number, ValidRows};
use crate::tally::Tally;

/// Of how many groups there are pieces at most.
pub(crate) const MOST_PIECES: usize = 1_024;

/// The count and the sum of some of a group's rows, where 64 bits hold the sum.
#[derive(Clone, Copy, Drop)]
pub(crate) struct PartialSum {
    pub(crate) count: u64,
    pub(crate) sum: i64,
}

impl PartialSum {
    // Of no rows.
    fn new() -> PartialSum
        ensures { piece_tally result ≡ no_rows }
    {
        PartialSum { count: 0, sum: 0 }
    }

    // The same as a tally.
    fn tally(self) -> Tally
        ensures { result ≡ piece_tally self }
    {
        Tally {
            count: self.count,
            sum: i128::from(self.sum),
        }
    }

    // Adds a slot, and says whether 64 bits still hold the sum.
    fn add_slot(&mut self, valid: bool, number: i64) -> bool
        requires { self.old.count < most_rows }
        ensures added { result ≡ true →
            piece_tally self.new ≡ summed (piece_tally self.old) (number_or_null valid number) }
        ensures few { self.new.count ≤ self.old.count + 1 }
    {
        let (sum, holds) = sum_of(self.sum, number);
        self.count += valid as u64;
        self.sum = if valid { sum } else { self.sum };
        holds | !valid
    }
}

// The sum of two numbers, if 64 bits hold it, and whether they do.
#[tactic(auto, using(crate::proofs::Pieced::sum_held))]
fn sum_of(a: i64, b: i64) -> (i64, bool)
    ensures { result.1 ≡ true → result.0 ≡ a +ℤ b }
{
    let (sum, over) = a.overflowing_add(b);
    (sum, !over)
}

/// As many pieces of no rows as there may be.
pub(crate) fn blank_pieces() -> [PartialSum; MOST_PIECES]
    ensures { All (λ piece. piece_tally piece ≡ no_rows) result }
{
    [PartialSum::new(); MOST_PIECES]
}

/// Adds the number of each row to the piece of its group, where these are the numbers of the
/// column, of a type, and says whether 64 bits hold each sum.
pub(crate) fn fill_pieces<N: Number, V: ValidRows>(
    pieces: &mut [PartialSum],
    column: usize,
    slots: &IntegerSlots<'_>,
    part: &RowGroups<'_>,
) -> bool
    requires kind { slots.now.kind ≡ N.kind }
    requires marked { is_some slots.now.validity.now ≡ V.marked }
    requires slots { AreSlots slots.now column part.now.batch.now }
    requires within { All (λ row. row < part.now.batch.now.rows) part.now.rows.now }
    requires grouped { All (λ group. group < length pieces.old) part.now.groups.now }
    requires long { length part.now.groups.now ≡ length part.now.rows.now }
    requires few { length part.now.rows.now ≤ most_rows }
    requires small { AreWithin 0 (tallies_of pieces.old) }
    ensures stepped { result ≡ true → tallies_of pieces.new
        ≡ stepped (SumOf column) part.now.batch.now.columns part.now.groups.now part.now.rows.now
        (tallies_of pieces.old) (length part.now.rows.now) }
    ensures small { result ≡ true → AreWithin (length part.now.rows.now) (tallies_of pieces.new) }
{
    let mut holds = true;
    for k in 0..part.rows.len() {
        let row = part.rows[k] as usize;
        let valid = V::is_valid(slots, row);
        let number = slots.number::<N>(row);
        let group = part.groups[k] as usize;
        let fits = pieces[group].add_slot(valid, number);
        holds = holds & fits;
    }
    holds
}

/// Adds each piece to the tally of its group.
pub(crate) fn join_pieces(tallies: &mut [Tally], pieces: &[PartialSum])
    requires long { length pieces.now ≡ length tallies.old }
    requires few { counted_in tallies.old + counted_in (tallies_of pieces.now) ≤ most_rows }
    requires small { AreWithin (counted_in tallies.old) tallies.old }
    requires others { AreWithin (counted_in (tallies_of pieces.now)) (tallies_of pieces.now) }
    ensures { AreBoth tallies.old (tallies_of pieces.now) tallies.new }
{
    for group in 0..tallies.len() {
        tallies[group] = tallies[group].with(pieces[group].tally());
    }
}

/// The count and the sum of the numbers of the rows, where these are the numbers of the column, of
/// a type, if 64 bits hold the sum of the first of them, however many.
pub(crate) fn sum_of_span<N: Number, V: ValidRows>(
    column: usize,
    slots: &IntegerSlots<'_>,
    span: &RowSpan<'_>,
) -> Option<Tally>
    requires kind { slots.now.kind ≡ N.kind }
    requires marked { is_some slots.now.validity.now ≡ V.marked }
    requires slots { AreSlots slots.now column span.now.batch.now }
    requires span { IsSpan span.now }
    requires few { span.now.to - span.now.from ≤ most_rows }
    ensures { IfSome result (IsTallyOf (SumOf column) (rows_of_span span.now)) }
{
    let mut sum = PartialSum::new();
    let mut holds = true;
    for row in span.from..span.to {
        let valid = V::is_valid(slots, row);
        let number = slots.number::<N>(row);
        let fits = sum.add_slot(valid, number);
        holds = holds & fits;
    }
    if holds { Some(sum.tally()) } else { None }
}
