//! Literals that are worked out before any row is looked at.

ghost use Rattle.std.specs.Prelude.{◌≡◌, true, false};
ghost use Rattle.std.specs.List.{list_all};
ghost use Rattle.scan_base.specs.Predicate.{operand_names};
ghost use Rattle.scan_base.specs.View.{pred_of};
ghost use Rattle.rewrite.specs.FoldedPredicates.{names_none, folded, folded_atom, folded_tree};
ghost use Rattle.rewrite.specs.FoldedPredicates.{is_atom};
ghost use Rattle.rewrite.specs.FoldedPredicates.{is_folded_tree};
ghost use Rattle.rewrite.specs.SameRows.{StandsFor};
ghost use Rattle.typed_plan.specs.View.{tree_of};

use scan_base::{Operand, Predicate, RowCells, ValueRef};
use typed_plan::{Plan, TypedPlan};

// A row whose every cell is NULL: literals do not look at it.
struct NullCells;

impl RowCells<usize> for NullCells {
    ghost use Rattle.scan_base.specs.declared.value.Value.TheVariants.{Null};
    ghost use Rattle.std.specs.Prelude.{true};

    ghost cell = { λ row column. Null };

    ghost has = { λ row column. true };

    fn cell(&self, _column: &usize) -> ValueRef<'_> {
        ValueRef::Null
    }
}

fn is_literal(operand: &Operand<usize>) -> bool
    ensures { result ≡ operand_names (λ column. false) operand.now }
{
    match operand {
        Operand::Column(_) => false,
        Operand::Literal(_) => true,
    }
}

fn are_literals(operands: &[Operand<usize>]) -> bool
    ensures { result ≡ list_all (operand_names (λ column. false)) operands.now }
{
    operands.iter().all(|operand| is_literal(operand))
}

// Whether a comparison, BETWEEN, IN or IS NULL has literals alone.
fn has_literals_alone(atom: &Predicate<usize>) -> bool
    requires { is_atom (pred_of atom.now) ≡ true }
    ensures { result ≡ names_none (pred_of atom.now) }
{
    match atom {
        Predicate::Compare {
            comparison: _,
            left,
            right,
        } => is_literal(left) && is_literal(right),
        Predicate::Between {
            negated: _,
            operand,
            low,
            high,
        } => is_literal(operand) && (is_literal(low) && is_literal(high)),
        Predicate::In {
            negated: _,
            operand,
            items,
        } => is_literal(operand) && are_literals(items.as_slice()),
        Predicate::IsNull {
            negated: _,
            operand,
        } => is_literal(operand),
        _ => false,
    }
}

// An atom of literals alone becomes its truth.
fn fold_atom(atom: &mut Predicate<usize>)
    requires { is_atom (pred_of atom.old) ≡ true }
    ensures { pred_of atom.new ≡ folded_atom (pred_of atom.old) }
{
    if has_literals_alone(atom) {
        let truth = atom.truth(&NullCells);
        *atom = Predicate::Constant(truth);
    }
}

// Works out each comparison, BETWEEN, IN and IS NULL that has literals alone.
fn fold_predicate(predicate: &mut Predicate<usize>)
    ensures { pred_of predicate.new ≡ folded (pred_of predicate.old) }
{
    match predicate {
        Predicate::And(left, right) => {
            fold_predicate(left);
            fold_predicate(right);
        }
        Predicate::Or(left, right) => {
            fold_predicate(left);
            fold_predicate(right);
        }
        Predicate::Not(inner) => fold_predicate(inner),
        Predicate::Is {
            negated: _,
            tested: _,
            predicate: inner,
        } => fold_predicate(inner),
        Predicate::Constant(_) => {}
        _ => fold_atom(predicate),
    }
}

// Folds each filter of a tree.
fn fold_filters(plan: &mut Plan)
    ensures { tree_of plan.new ≡ folded_tree (tree_of plan.old) }
{
    match plan {
        Plan::Scan { .. } => {}
        Plan::Filter { predicate, input } => {
            fold_predicate(predicate);
            fold_filters(input);
        }
        Plan::Join { left, right, on: _ } => {
            fold_filters(left);
            fold_filters(right);
        }
    }
}

/// The plan with each comparison, BETWEEN, IN and IS NULL of literals alone replaced by its truth,
/// which may be unknown. It gives the same rows, takes no memory and cannot fail.
pub fn fold(plan: TypedPlan) -> TypedPlan
    ensures same { StandsFor result plan }
    ensures tree { tree_of result.plan ≡ folded_tree (tree_of plan.plan) }
    ensures folded { is_folded_tree (tree_of result.plan) ≡ true }
{
    let (tables, mut plan, output, schema) = plan.into_parts();
    fold_filters(&mut plan);
    TypedPlan::new(tables, plan, output, schema)
}
