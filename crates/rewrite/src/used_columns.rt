//! Which columns of a plan's rows are used.

ghost use Rattle.std.specs.Prelude.{◌≡◌, IfOk, OnOk, length};
ghost use Rattle.scan_base.specs.View.{pred_of};
ghost use Rattle.typed_plan.specs.View.{tree_of};
ghost use Rattle.rewrite.specs.Places.{tree_width};
ghost use Rattle.rewrite.specs.Uses.{uses_of, with_column, with_uses, with_item, with_items};
ghost use Rattle.rewrite.specs.Uses.{with_keys, with_operand, with_operands, with_output};
ghost use Rattle.rewrite.specs.Uses.{with_predicate, with_tree};

use crate::widths::width;
use scan_base::{Operand, Predicate};
use std::alloc::{AllocError, Global};
use typed_plan::{Aggregate, Columns, JoinKey, Output, Plan};

// Marks a column. One that is not there has no mark.
#[tactic(auto, using(crate::proofs::UsedColumns::set_past))]
fn mark(uses: &mut [bool], column: usize)
    ensures { uses.new ≡ with_column column uses.old }
{
    if column < uses.len() {
        uses[column] = true;
    }
}

fn mark_columns(uses: &mut [bool], columns: &[usize])
    ensures { uses.new ≡ with_uses columns.now uses.old }
{
    for column in columns {
        mark(uses, *column);
    }
}

fn mark_operand(uses: &mut [bool], operand: &Operand<usize>)
    ensures { uses.new ≡ with_operand operand.now uses.old }
{
    match operand {
        Operand::Column(column) => mark(uses, *column),
        Operand::Literal(_) => {}
    }
}

fn mark_operands(uses: &mut [bool], operands: &[Operand<usize>])
    ensures { uses.new ≡ with_operands operands.now uses.old }
{
    for operand in operands {
        mark_operand(uses, operand);
    }
}

// Marks the columns that a predicate names.
fn mark_predicate(uses: &mut [bool], predicate: &Predicate<usize>)
    ensures { uses.new ≡ with_predicate (pred_of predicate.now) uses.old }
{
    match predicate {
        Predicate::And(left, right) => {
            mark_predicate(uses, left);
            mark_predicate(uses, right);
        }
        Predicate::Or(left, right) => {
            mark_predicate(uses, left);
            mark_predicate(uses, right);
        }
        Predicate::Not(inner) => mark_predicate(uses, inner),
        Predicate::Is { predicate, .. } => mark_predicate(uses, predicate),
        Predicate::Compare { left, right, .. } => {
            mark_operand(uses, left);
            mark_operand(uses, right);
        }
        Predicate::Between {
            operand,
            low,
            high,
            ..
        } => {
            mark_operand(uses, operand);
            mark_operand(uses, low);
            mark_operand(uses, high);
        }
        Predicate::In { operand, items, .. } => {
            mark_operand(uses, operand);
            mark_operands(uses, items.as_slice());
        }
        Predicate::IsNull { operand, .. } => mark_operand(uses, operand),
        Predicate::Constant(_) => {}
    }
}

// Marks both sides of each key.
fn mark_keys(uses: &mut [bool], on: &[JoinKey])
    ensures { uses.new ≡ with_keys on.now uses.old }
{
    for key in on {
        mark(uses, key.left);
        mark(uses, key.right);
    }
}

fn mark_item(uses: &mut [bool], item: &Aggregate)
    ensures { uses.new ≡ with_item item.now uses.old }
{
    match item {
        Aggregate::Key(_) => {}
        Aggregate::CountRows => {}
        Aggregate::Count(column) => mark(uses, *column),
        Aggregate::Sum(column) => mark(uses, *column),
    }
}

fn mark_items(uses: &mut [bool], items: &[Aggregate])
    ensures { uses.new ≡ with_items items.now uses.old }
{
    for item in items {
        mark_item(uses, item);
    }
}

// Marks what a result takes of the rows.
fn mark_output(uses: &mut [bool], output: &Output)
    ensures { uses.new ≡ with_output output.now uses.old }
{
    match output {
        Output::Project(columns) => match columns {
            Columns::All => uses.fill(true),
            Columns::These(numbers) => mark_columns(uses, numbers.as_slice()),
        },
        Output::Groups { keys, items } => {
            mark_columns(uses, keys.as_slice());
            mark_items(uses, items.as_slice());
        }
    }
}

// Marks the columns of a tree's rows that its filters and keys name.
fn mark_tree(uses: &mut [bool], plan: &Plan) -> Result<(), AllocError>
    requires { length uses.old ≡ tree_width (tree_of plan.now) }
    ensures { OnOk result (uses.new ≡ with_tree (tree_of plan.now) uses.old) }
{
    match plan {
        Plan::Scan { .. } => Ok(()),
        Plan::Filter { predicate, input } => {
            mark_predicate(uses, predicate);
            mark_tree(uses, input)
        }
        Plan::Join { left, right, on } => {
            mark_keys(uses, on.as_slice());
            let seam = width(left)?;
            let (left_uses, right_uses) = uses.split_at_mut(seam);
            mark_tree(left_uses, left)?;
            mark_tree(right_uses, right)
        }
    }
}

// Which columns of the rows of a tree are used: those that a filter, an ON or the result names.
pub(crate) fn uses_of(alloc: Global, plan: &Plan, output: &Output) -> Result<Vec<bool>, AllocError>
    ensures { IfOk result (λ uses. uses.items ≡ uses_of (tree_of plan.now) output.now) }
{
    let mut uses = vec![in alloc; false; width(plan)?]?;
    mark_output(uses.as_mut_slice(), output);
    mark_tree(uses.as_mut_slice(), plan)?;
    Ok(uses)
}
