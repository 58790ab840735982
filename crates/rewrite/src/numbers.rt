//! New numbers of the columns of a predicate.

ghost use Rattle.std.specs.Prelude.{◌≡◌, ℕ, Bool, IsTrue, map};
ghost use Rattle.std.specs.List.{list_all};
ghost use Rattle.scan_base.specs.Predicate.{operand_names, names_only};
ghost use Rattle.scan_base.specs.View.{pred_of};
ghost use Rattle.typed_plan.specs.NumberedPredicates.{operand_map, predicate_map};

use scan_base::{Items, Operand, Predicate};
use std::alloc::Global;
use std::mem;

// New numbers of columns.
pub(crate) trait NewNumbers {
    // The new number of a column.
    ghost number: { Self → ℕ → ℕ };

    // Whether a column has a new number.
    ghost has: { Self → ℕ → Bool };

    // The new number of a column.
    fn number(&self, column: usize) -> usize
        requires { IsTrue (has self.now column) }
        ensures { result ≡ number self.now column };
}

fn renumber_operand<N: NewNumbers>(operand: &mut Operand<usize>, numbers: &N)
    requires { IsTrue (operand_names (N.has numbers.now) operand.old) }
    ensures { operand.new ≡ operand_map (N.number numbers.now) operand.old }
{
    match operand {
        Operand::Column(column) => *column = numbers.number(*column),
        Operand::Literal(_) => {}
    }
}

fn renumber_operands<N: NewNumbers>(operands: &mut [Operand<usize>], numbers: &N)
    requires { IsTrue (list_all (operand_names (N.has numbers.now)) operands.old) }
    ensures { operands.new ≡ map (operand_map (N.number numbers.now)) operands.old }
{
    if let Some((operand, rest)) = operands.split_first_mut() {
        renumber_operand(operand, numbers);
        renumber_operands(rest, numbers);
    }
}

fn renumber_items<N: NewNumbers>(alloc: Global, items: &mut Items<Operand<usize>>, numbers: &N)
    requires { IsTrue (list_all (operand_names (N.has numbers.now)) items.old) }
    ensures { items.new ≡ map (operand_map (N.number numbers.now)) items.old }
{
    let mut operands = mem::replace(items, Items::new(alloc)).into_vec();
    renumber_operands(operands.as_mut_slice(), numbers);
    *items = Items::from(operands);
}

// Gives each column that a predicate names its new number, in place. It takes no memory.
pub(crate) fn renumber<N: NewNumbers>(alloc: Global, predicate: &mut Predicate<usize>, numbers: &N)
    requires { IsTrue (names_only (N.has numbers.now) (pred_of predicate.old)) }
    ensures { pred_of predicate.new ≡ predicate_map (N.number numbers.now) (pred_of predicate.old) }
{
    match predicate {
        Predicate::And(left, right) => {
            renumber(alloc, left, numbers);
            renumber(alloc, right, numbers);
        }
        Predicate::Or(left, right) => {
            renumber(alloc, left, numbers);
            renumber(alloc, right, numbers);
        }
        Predicate::Not(inner) => renumber(alloc, inner, numbers),
        Predicate::Is { predicate, .. } => renumber(alloc, predicate, numbers),
        Predicate::Compare { left, right, .. } => {
            renumber_operand(left, numbers);
            renumber_operand(right, numbers);
        }
        Predicate::Between {
            operand,
            low,
            high,
            ..
        } => {
            renumber_operand(operand, numbers);
            renumber_operand(low, numbers);
            renumber_operand(high, numbers);
        }
        Predicate::In { operand, items, .. } => {
            renumber_operand(operand, numbers);
            renumber_items(alloc, items, numbers);
        }
        Predicate::IsNull { operand, .. } => renumber_operand(operand, numbers),
        Predicate::Constant(_) => {}
    }
}

// The numbers of the columns after a seam, counted from it.
#[derive(Drop)]
pub(crate) struct FromSeam {
    pub(crate) seam: usize,
}

impl NewNumbers for FromSeam {
    ghost use Rattle.std.specs.Prelude.{◌-◌, nat_lt, not};

    ghost number = { λ from column. column - from.seam };

    ghost has = { λ from column. not (nat_lt column from.seam) };

    fn number(&self, column: usize) -> usize {
        column - self.seam
    }
}
