//! On which side of a join the columns of a predicate are.

ghost use Rattle.std.specs.Prelude.{◌≡◌, ℕ, Bool};
ghost use Rattle.std.specs.List.{list_all};
ghost use Rattle.scan_base.specs.Predicate.{operand_names, names_only};
ghost use Rattle.scan_base.specs.View.{pred_of};

use scan_base::{Operand, Predicate};

// A test of the numbers of columns.
pub(crate) trait ColumnTest {
    // Whether a column passes.
    ghost passes: { Self → ℕ → Bool };

    // Whether a column passes.
    fn passes(&self, column: usize) -> bool
        ensures { result ≡ passes self.now column };
}

// The columns left of a seam.
#[derive(Drop)]
pub(crate) struct BeforeSeam {
    pub(crate) seam: usize,
}

impl ColumnTest for BeforeSeam {
    ghost use Rattle.std.specs.Prelude.{nat_lt};

    ghost passes = { λ before column. nat_lt column before.seam };

    fn passes(&self, column: usize) -> bool {
        column < self.seam
    }
}

// The columns from a seam on.
#[derive(Drop)]
pub(crate) struct AfterSeam {
    pub(crate) seam: usize,
}

impl ColumnTest for AfterSeam {
    ghost use Rattle.std.specs.Prelude.{nat_lt, not};

    ghost passes = { λ behind column. not (nat_lt column behind.seam) };

    fn passes(&self, column: usize) -> bool {
        !(column < self.seam)
    }
}

fn operand_names<T: ColumnTest>(operand: &Operand<usize>, test: &T) -> bool
    ensures { result ≡ operand_names (T.passes test.now) operand.now }
{
    match operand {
        Operand::Column(column) => test.passes(*column),
        Operand::Literal(_) => true,
    }
}

fn operands_name<T: ColumnTest>(operands: &[Operand<usize>], test: &T) -> bool
    ensures { result ≡ list_all (operand_names (T.passes test.now)) operands.now }
{
    match operands {
        [] => true,
        [operand, operands @ ..] => operand_names(operand, test) && operands_name(operands, test),
    }
}

// Whether each column that a predicate names passes a test.
pub(crate) fn names_only<T: ColumnTest>(predicate: &Predicate<usize>, test: &T) -> bool
    ensures { result ≡ names_only (T.passes test.now) (pred_of predicate.now) }
{
    match predicate {
        Predicate::And(left, right) => names_only(left, test) && names_only(right, test),
        Predicate::Or(left, right) => names_only(left, test) && names_only(right, test),
        Predicate::Not(inner) => names_only(inner, test),
        Predicate::Is { predicate, .. } => names_only(predicate, test),
        Predicate::Compare { left, right, .. } => operand_names(left, test)
            && operand_names(right, test),
        Predicate::Between {
            operand,
            low,
            high,
            ..
        } => {
            operand_names(operand, test) && (operand_names(low, test) && operand_names(high, test))
        }
        Predicate::In { operand, items, .. } => operand_names(operand, test)
            && operands_name(items.as_slice(), test),
        Predicate::IsNull { operand, .. } => operand_names(operand, test),
        Predicate::Constant(_) => true,
    }
}
