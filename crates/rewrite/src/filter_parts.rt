//! The parts of a filter: what its outermost ANDs join.

ghost use Rattle.std.specs.Prelude.{◌≡◌, [], ◌∷◌, IfOk, MatchOption, map};
ghost use Rattle.scan_base.specs.Predicate.{conjunction};
ghost use Rattle.scan_base.specs.View.{pred_of};
ghost use Rattle.rewrite.specs.Conjuncts.{conjuncts, is_sure, all_of, parts_of};

use scan_base::{Predicate, Truth};
use std::alloc::{AllocError, Global};
use std::mem;

// The sides of an AND, taken out of it.
fn take_sides(predicate: &mut Predicate<usize>) -> Option<(Predicate<usize>, Predicate<usize>)>
    ensures { MatchOption result ((conjuncts (pred_of predicate.old) ≡ pred_of predicate.old ∷ [])
        × (predicate.new ≡ predicate.old))
        (λ sides. pred_of predicate.old ≡ conjunction (pred_of sides.0) (pred_of sides.1)) }
{
    match predicate {
        Predicate::And(left, right) => {
            let left = mem::replace(&mut **left, Predicate::Constant(Truth::True));
            let right = mem::replace(&mut **right, Predicate::Constant(Truth::True));
            Some((left, right))
        }
        _ => None,
    }
}

// Whether a predicate is the constant TRUE.
fn is_sure(predicate: &Predicate<usize>) -> bool
    ensures { result ≡ is_sure (pred_of predicate.now) }
{
    matches!(predicate, Predicate::Constant(Truth::True))
}

// The parts of a predicate that have to be looked at, in order. A loop: a query may be a chain of
// thousands of ANDs.
pub(crate) fn parts_of(
    alloc: Global,
    predicate: Predicate<usize>,
) -> Result<Vec<Predicate<usize>>, AllocError>
    ensures { IfOk result (λ parts. map pred_of parts.items ≡ parts_of (pred_of predicate)) }
{
    let mut parts = Vec::new(alloc);
    let mut rest = Vec::new(alloc);
    rest.push(predicate)?;
    while let Some(mut next) = rest.pop() {
        if let Some((left, right)) = take_sides(&mut next) {
            rest.push(right)?;
            rest.push(left)?;
        } else if !is_sure(&next) {
            parts.push(next)?;
        }
    }
    Ok(parts)
}

// A predicate and these parts, joined by ANDs from the left.
pub(crate) fn all_of(
    alloc: Global,
    first: Predicate<usize>,
    parts: Vec<Predicate<usize>>,
) -> Result<Predicate<usize>, AllocError>
    ensures { IfOk result
        (λ whole. pred_of whole ≡ all_of (pred_of first) (map pred_of parts.items)) }
{
    let mut whole = first;
    for part in parts {
        let left = Box::new(alloc, whole).map_err(|_| AllocError)?;
        let right = Box::new(alloc, part).map_err(|_| AllocError)?;
        whole = Predicate::And(left, right);
    }
    Ok(whole)
}
