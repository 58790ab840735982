//! Chains of ANDs and ORs. A query may have thousands in a row, and each is a level of its tree,
//! down the left.

ghost use Rattle.std.specs.Prelude.{◌≡◌, ◌++◌, IfOk, OnOk, map};
ghost use Rattle.scan_base.specs.View.{pred_of};
ghost use Rattle.query_binder.specs.Chain.{connected, first_predicate, link_of, links_of};

use scan_base::Predicate;
use sql_query::Term;
use std::alloc::{AllocError, Global};

// AND or OR.
#[derive(Clone, Copy)]
pub(crate) enum Connective {
    And,
    Or,
}

// What stands after a predicate in a chain.
#[derive(Drop)]
pub(crate) struct ChainLink<'p> {
    pub(crate) connective: Connective,
    pub(crate) predicate: &'p Predicate<Term>,
}

impl Connective {
    // `left AND right` or `left OR right`.
    pub(crate) fn connect(
        self,
        alloc: Global,
        left: Predicate<usize>,
        right: Predicate<usize>,
    ) -> Result<Predicate<usize>, AllocError>
        ensures { IfOk result
            (λ whole. pred_of whole ≡ connected self (pred_of left) (pred_of right)) }
    {
        let left = Box::new(alloc, left).map_err(|_| AllocError)?;
        let right = Box::new(alloc, right).map_err(|_| AllocError)?;
        match self {
            Connective::And => Ok(Predicate::And(left, right)),
            Connective::Or => Ok(Predicate::Or(left, right)),
        }
    }
}

// The first predicate of a chain. What stands after it is added to the sides, the last first.
pub(crate) fn first_of<'p>(
    chain: &'p Predicate<Term>,
    sides: &mut Vec<ChainLink<'p>>,
) -> Result<&'p Predicate<Term>, AllocError>
    ensures first { IfOk result (λ first. pred_of first.now ≡ first_predicate (pred_of chain.now)) }
    ensures behind { OnOk result (map link_of sides.new.items
        ≡ map link_of sides.old.items ++ links_of (pred_of chain.now)) }
{
    let mut first = chain;
    loop {
        let (connective, left, predicate) = match first {
            Predicate::And(left, right) => (Connective::And, left, right),
            Predicate::Or(left, right) => (Connective::Or, left, right),
            _ => return Ok(first),
        };
        sides.push(ChainLink {
            connective,
            predicate,
        })?;
        first = left;
    }
}
