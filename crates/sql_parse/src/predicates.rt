//! Predicates.

ghost use Rattle.std.specs.Prelude.{◌≡◌, ◌<◌, ◌≤◌, IfOk, Ok, [], ◌∷◌};
ghost use Rattle.scan_base.specs.Predicate.{conjunction, disjunction};
ghost use Rattle.scan_base.specs.View.{pred_of};
ghost use Rattle.sql_parse.specs.Answers.{Gives};
ghost use Rattle.sql_parse.specs.Calls.{unread, remaining};
ghost use Rattle.sql_parse.specs.PredicateSteps as predicates;

use crate::operands::{compare, operand};
use crate::refusal::Refusal;
use crate::tokens::{Class, Rest};
use scan_base::{Items, Operand, Predicate, Truth};
use sql_query::Term;
use sql_text::{Keyword, Symbol};
use std::alloc::Global;

// [ NOT ]
#[tactic(auto, unfolding(crate::specs::PredicateSteps::negated_at))]
fn negated<'t>(tokens: Rest<'t>) -> Result<(bool, Rest<'t>), Refusal>
    ensures exact { Gives (λ x. (x.0, unread x.1)) result
        (predicates.negated_at (unread tokens.entry)) }
    ensures shorter { IfOk result (λ x. remaining x.1 ≤ remaining tokens.entry) }
{
    if tokens.at(Class::Word(Keyword::Not)) {
        let (_, rest) = tokens.take(Class::Word(Keyword::Not))?;
        Ok((true, rest))
    } else {
        Ok((false, tokens))
    }
}

// TRUE | FALSE | UNKNOWN
#[tactic(auto, unfolding(crate::specs::PredicateSteps::truth_at))]
fn truth_value<'t>(tokens: Rest<'t>) -> Result<(Truth, Rest<'t>), Refusal>
    ensures exact { Gives (λ x. (x.0, unread x.1)) result
        (predicates.truth_at (unread tokens.entry)) }
    ensures shorter { IfOk result (λ x. remaining x.1 < remaining tokens.entry) }
{
    if tokens.at(Class::Word(Keyword::True)) {
        let (_, rest) = tokens.take(Class::Word(Keyword::True))?;
        Ok((Truth::True, rest))
    } else if tokens.at(Class::Word(Keyword::False)) {
        let (_, rest) = tokens.take(Class::Word(Keyword::False))?;
        Ok((Truth::False, rest))
    } else {
        let (_, rest) = tokens.take(Class::Word(Keyword::Unknown))?;
        Ok((Truth::Unknown, rest))
    }
}

// ---- From here on a predicate is in a box, since each parenthesis hands it on.

// What may follow an operand: each stands apart, so that no reading makes room for what another
// needs.

// compare operand, after an operand
#[tactic(auto, unfolding(crate::specs::PredicateSteps::compared_at))]
#[inline(never)]
fn compared<'t>(
    alloc: Global,
    left: Operand<Term>,
    tokens: Rest<'t>,
) -> Result<(Box<Predicate<Term>>, Rest<'t>), Refusal>
    ensures exact { Gives (λ x. (pred_of x.0.value, unread x.1)) result
        (predicates.compared_at left (unread tokens.entry)) }
    ensures shorter { IfOk result (λ x. remaining x.1 < remaining tokens.entry) }
{
    let (comparison, rest) = compare(tokens)?;
    let (right, rest) = operand(alloc, rest)?;
    let predicate = Predicate::Compare {
        comparison,
        left,
        right,
    };
    Ok((Box::new(alloc, predicate)?, rest))
}

// IS [NOT] NULL, after an operand
#[tactic(auto, unfolding(crate::specs::PredicateSteps::nulled_at))]
#[inline(never)]
fn null_test<'t>(
    alloc: Global,
    operand: Operand<Term>,
    tokens: Rest<'t>,
) -> Result<(Box<Predicate<Term>>, Rest<'t>), Refusal>
    ensures exact { Gives (λ x. (pred_of x.0.value, unread x.1)) result
        (predicates.nulled_at operand (unread tokens.entry)) }
    ensures shorter { IfOk result (λ x. remaining x.1 < remaining tokens.entry) }
{
    let (_, rest) = tokens.take(Class::Word(Keyword::Is))?;
    let (negated, rest) = negated(rest)?;
    let (_, rest) = rest.take(Class::Word(Keyword::Null))?;
    let predicate = Predicate::IsNull { negated, operand };
    Ok((Box::new(alloc, predicate)?, rest))
}

// BETWEEN operand AND operand, after an operand and NOT or none
#[tactic(auto, unfolding(crate::specs::PredicateSteps::ranged_at))]
#[inline(never)]
fn between<'t>(
    alloc: Global,
    negated: bool,
    value: Operand<Term>,
    tokens: Rest<'t>,
) -> Result<(Box<Predicate<Term>>, Rest<'t>), Refusal>
    ensures exact { Gives (λ x. (pred_of x.0.value, unread x.1)) result
        (predicates.ranged_at negated value (unread tokens.entry)) }
    ensures shorter { IfOk result (λ x. remaining x.1 < remaining tokens.entry) }
{
    let (_, rest) = tokens.take(Class::Word(Keyword::Between))?;
    let (low, rest) = operand(alloc, rest)?;
    let (_, rest) = rest.take(Class::Word(Keyword::And))?;
    let (high, rest) = operand(alloc, rest)?;
    let predicate = Predicate::Between {
        negated,
        operand: value,
        low,
        high,
    };
    Ok((Box::new(alloc, predicate)?, rest))
}

// { "," operand }, after the first
#[tactic(auto, using(crate::proofs::Steps::operands_step))]
fn operands<'t>(
    alloc: Global,
    first: Operand<Term>,
    tokens: Rest<'t>,
) -> Result<(Items<Operand<Term>>, Rest<'t>), Refusal>
    ensures exact { Gives (λ x. (x.0, unread x.1)) result
        (predicates.operands_at (first ∷ []) (unread tokens.entry)) }
    ensures shorter { IfOk result (λ x. remaining x.1 ≤ remaining tokens.entry) }
{
    let mut items = Items::new(alloc);
    items.push(first)?;
    let mut rest = tokens;
    while rest.at(Class::Symbol(Symbol::Comma)) {
        let (_, after) = rest.take(Class::Symbol(Symbol::Comma))?;
        let (next, after) = operand(alloc, after)?;
        items.push(next)?;
        rest = after;
    }
    Ok((items, rest))
}

// IN "(" operand { "," operand } ")", after an operand and NOT or none
#[tactic(auto, unfolding(crate::specs::PredicateSteps::among_at))]
#[inline(never)]
fn membership<'t>(
    alloc: Global,
    negated: bool,
    value: Operand<Term>,
    tokens: Rest<'t>,
) -> Result<(Box<Predicate<Term>>, Rest<'t>), Refusal>
    ensures exact { Gives (λ x. (pred_of x.0.value, unread x.1)) result
        (predicates.among_at negated value (unread tokens.entry)) }
    ensures shorter { IfOk result (λ x. remaining x.1 < remaining tokens.entry) }
{
    let (_, rest) = tokens.take(Class::Word(Keyword::In))?;
    let (_, rest) = rest.take(Class::Symbol(Symbol::LeftParenthesis))?;
    let (first, rest) = operand(alloc, rest)?;
    let (items, rest) = operands(alloc, first, rest)?;
    let (_, rest) = rest.take(Class::Symbol(Symbol::RightParenthesis))?;
    let predicate = Predicate::In {
        negated,
        operand: value,
        items,
    };
    Ok((Box::new(alloc, predicate)?, rest))
}

// what follows an operand
#[tactic(auto, unfolding(crate::specs::PredicateSteps::tail_at))]
fn behind_operand<'t>(
    alloc: Global,
    left: Operand<Term>,
    tokens: Rest<'t>,
) -> Result<(Box<Predicate<Term>>, Rest<'t>), Refusal>
    ensures exact { Gives (λ x. (pred_of x.0.value, unread x.1)) result
        (predicates.tail_at left (unread tokens.entry)) }
    ensures shorter { IfOk result (λ x. remaining x.1 < remaining tokens.entry) }
{
    if tokens.at(Class::Word(Keyword::Is)) {
        null_test(alloc, left, tokens)
    } else if tokens.at(Class::Word(Keyword::Not)) {
        let (_, rest) = tokens.take(Class::Word(Keyword::Not))?;
        if rest.at(Class::Word(Keyword::Between)) {
            between(alloc, true, left, rest)
        } else {
            membership(alloc, true, left, rest)
        }
    } else if tokens.at(Class::Word(Keyword::Between)) {
        between(alloc, false, left, tokens)
    } else if tokens.at(Class::Word(Keyword::In)) {
        membership(alloc, false, left, tokens)
    } else {
        compared(alloc, left, tokens)
    }
}

// The next four stand apart, so that what an open parenthesis keeps on the stack holds no predicate
// by value.

// operand and what follows it
#[tactic(auto, unfolding(crate::specs::PredicateSteps::form_at))]
#[inline(never)]
fn form<'t>(alloc: Global, tokens: Rest<'t>) -> Result<(Box<Predicate<Term>>, Rest<'t>), Refusal>
    ensures exact { Gives (λ x. (pred_of x.0.value, unread x.1)) result
        (predicates.form_at (unread tokens.entry)) }
    ensures shorter { IfOk result (λ x. remaining x.1 < remaining tokens.entry) }
{
    let (left, rest) = operand(alloc, tokens)?;
    behind_operand(alloc, left, rest)
}

// IS [NOT] (TRUE | FALSE | UNKNOWN), after a predicate
#[tactic(auto, unfolding(crate::specs::PredicateSteps::tested_at))]
#[inline(never)]
fn truth_test<'t>(
    alloc: Global,
    predicate: Box<Predicate<Term>>,
    tokens: Rest<'t>,
) -> Result<(Box<Predicate<Term>>, Rest<'t>), Refusal>
    ensures exact { Gives (λ x. (pred_of x.0.value, unread x.1)) result
        (predicates.tested_at (pred_of predicate.value) (unread tokens.entry)) }
    ensures shorter { IfOk result (λ x. remaining x.1 < remaining tokens.entry) }
{
    let (_, rest) = tokens.take(Class::Word(Keyword::Is))?;
    let (negated, rest) = negated(rest)?;
    let (tested, rest) = truth_value(rest)?;
    let predicate = Predicate::Is {
        negated,
        tested,
        predicate,
    };
    Ok((Box::new(alloc, predicate)?, rest))
}

// left AND right
#[inline(never)]
fn both(
    alloc: Global,
    left: Box<Predicate<Term>>,
    right: Box<Predicate<Term>>,
) -> Result<Box<Predicate<Term>>, Refusal>
    ensures { Gives (λ x. pred_of x.value) result
        (Ok (conjunction (pred_of left.value) (pred_of right.value))) }
{
    Ok(Box::new(alloc, Predicate::And(left, right))?)
}

// left OR right
#[inline(never)]
fn either(
    alloc: Global,
    left: Box<Predicate<Term>>,
    right: Box<Predicate<Term>>,
) -> Result<Box<Predicate<Term>>, Refusal>
    ensures { Gives (λ x. pred_of x.value) result
        (Ok (disjunction (pred_of left.value) (pred_of right.value))) }
{
    Ok(Box::new(alloc, Predicate::Or(left, right))?)
}

// NOT factor
#[tactic(auto, unfolding(crate::specs::PredicateSteps::negation_at))]
#[cycle(nested)]
fn negation<'t>(
    alloc: Global,
    depth: usize,
    tokens: Rest<'t>,
) -> Result<(Box<Predicate<Term>>, Rest<'t>), Refusal>
    ensures exact { Gives (λ x. (pred_of x.0.value, unread x.1)) result
        (predicates.negation_at depth (unread tokens.entry)) }
    ensures shorter { IfOk result (λ x. remaining x.1 < remaining tokens.entry) }
{
    if depth == 0 {
        return Err(Refusal::TooDeep);
    }
    let (_, rest) = tokens.take(Class::Word(Keyword::Not))?;
    let (predicate, rest) = factor(alloc, depth - 1, rest)?;
    Ok((Box::new(alloc, Predicate::Not(predicate))?, rest))
}

// NOT factor | test, where `depth` parentheses and prefix NOTs more may be open
#[tactic(auto, using(crate::proofs::Steps::factor_step))]
#[cycle(nested)]
#[inline(always)]
fn factor<'t>(
    alloc: Global,
    depth: usize,
    tokens: Rest<'t>,
) -> Result<(Box<Predicate<Term>>, Rest<'t>), Refusal>
    ensures exact { Gives (λ x. (pred_of x.0.value, unread x.1)) result
        (predicates.factor_at depth (unread tokens.entry)) }
    ensures shorter { IfOk result (λ x. remaining x.1 < remaining tokens.entry) }
{
    if tokens.at(Class::Word(Keyword::Not)) {
        negation(alloc, depth, tokens)
    } else {
        test(alloc, depth, tokens)
    }
}

// factor { AND factor }
#[tactic(auto, using(crate::proofs::Steps::ands_step), unfolding(crate::specs::PredicateSteps::conj_at))]
#[cycle(nested)]
#[inline(always)]
fn conjunction<'t>(
    alloc: Global,
    depth: usize,
    tokens: Rest<'t>,
) -> Result<(Box<Predicate<Term>>, Rest<'t>), Refusal>
    ensures exact { Gives (λ x. (pred_of x.0.value, unread x.1)) result
        (predicates.conj_at depth (unread tokens.entry)) }
    ensures shorter { IfOk result (λ x. remaining x.1 < remaining tokens.entry) }
{
    let (mut left, mut rest) = factor(alloc, depth, tokens)?;
    while rest.at(Class::Word(Keyword::And)) {
        let (_, after) = rest.take(Class::Word(Keyword::And))?;
        let (right, after) = factor(alloc, depth, after)?;
        left = both(alloc, left, right)?;
        rest = after;
    }
    Ok((left, rest))
}

// conjunction { OR conjunction }
#[tactic(auto, using(crate::proofs::Steps::ors_step), unfolding(crate::specs::PredicateSteps::pred_at))]
#[cycle(nested)]
#[inline(always)]
pub(crate) fn predicate<'t>(
    alloc: Global,
    depth: usize,
    tokens: Rest<'t>,
) -> Result<(Box<Predicate<Term>>, Rest<'t>), Refusal>
    ensures exact { Gives (λ x. (pred_of x.0.value, unread x.1)) result
        (predicates.pred_at depth (unread tokens.entry)) }
    ensures shorter { IfOk result (λ x. remaining x.1 < remaining tokens.entry) }
{
    let (mut left, mut rest) = conjunction(alloc, depth, tokens)?;
    while rest.at(Class::Word(Keyword::Or)) {
        let (_, after) = rest.take(Class::Word(Keyword::Or))?;
        let (right, after) = conjunction(alloc, depth, after)?;
        left = either(alloc, left, right)?;
        rest = after;
    }
    Ok((left, rest))
}

// "(" predicate ")"
#[tactic(auto, unfolding(crate::specs::PredicateSteps::inside_at))]
#[cycle(nested)]
#[inline(always)]
fn parenthesized<'t>(
    alloc: Global,
    depth: usize,
    tokens: Rest<'t>,
) -> Result<(Box<Predicate<Term>>, Rest<'t>), Refusal>
    ensures exact { Gives (λ x. (pred_of x.0.value, unread x.1)) result
        (predicates.inside_at depth (unread tokens.entry)) }
    ensures shorter { IfOk result (λ x. remaining x.1 < remaining tokens.entry) }
{
    if depth == 0 {
        return Err(Refusal::TooDeep);
    }
    let (_, rest) = tokens.take(Class::Symbol(Symbol::LeftParenthesis))?;
    let (predicate, rest) = predicate(alloc, depth - 1, rest)?;
    let (_, rest) = rest.take(Class::Symbol(Symbol::RightParenthesis))?;
    Ok((predicate, rest))
}

// "(" predicate ")" | operand and what follows it
#[tactic(auto, unfolding(crate::specs::PredicateSteps::primary_at))]
#[cycle(nested)]
#[inline(always)]
fn primary<'t>(
    alloc: Global,
    depth: usize,
    tokens: Rest<'t>,
) -> Result<(Box<Predicate<Term>>, Rest<'t>), Refusal>
    ensures exact { Gives (λ x. (pred_of x.0.value, unread x.1)) result
        (predicates.primary_at depth (unread tokens.entry)) }
    ensures shorter { IfOk result (λ x. remaining x.1 < remaining tokens.entry) }
{
    if tokens.at(Class::Symbol(Symbol::LeftParenthesis)) {
        parenthesized(alloc, depth, tokens)
    } else {
        form(alloc, tokens)
    }
}

// primary [ IS [NOT] (TRUE | FALSE | UNKNOWN) ]
#[tactic(auto, unfolding(crate::specs::PredicateSteps::test_at))]
#[cycle(nested)]
fn test<'t>(
    alloc: Global,
    depth: usize,
    tokens: Rest<'t>,
) -> Result<(Box<Predicate<Term>>, Rest<'t>), Refusal>
    ensures exact { Gives (λ x. (pred_of x.0.value, unread x.1)) result
        (predicates.test_at depth (unread tokens.entry)) }
    ensures shorter { IfOk result (λ x. remaining x.1 < remaining tokens.entry) }
{
    let (predicate, rest) = primary(alloc, depth, tokens)?;
    if rest.at(Class::Word(Keyword::Is)) {
        truth_test(alloc, predicate, rest)
    } else {
        Ok((predicate, rest))
    }
}
