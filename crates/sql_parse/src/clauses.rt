//! The clauses of a query.

ghost use Rattle.std.specs.Prelude.{◌≡◌, ◌<◌, ◌≤◌, IfOk, option_map, [], ◌∷◌};
ghost use Rattle.sql_parse.specs.Answers.{Gives};
ghost use Rattle.sql_parse.specs.Calls.{unread, remaining};
ghost use Rattle.sql_parse.specs.ClauseSteps as steps;
ghost use Rattle.sql_parse.specs.QuerySteps as queries;
ghost use Rattle.scan_base.specs.View.{pred_of};
ghost use Rattle.sql_query.specs.Sentence.{Sentence, sentence_of};

use crate::operands::{column, name};
use crate::predicates::predicate;
use crate::refusal::Refusal;
use crate::tokens::{Class, Rest};
use scan_base::{Items, Predicate, Text};
use sql_query::{ColumnName, Equality, Expression, Join, Place, Query, Select, SelectItem, Term};
use sql_text::{Keyword, Symbol};
use std::alloc::Global;

// [ [AS] name ]
#[tactic(auto, unfolding(crate::specs::ClauseSteps::alias_at))]
fn alias<'t>(alloc: Global, tokens: Rest<'t>) -> Result<(Option<Text>, Rest<'t>), Refusal>
    ensures exact { Gives (λ x. (x.0, unread x.1)) result (steps.alias_at (unread tokens.entry)) }
    ensures shorter { IfOk result (λ x. remaining x.1 ≤ remaining tokens.entry) }
{
    if tokens.at(Class::Word(Keyword::As)) {
        let (_, rest) = tokens.take(Class::Word(Keyword::As))?;
        let (name, rest) = name(alloc, rest)?;
        Ok((Some(name), rest))
    } else if tokens.at(Class::Name) {
        let (name, rest) = name(alloc, tokens)?;
        Ok((Some(name), rest))
    } else {
        Ok((None, tokens))
    }
}

// "*" | column, within COUNT
#[tactic(auto, unfolding(crate::specs::ClauseSteps::counted_at))]
fn counted<'t>(alloc: Global, tokens: Rest<'t>) -> Result<(Expression, Rest<'t>), Refusal>
    ensures exact { Gives (λ x. (x.0, unread x.1)) result (steps.counted_at (unread tokens.entry)) }
    ensures shorter { IfOk result (λ x. remaining x.1 < remaining tokens.entry) }
{
    if tokens.at(Class::Symbol(Symbol::Asterisk)) {
        let (_, rest) = tokens.take(Class::Symbol(Symbol::Asterisk))?;
        Ok((Expression::CountRows, rest))
    } else {
        let (column, rest) = column(alloc, tokens)?;
        Ok((Expression::Count(column), rest))
    }
}

// column | COUNT "(" ("*" | column) ")" | SUM "(" column ")"
#[tactic(auto, unfolding(crate::specs::ClauseSteps::selection_at))]
fn selection<'t>(alloc: Global, tokens: Rest<'t>) -> Result<(Expression, Rest<'t>), Refusal>
    ensures exact { Gives (λ x. (x.0, unread x.1)) result
        (steps.selection_at (unread tokens.entry)) }
    ensures shorter { IfOk result (λ x. remaining x.1 < remaining tokens.entry) }
{
    if tokens.at(Class::Word(Keyword::Count)) {
        let (_, rest) = tokens.take(Class::Word(Keyword::Count))?;
        let (_, rest) = rest.take(Class::Symbol(Symbol::LeftParenthesis))?;
        let (counted, rest) = counted(alloc, rest)?;
        let (_, rest) = rest.take(Class::Symbol(Symbol::RightParenthesis))?;
        Ok((counted, rest))
    } else if tokens.at(Class::Word(Keyword::Sum)) {
        let (_, rest) = tokens.take(Class::Word(Keyword::Sum))?;
        let (_, rest) = rest.take(Class::Symbol(Symbol::LeftParenthesis))?;
        let (column, rest) = column(alloc, rest)?;
        let (_, rest) = rest.take(Class::Symbol(Symbol::RightParenthesis))?;
        Ok((Expression::Sum(column), rest))
    } else {
        let (column, rest) = column(alloc, tokens)?;
        Ok((Expression::Column(column), rest))
    }
}

// selection [ [AS] name ]
#[tactic(auto, unfolding(crate::specs::ClauseSteps::item_at))]
fn item<'t>(alloc: Global, tokens: Rest<'t>) -> Result<(SelectItem, Rest<'t>), Refusal>
    ensures exact { Gives (λ x. (x.0, unread x.1)) result (steps.item_at (unread tokens.entry)) }
    ensures shorter { IfOk result (λ x. remaining x.1 < remaining tokens.entry) }
{
    let (expression, rest) = selection(alloc, tokens)?;
    let (alias, rest) = alias(alloc, rest)?;
    Ok((SelectItem { expression, alias }, rest))
}

// { "," item }, after the first
#[tactic(auto, using(crate::proofs::ClauseReading::items_step))]
fn items<'t>(
    alloc: Global,
    first: SelectItem,
    tokens: Rest<'t>,
) -> Result<(Items<SelectItem>, Rest<'t>), Refusal>
    ensures exact { Gives (λ x. (x.0, unread x.1)) result
        (steps.items_at (first ∷ []) (unread tokens.entry)) }
    ensures shorter { IfOk result (λ x. remaining x.1 ≤ remaining tokens.entry) }
{
    let mut items = Items::new(alloc);
    items.push(first)?;
    let mut rest = tokens;
    while rest.at(Class::Symbol(Symbol::Comma)) {
        let (_, after) = rest.take(Class::Symbol(Symbol::Comma))?;
        let (next, after) = item(alloc, after)?;
        items.push(next)?;
        rest = after;
    }
    Ok((items, rest))
}

// "*" | item { "," item }
#[tactic(auto, unfolding(crate::specs::ClauseSteps::list_at))]
fn list<'t>(alloc: Global, tokens: Rest<'t>) -> Result<(Select, Rest<'t>), Refusal>
    ensures exact { Gives (λ x. (x.0, unread x.1)) result (steps.list_at (unread tokens.entry)) }
    ensures shorter { IfOk result (λ x. remaining x.1 < remaining tokens.entry) }
{
    if tokens.at(Class::Symbol(Symbol::Asterisk)) {
        let (_, rest) = tokens.take(Class::Symbol(Symbol::Asterisk))?;
        Ok((Select::All, rest))
    } else {
        let (first, rest) = item(alloc, tokens)?;
        let (items, rest) = items(alloc, first, rest)?;
        Ok((Select::List(items), rest))
    }
}

// name [ [AS] name ]
#[tactic(auto, unfolding(crate::specs::ClauseSteps::place_at))]
fn place<'t>(alloc: Global, tokens: Rest<'t>) -> Result<(Place, Rest<'t>), Refusal>
    ensures exact { Gives (λ x. (x.0, unread x.1)) result (steps.place_at (unread tokens.entry)) }
    ensures shorter { IfOk result (λ x. remaining x.1 < remaining tokens.entry) }
{
    let (table, rest) = name(alloc, tokens)?;
    let (alias, rest) = alias(alloc, rest)?;
    Ok((Place { table, alias }, rest))
}

// column "=" column
#[tactic(auto, unfolding(crate::specs::ClauseSteps::equal_at))]
fn equality<'t>(alloc: Global, tokens: Rest<'t>) -> Result<(Equality, Rest<'t>), Refusal>
    ensures exact { Gives (λ x. (x.0, unread x.1)) result (steps.equal_at (unread tokens.entry)) }
    ensures shorter { IfOk result (λ x. remaining x.1 < remaining tokens.entry) }
{
    let (left, rest) = column(alloc, tokens)?;
    let (_, rest) = rest.take(Class::Symbol(Symbol::Equal))?;
    let (right, rest) = column(alloc, rest)?;
    Ok((Equality { left, right }, rest))
}

// { AND equality }, after the first
#[tactic(auto, using(crate::proofs::ClauseReading::equals_step))]
fn equalities<'t>(
    alloc: Global,
    first: Equality,
    tokens: Rest<'t>,
) -> Result<(Items<Equality>, Rest<'t>), Refusal>
    ensures exact { Gives (λ x. (x.0, unread x.1)) result
        (steps.equals_at (first ∷ []) (unread tokens.entry)) }
    ensures shorter { IfOk result (λ x. remaining x.1 ≤ remaining tokens.entry) }
{
    let mut equalities = Items::new(alloc);
    equalities.push(first)?;
    let mut rest = tokens;
    while rest.at(Class::Word(Keyword::And)) {
        let (_, after) = rest.take(Class::Word(Keyword::And))?;
        let (next, after) = equality(alloc, after)?;
        equalities.push(next)?;
        rest = after;
    }
    Ok((equalities, rest))
}

// JOIN place ON equality { AND equality }
#[tactic(auto, unfolding(crate::specs::ClauseSteps::joined_at))]
fn joined<'t>(alloc: Global, tokens: Rest<'t>) -> Result<(Join, Rest<'t>), Refusal>
    ensures exact { Gives (λ x. (x.0, unread x.1)) result (steps.joined_at (unread tokens.entry)) }
    ensures shorter { IfOk result (λ x. remaining x.1 < remaining tokens.entry) }
{
    let (_, rest) = tokens.take(Class::Word(Keyword::Join))?;
    let (place, rest) = place(alloc, rest)?;
    let (_, rest) = rest.take(Class::Word(Keyword::On))?;
    let (first, rest) = equality(alloc, rest)?;
    let (on, rest) = equalities(alloc, first, rest)?;
    Ok((Join { place, on }, rest))
}

// [INNER] JOIN place ON equality { AND equality }
#[tactic(auto, unfolding(crate::specs::ClauseSteps::join_at))]
fn join<'t>(alloc: Global, tokens: Rest<'t>) -> Result<(Join, Rest<'t>), Refusal>
    ensures exact { Gives (λ x. (x.0, unread x.1)) result (steps.join_at (unread tokens.entry)) }
    ensures shorter { IfOk result (λ x. remaining x.1 < remaining tokens.entry) }
{
    if tokens.at(Class::Word(Keyword::Inner)) {
        let (_, rest) = tokens.take(Class::Word(Keyword::Inner))?;
        joined(alloc, rest)
    } else {
        joined(alloc, tokens)
    }
}

// { join }
#[tactic(auto, using(crate::proofs::ClauseReading::joins_step))]
fn joins<'t>(alloc: Global, tokens: Rest<'t>) -> Result<(Items<Join>, Rest<'t>), Refusal>
    ensures exact { Gives (λ x. (x.0, unread x.1)) result
        (steps.joins_at [] (unread tokens.entry)) }
    ensures shorter { IfOk result (λ x. remaining x.1 ≤ remaining tokens.entry) }
{
    let mut joins = Items::new(alloc);
    let mut rest = tokens;
    while rest.at(Class::Word(Keyword::Inner)) || rest.at(Class::Word(Keyword::Join)) {
        let (next, after) = join(alloc, rest)?;
        joins.push(next)?;
        rest = after;
    }
    Ok((joins, rest))
}

// FROM place { join }
#[tactic(auto, unfolding(crate::specs::ClauseSteps::source_at))]
fn source<'t>(alloc: Global, tokens: Rest<'t>) -> Result<((Place, Items<Join>), Rest<'t>), Refusal>
    ensures exact { Gives (λ x. (x.0, unread x.1)) result (steps.source_at (unread tokens.entry)) }
{
    let (_, rest) = tokens.take(Class::Word(Keyword::From))?;
    let (place, rest) = place(alloc, rest)?;
    let (joins, rest) = joins(alloc, rest)?;
    Ok(((place, joins), rest))
}

// { "," column }, after the first
#[tactic(auto, using(crate::proofs::ClauseReading::columns_step))]
fn columns<'t>(
    alloc: Global,
    first: ColumnName,
    tokens: Rest<'t>,
) -> Result<(Items<ColumnName>, Rest<'t>), Refusal>
    ensures exact { Gives (λ x. (x.0, unread x.1)) result
        (steps.columns_at (first ∷ []) (unread tokens.entry)) }
{
    let mut columns = Items::new(alloc);
    columns.push(first)?;
    let mut rest = tokens;
    while rest.at(Class::Symbol(Symbol::Comma)) {
        let (_, after) = rest.take(Class::Symbol(Symbol::Comma))?;
        let (next, after) = column(alloc, after)?;
        columns.push(next)?;
        rest = after;
    }
    Ok((columns, rest))
}

// [ GROUP BY column { "," column } ]
#[tactic(auto, unfolding(crate::specs::ClauseSteps::group_at))]
fn group<'t>(alloc: Global, tokens: Rest<'t>) -> Result<(Items<ColumnName>, Rest<'t>), Refusal>
    ensures exact { Gives (λ x. (x.0, unread x.1)) result (steps.group_at (unread tokens.entry)) }
{
    if tokens.at(Class::Word(Keyword::Group)) {
        let (_, rest) = tokens.take(Class::Word(Keyword::Group))?;
        let (_, rest) = rest.take(Class::Word(Keyword::By))?;
        let (first, rest) = column(alloc, rest)?;
        columns(alloc, first, rest)
    } else {
        Ok((Items::new(alloc), tokens))
    }
}

// [ WHERE predicate ], in which `depth` parentheses and prefix NOTs may be open
#[tactic(auto, unfolding(crate::specs::QuerySteps::filter_at))]
fn filter<'t>(
    alloc: Global,
    depth: usize,
    tokens: Rest<'t>,
) -> Result<(Option<Predicate<Term>>, Rest<'t>), Refusal>
    ensures exact { Gives (λ x. (option_map pred_of x.0, unread x.1)) result
        (queries.filter_at depth (unread tokens.entry)) }
{
    if tokens.at(Class::Word(Keyword::Where)) {
        let (_, rest) = tokens.take(Class::Word(Keyword::Where))?;
        let (predicate, rest) = predicate(alloc, depth, rest)?;
        Ok((Some(Box::into_inner(predicate)), rest))
    } else {
        Ok((None, tokens))
    }
}

// [ WHERE predicate ] [ GROUP BY column { "," column } ] [ ";" ]
#[tactic(auto, unfolding(crate::specs::QuerySteps::ending_at))]
fn ending<'t>(
    alloc: Global,
    depth: usize,
    tokens: Rest<'t>,
) -> Result<((Option<Predicate<Term>>, Items<ColumnName>), Rest<'t>), Refusal>
    ensures exact { Gives (λ x. ((option_map pred_of x.0.0, x.0.1), unread x.1)) result
        (queries.ending_at depth (unread tokens.entry)) }
{
    let (filter, rest) = filter(alloc, depth, tokens)?;
    let (group_by, rest) = group(alloc, rest)?;
    if rest.at(Class::Symbol(Symbol::Semicolon)) {
        let (_, rest) = rest.take(Class::Symbol(Symbol::Semicolon))?;
        Ok(((filter, group_by), rest))
    } else {
        Ok(((filter, group_by), rest))
    }
}

// SELECT list FROM place { join } [ WHERE .. ] [ GROUP BY .. ] [ ";" ]
#[tactic(auto, unfolding(crate::specs::QuerySteps::query_at))]
fn query<'t>(alloc: Global, depth: usize, tokens: Rest<'t>) -> Result<(Query, Rest<'t>), Refusal>
    ensures exact { Gives (λ x. (sentence_of x.0, unread x.1)) result
        (queries.query_at depth (unread tokens.entry)) }
{
    let (_, rest) = tokens.take(Class::Word(Keyword::Select))?;
    let (select, rest) = list(alloc, rest)?;
    let ((first, joins), rest) = source(alloc, rest)?;
    let ((filter, group_by), rest) = ending(alloc, depth, rest)?;
    let query = Query {
        select,
        first,
        joins,
        filter,
        group_by,
    };
    Ok((query, rest))
}

// Whether no token is left. The first one that is left offends.
fn end(tokens: Rest<'_>) -> Result<(), Refusal>
    ensures exact { (s : Sentence) →
        Gives (λ _. s) result (queries.finished (s, unread tokens.entry)) }
{
    match tokens.tokens {
        [] => Ok(()),
        [_, ..] => Err(Refusal::Offends(tokens.tokens.len())),
    }
}

/// The query that the tokens, all of them, are, where `depth` parentheses and prefix NOTs may be
/// open.
#[tactic(auto, unfolding(crate::specs::QuerySteps::whole_at))]
pub(crate) fn whole_query(alloc: Global, depth: usize, tokens: Rest<'_>) -> Result<Query, Refusal>
    ensures exact { Gives sentence_of result (queries.whole_at depth (unread tokens.entry)) }
{
    let (query, rest) = query(alloc, depth, tokens)?;
    end(rest)?;
    Ok(query)
}
