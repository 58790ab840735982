//! Binding: the names of a query become columns, and the query a plan.

ghost use Rattle.std.specs.Prelude.{◌≡◌, ◌∷◌, false, Err, IfOk, IfSome, map, option_map};
ghost use Rattle.arrow_types.specs.Schema.{IsSchema};
ghost use Rattle.scan_base.specs.View.{pred_of};
ghost use Rattle.sql_query.specs.Sentence.{sentence_of, is_left_out_whole};
ghost use Rattle.table_versions.specs.StoredTables.{tables_of};
ghost use Rattle.query_binder.specs.Binding.{IsPlanOf};
ghost use Rattle.query_binder.specs.NameRules.{fault_of, glance_of};
ghost use Rattle.query_binder.specs.NameClasses.{filter_fault};
ghost use Rattle.typed_plan.specs.HeldTables.{HoldsFrom, tree_tables};
ghost use Rattle.query_binder.specs.SelectList.{CanBeWritten};
ghost use Rattle.query_binder.specs.Aliases.{HasNames};
ghost use Rattle.query_binder.specs.Outcome.{Binds};
ghost use Rattle.query_binder.specs.PlaceTables.{parts_fault, plan_over, rest_fault};
ghost use Rattle.query_binder.specs.PlannedTree.{plan_for, numbered_filter, where_kept, output_for};
ghost use Rattle.query_binder.specs.ResultSchema.{select_fields};
ghost use Rattle.typed_plan.specs.View.{tree_of, plan_of};

use crate::joining::JoinedPlaces;
use crate::places::{check_joins, place_tables};
use crate::predicate::number_predicate;
use crate::scope::Scope;
use crate::selection::bind_output;
use arrow_types::Schema;
use scan_base::{Fault, Predicate};
use sql_query::{Query, Term};
use std::alloc::{AllocError, Global};
use table_versions::{CatalogVersion, TableVersion};
use typed_plan::{Output, Plan, TypedPlan};

/// The plan of a query at a version of the catalog: the one tree that the parts of the query name.
/// It gives the rows that the query means, on every range of the first place, and has the schema of
/// the result, which can be written where the query's aliases are names. It shares the tables of
/// its places.
///
/// # Errors
///
/// The first of these. F16 (`Fault::NotInSubset`) where the query has a JOIN and makes groups, or
/// selects `*` of groups. Then, place by place, F9 (`Fault::TableMissing`) where a table is absent,
/// and F14 (`Fault::UnknownName`) where an earlier place goes by the name. Then, from the left, the
/// ON of each join, WHERE, GROUP BY and the list: F14 at a name that means no column of the places
/// so far, or several; F15 (`Fault::TypeClash`) where the two sides of a comparison are of
/// different classes, and at a SUM of what is no integer; F16 where an equality of an ON has not
/// one column of its new place and one of an earlier one, and at a column that is selected of
/// groups and is none of GROUP BY. F12 (`Fault::LimitReached`) where the result has more than 64
/// columns. F21 (`Fault::OutOfMemory`) where memory is refused, which is not asked for before the
/// places are looked at.
pub fn bind(alloc: Global, query: &Query, catalog: &CatalogVersion) -> Result<TypedPlan, Fault>
    ensures bound { Binds (fault_of (sentence_of query.now) (tables_of catalog.now))
        (λ plan. plan_of plan ≡ plan_for (sentence_of query.now) (tables_of catalog.now)) result }
    ensures means { IfOk result
        (λ plan. IsPlanOf (sentence_of query.now) (tables_of catalog.now) (plan_of plan)) }
    ensures named { HasNames query.now.select → IfOk result (λ plan. IsSchema plan.schema) }
    ensures first { IfSome (glance_of (sentence_of query.now) (tables_of catalog.now))
        (λ fault. result ≡ Err fault) }
    ensures held { IfOk result (λ plan. HoldsFrom catalog.now plan) }
    ensures places { IfOk result (λ plan. tree_tables (tree_of plan.plan)
        ≡ query.now.first.table ∷ map (λ join. join.place.table) query.now.joins) }
{
    if query.is_left_out() {
        return Err(Fault::NotInSubset);
    }
    let Some(first) = catalog.get(&query.first.table) else {
        return Err(Fault::TableMissing);
    };
    check_joins(query, catalog)?;
    let tables = place_tables(alloc, query, catalog, first)?;
    let (plan, output, schema) = bind_parts(alloc, query, first, &tables[1..])?;
    Ok(TypedPlan::new(tables, plan, output, schema))
}

// The joins, WHERE, GROUP BY and the list, over the tables of the first place and of the others.
fn bind_parts(
    alloc: Global,
    query: &Query,
    first: &TableVersion,
    others: &[TableVersion],
) -> Result<(Plan, Output, Schema), Fault>
    requires { is_left_out_whole (sentence_of query.now) ≡ false }
    ensures bound { Binds (parts_fault (sentence_of query.now) first.now others.now)
        (λ parts. record { tree = tree_of parts.0; output = parts.1; schema = parts.2 }
        ≡ plan_over (sentence_of query.now) first.now others.now) result }
    ensures named { HasNames query.now.select → IfOk result (λ parts. IsSchema parts.2) }
{
    let joined = JoinedPlaces::of_place(alloc, &query.first, first)?;
    let joined = joined.with_all(alloc, query.joins.as_slice(), others)?;
    bind_rest(alloc, query, joined)
}

// WHERE, GROUP BY and the list.
fn bind_rest(
    alloc: Global,
    query: &Query,
    joined: JoinedPlaces<'_>,
) -> Result<(Plan, Output, Schema), Fault>
    requires { is_left_out_whole (sentence_of query.now) ≡ false }
    ensures bound { Binds (rest_fault (sentence_of query.now) joined.entry.scope)
        (λ parts. (tree_of parts.0
        ≡ where_kept (numbered_filter joined.entry.scope (option_map pred_of query.now.filter))
        (tree_of joined.entry.tree))
        × (parts.1 ≡ output_for (sentence_of query.now) joined.entry.scope)
        × (parts.2 ≡ record { fields = select_fields joined.entry.scope query.now.select }))
        result }
    ensures named { CanBeWritten joined.entry.scope → HasNames query.now.select →
        IfOk result (λ parts. IsSchema parts.2) }
{
    let JoinedPlaces { scope, tree } = joined;
    let filter = bind_filter(alloc, &scope, &query.filter)?;
    let (output, schema) = bind_output(alloc, &scope, query)?;
    let plan = filtered(alloc, filter, tree)?;
    Ok((plan, output, schema))
}

// WHERE, over numbers of columns.
fn bind_filter(
    alloc: Global,
    scope: &Scope<'_>,
    filter: &Option<Predicate<Term>>,
) -> Result<Option<Predicate<usize>>, Fault>
    ensures { Binds (filter_fault scope.now (option_map pred_of filter.now))
        (λ bound. option_map pred_of bound
        ≡ numbered_filter scope.now (option_map pred_of filter.now)) result }
{
    match filter {
        None => Ok(None),
        Some(predicate) => Ok(Some(number_predicate(alloc, scope, predicate)?)),
    }
}

// The rows of a tree for which the filter is true.
fn filtered(alloc: Global, filter: Option<Predicate<usize>>, tree: Plan) -> Result<Plan, AllocError>
    ensures { IfOk result
        (λ plan. tree_of plan ≡ where_kept (option_map pred_of filter) (tree_of tree)) }
{
    match filter {
        None => Ok(tree),
        Some(predicate) => {
            let input = Box::new(alloc, tree).map_err(|_| AllocError)?;
            Ok(Plan::Filter { predicate, input })
        }
    }
}
