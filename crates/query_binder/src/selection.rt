//! What a query selects: what the result takes of the rows, and its columns.

ghost use Rattle.std.specs.Prelude.{◌≡◌, false, length, map};
ghost use Rattle.sql_query.specs.Sentence.{sentence_of, is_left_out_whole};
ghost use Rattle.sql_query.specs.declared.query.Select.TheVariants.{All as AllColumns};
ghost use Rattle.query_binder.specs.NameRules.{width_fault};
ghost use Rattle.typed_plan.specs.declared.plan.Columns.TheVariants.{All, These as Chosen};
ghost use Rattle.typed_plan.specs.declared.plan.Output.TheVariants.{Project as Taking};
ghost use Rattle.typed_plan.specs.Faults.{◌then◌, fault_in, first_in};
ghost use Rattle.query_binder.specs.SelectList.{column_fault};
ghost use Rattle.query_binder.specs.Outcome.{Binds};
ghost use Rattle.query_binder.specs.PlaceTables.{output_fault};
ghost use Rattle.query_binder.specs.PlannedTree.{number_of_item, output_for};
ghost use Rattle.query_binder.specs.ResultSchema.{item_field, list_fields, select_fields};

use crate::answer::answer_field;
use crate::group_by::bind_groups;
use crate::scope::Scope;
use arrow_types::{Field, MAX_COLUMNS, Schema};
use scan_base::{Fault, Items};
use sql_query::{Expression, Query, Select, SelectItem};
use std::alloc::Global;
use typed_plan::{Columns, Output};

// GROUP BY and the list: what the result takes, and its schema.
pub(crate) fn bind_output(
    alloc: Global,
    scope: &Scope<'_>,
    query: &Query,
) -> Result<(Output, Schema), Fault>
    requires { is_left_out_whole (sentence_of query.now) ≡ false }
    ensures { Binds (output_fault (sentence_of query.now) scope.now)
        (λ bound. (bound.0 ≡ output_for (sentence_of query.now) scope.now)
        × (bound.1 ≡ record { fields = select_fields scope.now query.now.select })) result }
{
    match &query.select {
        Select::All => bind_all(alloc, scope),
        Select::List(items) => {
            if query.is_grouped() {
                bind_groups(alloc, scope, query.group_by.as_slice(), items.as_slice())
            } else {
                bind_columns(alloc, scope, items.as_slice())
            }
        }
    }
}

// `*`
fn bind_all(alloc: Global, scope: &Scope<'_>) -> Result<(Output, Schema), Fault>
    ensures { Binds (width_fault (length scope.now))
        (λ bound. (bound.0 ≡ Taking All)
        × (bound.1 ≡ record { fields = select_fields scope.now AllColumns })) result }
{
    check_width(scope.len())?;
    let fields = scope.answer_fields(alloc)?;
    Ok((Output::Project(Columns::All), Schema { fields }))
}

// A list of columns.
fn bind_columns(
    alloc: Global,
    scope: &Scope<'_>,
    items: &[SelectItem],
) -> Result<(Output, Schema), Fault>
    ensures { Binds (first_in (λ item. column_fault scope.now item.expression) items.now
        then width_fault (length items.now))
        (λ bound. (bound.0 ≡ Taking (Chosen (map (number_of_item scope.now) items.now)))
        × (bound.1 ≡ record { fields = list_fields scope.now 0 items.now })) result }
{
    let (numbers, fields) = bind_items(alloc, scope, items)?;
    check_width(items.len())?;
    Ok((Output::Project(Columns::These(numbers)), Schema { fields }))
}

// The numbers of the items' columns, and their columns of the result.
fn bind_items(
    alloc: Global,
    scope: &Scope<'_>,
    items: &[SelectItem],
) -> Result<(Items<usize>, Items<Field>), Fault>
    ensures { Binds (first_in (λ item. column_fault scope.now item.expression) items.now)
        (λ bound. (bound.0 ≡ map (number_of_item scope.now) items.now)
        × (bound.1 ≡ list_fields scope.now 0 items.now)) result }
{
    let mut numbers = Items::new(alloc);
    let mut fields = Items::new(alloc);
    for (index, item) in items.iter().enumerate() {
        let (number, field) = bind_item(scope, index as u64, item)?;
        numbers.push(number)?;
        fields.push(field)?;
    }
    Ok((numbers, fields))
}

// The number of an item's column, and the column of this place of the result. A list without groups
// has no aggregate.
fn bind_item(scope: &Scope<'_>, place: u64, item: &SelectItem) -> Result<(usize, Field), Fault>
    ensures { Binds (column_fault scope.now item.now.expression)
        (λ bound. (bound.0 ≡ number_of_item scope.now item.now)
        × (bound.1 ≡ item_field scope.now place item.now)) result }
{
    let Expression::Column(name) = &item.expression else {
        return Err(Fault::NotInSubset);
    };
    let number = scope.column_of(name)?;
    Ok((
        number,
        answer_field(scope.field(number), place, &item.alias)?,
    ))
}

// Whether a result may have so many columns.
pub(crate) fn check_width(columns: usize) -> Result<(), Fault>
    ensures { fault_in result ≡ width_fault columns }
{
    if columns > MAX_COLUMNS {
        return Err(Fault::LimitReached);
    }
    Ok(())
}
