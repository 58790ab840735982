//! FROM: the columns of its places, and the tree that gives their rows.

ghost use Rattle.std.specs.Prelude.{◌≡◌, ◌++◌, IfOk, length};
ghost use Rattle.query_binder.specs.NameRules.{crosses, equality_fault};
ghost use Rattle.typed_plan.specs.Faults.{must, first_in};
ghost use Rattle.query_binder.specs.SelectList.{CanBeWritten};
ghost use Rattle.query_binder.specs.Outcome.{Binds};
ghost use Rattle.query_binder.specs.PlaceTables.{columns_over, scan_over, joined_over};
ghost use Rattle.query_binder.specs.PlaceTables.{joins_fault_over};
ghost use Rattle.query_binder.specs.PlaceTables.{scope_over, tree_over};
ghost use Rattle.typed_plan.specs.Plan.{joined as joined_trees};
ghost use Rattle.query_binder.specs.PlannedTree.{join_key, keys_of};
ghost use Rattle.typed_plan.specs.Scope.{numbered};
ghost use Rattle.typed_plan.specs.View.{tree_of};
ghost use Rattle.scan_base.specs.declared.fault.Fault.TheVariants.{NotInSubset as LeftOut};

use crate::scope::Scope;
use scan_base::{Fault, Items};
use sql_query::{Equality, Join, Place};
use std::alloc::{AllocError, Global};
use table_versions::TableVersion;
use typed_plan::{Class, Columns, JoinKey, Plan};

// The columns of the places so far, and the tree that gives their rows.
#[derive(Drop)]
pub(crate) struct JoinedPlaces<'a> {
    pub(crate) scope: Scope<'a>,
    pub(crate) tree: Plan,
}

impl<'a> JoinedPlaces<'a> {
    // One place.
    pub(crate) fn of_place(
        alloc: Global,
        place: &'a Place,
        table: &'a TableVersion,
    ) -> Result<JoinedPlaces<'a>, AllocError>
        ensures scope { IfOk result (λ joined. joined.scope ≡ columns_over place.now table.now) }
        ensures tree { IfOk result (λ joined. tree_of joined.tree ≡ scan_over place.now table.now) }
        ensures written { IfOk result (λ joined. CanBeWritten joined.scope) }
    {
        let fields = table.schema().fields.as_slice();
        Ok(JoinedPlaces {
            scope: Scope::of_place(alloc, place.name(), fields)?,
            tree: scan(alloc, place, table)?,
        })
    }

    // With the places of these joins, each over its table.
    pub(crate) fn with_all(
        self,
        alloc: Global,
        joins: &'a [Join],
        tables: &'a [TableVersion],
    ) -> Result<JoinedPlaces<'a>, Fault>
        ensures bound { Binds (joins_fault_over self.entry.scope joins.now tables.now)
            (λ joined. (joined.scope ≡ scope_over self.entry.scope joins.now tables.now)
            × (tree_of joined.tree
            ≡ tree_over self.entry.scope (tree_of self.entry.tree) joins.now tables.now)) result }
        ensures written { CanBeWritten self.entry.scope →
            IfOk result (λ joined. CanBeWritten joined.scope) }
    {
        match joins {
            [] => Ok(self),
            [join, joins @ ..] => match tables {
                [] => Ok(self),
                [table, tables @ ..] => self
                    .with(alloc, join, table)?
                    .with_all(alloc, joins, tables),
            },
        }
    }

    // With one place more, over its table.
    fn with(
        self,
        alloc: Global,
        join: &'a Join,
        table: &'a TableVersion,
    ) -> Result<JoinedPlaces<'a>, Fault>
        ensures bound { Binds (first_in (equality_fault (length self.entry.scope)
            (self.entry.scope ++ columns_over join.now.place table.now)) join.now.on)
            (λ joined. (joined.scope ≡ self.entry.scope ++ columns_over join.now.place table.now)
            × (tree_of joined.tree
            ≡ joined_over self.entry.scope (tree_of self.entry.tree) join.now table.now)) result }
        ensures written { CanBeWritten self.entry.scope →
            IfOk result (λ joined. CanBeWritten joined.scope) }
    {
        let JoinedPlaces { mut scope, tree } = self;
        let on = push_join(alloc, &mut scope, join, table)?;
        let tree = join_trees(alloc, tree, scan(alloc, &join.place, table)?, on)?;
        Ok(JoinedPlaces { scope, tree })
    }
}

// The columns of one place more, after the others, and the keys of its ON.
fn push_join<'a>(
    alloc: Global,
    scope: &mut Scope<'a>,
    join: &'a Join,
    table: &'a TableVersion,
) -> Result<Items<JoinKey>, Fault>
    ensures bound { Binds (first_in (equality_fault (length scope.old)
        (scope.old ++ columns_over join.now.place table.now)) join.now.on)
        (λ keys. (scope.new ≡ scope.old ++ columns_over join.now.place table.now)
        × (keys ≡ keys_of (length scope.old)
        (scope.old ++ columns_over join.now.place table.now) join.now.on)) result }
    ensures written { CanBeWritten scope.old → IfOk result (λ keys. CanBeWritten scope.new) }
{
    let seam = scope.len();
    scope.push_place(join.place.name(), table.schema().fields.as_slice())?;
    bind_on(alloc, scope, seam, join.on.as_slice())
}

// The rows of two trees, joined.
fn join_trees(
    alloc: Global,
    left: Plan,
    right: Plan,
    on: Items<JoinKey>,
) -> Result<Plan, AllocError>
    ensures { IfOk result (λ plan. tree_of plan ≡ joined_trees (tree_of left) (tree_of right) on) }
{
    let left = Box::new(alloc, left).map_err(|_| AllocError)?;
    let right = Box::new(alloc, right).map_err(|_| AllocError)?;
    Ok(Plan::Join { left, right, on })
}

// All columns of a place.
fn scan(alloc: Global, place: &Place, table: &TableVersion) -> Result<Plan, AllocError>
    ensures { IfOk result (λ plan. tree_of plan ≡ scan_over place.now table.now) }
{
    Ok(Plan::Scan {
        table: place.table.clone()?,
        schema: table.schema().copy(alloc)?,
        columns: Columns::All,
    })
}

// The keys of an ON, whose new place has the columns from the seam on.
fn bind_on(
    alloc: Global,
    scope: &Scope<'_>,
    seam: usize,
    on: &[Equality],
) -> Result<Items<JoinKey>, Fault>
    ensures { Binds (first_in (equality_fault seam scope.now) on.now)
        (λ keys. keys ≡ keys_of seam scope.now on.now) result }
{
    let mut keys = Items::new(alloc);
    for equality in on {
        keys.push(bind_equality(scope, seam, equality)?)?;
    }
    Ok(keys)
}

// An equality: the left name, the right name, whether their classes agree, and whether it crosses
// the seam.
fn bind_equality(scope: &Scope<'_>, seam: usize, equality: &Equality) -> Result<JoinKey, Fault>
    ensures { Binds (equality_fault seam scope.now equality.now)
        (λ key. key ≡ join_key seam (numbered scope.now equality.now.left)
        (numbered scope.now equality.now.right)) result }
{
    let left = scope.column_of(&equality.left)?;
    let right = scope.column_of(&equality.right)?;
    let class = Class::of_type(scope.field(left).data_type);
    if !class.is_same(Class::of_type(scope.field(right).data_type)) {
        return Err(Fault::TypeClash);
    }
    key_across(seam, left, right)
}

// The key of two columns, of which one stands before the seam and one does not.
fn key_across(seam: usize, left: usize, right: usize) -> Result<JoinKey, Fault>
    ensures { Binds (must (crosses seam left right) LeftOut)
        (λ key. key ≡ join_key seam left right) result }
{
    match (left < seam, right < seam) {
        (true, false) => Ok(JoinKey { left, right }),
        (false, true) => Ok(JoinKey {
            left: right,
            right: left,
        }),
        _ => Err(Fault::NotInSubset),
    }
}
