//! Plans: what gives the rows of a bound query.

ghost use Rattle.std.specs.Prelude.{◌≡◌, ◌<◌, length, map};
ghost use Rattle.table_versions.specs.StoredTables.{TableAt};
ghost use Rattle.typed_plan.specs.HeldTables.{tree_schemas};
ghost use Rattle.typed_plan.specs.TypedPlans.{IsTyped};
ghost use Rattle.typed_plan.specs.View.{tree_of, plan_of};

use arrow_types::Schema;
use scan_base::{Items, Predicate, Text};
use std::marker::Model;
use table_versions::TableVersion;

/// Which cells of a row are taken.
pub enum Columns {
    /// The row as it is.
    All,
    /// The cells of these columns, counted from 0.
    These(Items<usize>),
}

// Written out, so that dropping it is one call (docs/DECISIONS.md).
impl Drop for Columns {
    fn drop(self) {
        match self {
            Columns::All => {}
            Columns::These(_) => {}
        }
    }
}

/// What gives rows. A predicate's columns are numbers of the cells of a row of its input, from 0.
#[derive(Drop)]
pub enum Plan {
    /// Columns of the rows of a table, in the table's order, where these are the table's columns.
    Scan {
        table: Text,
        schema: Schema,
        columns: Columns,
    },
    /// The rows of the input for which the predicate is true, in order.
    Filter {
        predicate: Predicate<usize>,
        input: Box<Plan>,
    },
    /// Each row of the left with each row of the right for which both cells of each key are equal,
    /// in the order of nested loops, the left outermost. The right reads one place alone.
    Join {
        left: Box<Plan>,
        right: Box<Plan>,
        on: Items<JoinKey>,
    },
}

/// Two cells of a joined row that are to be equal: one of its left part, and one of its right part.
/// Both are counted from the row's begin.
#[derive(Clone, Copy, Drop)]
pub struct JoinKey {
    pub left: usize,
    pub right: usize,
}

/// What an item of a grouped result gives of a group.
#[derive(Clone, Copy, Drop)]
pub enum Aggregate {
    /// The value at a place of the group's key.
    Key(usize),
    /// How many rows there are.
    CountRows,
    /// How many values of a column are not null.
    Count(usize),
    /// The sum of a column's values that are not null; null where there is none.
    Sum(usize),
}

/// What a result is made of.
#[derive(Drop)]
pub enum Output {
    /// Cells of each row.
    Project(Columns),
    /// Items of each group of rows that have the same values in these columns, by first appearance.
    /// Without a column there is one group of all rows, also of none.
    Groups {
        keys: Items<usize>,
        items: Items<Aggregate>,
    },
}

/// A bound query: the tables of its places, what gives its rows, and the columns of its result. It
/// is well typed: each column is there, what is compared is of one class, and the result has the
/// types that its schema says.
pub struct TypedPlan {
    pub(crate) tables: Vec<TableVersion>,
    pub(crate) plan: Plan,
    pub(crate) output: Output,
    pub(crate) schema: Schema,
}

// Written out, so that dropping it is one call (docs/DECISIONS.md).
impl Drop for TypedPlan {
    fn drop(self) {
        let TypedPlan {
            tables: _,
            plan: _,
            output: _,
            schema: _,
        } = self;
    }
}

impl Model for TypedPlan {
    ghost use Rattle.std.specs.Coded.{codes};
    ghost use Rattle.typed_plan.specs.contracts.plan.Plan as tree;
    ghost use Rattle.std.specs.Prelude.{◌≡◌, map};
    ghost use Rattle.table_versions.specs.StoredTables.{TableAt};
    ghost use Rattle.typed_plan.specs.HeldTables.{tree_schemas};
    ghost use Rattle.typed_plan.specs.TypedPlans.{IsTyped};
    ghost use Rattle.typed_plan.specs.View.{BoundAt, tree_of, plan_of};

    ghost Value = { BoundAt };

    ghost coded = { Prim.hlevel (codes, tree.the_row.coded) };

    ghost view = { λ t.
        record { tables = t.tables.items; plan = t.plan; output = t.output; schema = t.schema } };

    ghost invariant = { λ t.
        IsTyped (plan_of
        (record { tables = t.tables.items; plan = t.plan; output = t.output; schema = t.schema }))
        × (tree_schemas (tree_of t.plan)
        ≡ map (λ (table : TableAt). table.schema) t.tables.items) };
}

impl TypedPlan {
    /// The tables of the places, in their order, with the columns that the plan says; there is one
    /// or more.
    pub fn tables(&self) -> &[TableVersion]
        ensures tables { result.now ≡ self.now.tables }
        ensures columns { tree_schemas (tree_of self.now.plan)
            ≡ map (λ (table : TableAt). table.schema) self.now.tables }
        ensures some { 0 < length self.now.tables }
    {
        self.tables.as_slice()
    }

    /// What gives the rows.
    pub fn plan(&self) -> &Plan
        ensures plan { result.now ≡ self.now.plan }
        ensures typed { IsTyped (plan_of self.now) }
    {
        &self.plan
    }

    /// What the result takes of the rows.
    pub fn output(&self) -> &Output
        ensures { result.now ≡ self.now.output }
    {
        &self.output
    }

    /// The columns of the result.
    pub fn schema(&self) -> &Schema
        ensures { result.now ≡ self.now.schema }
    {
        &self.schema
    }

    /// The tables, what gives the rows, what the result takes of them, and the columns of the
    /// result, apart.
    pub fn into_parts(self) -> (Vec<TableVersion>, Plan, Output, Schema)
        ensures tables { result.0.items ≡ self.tables }
        ensures plan { result.1 ≡ self.plan }
        ensures output { result.2 ≡ self.output }
        ensures schema { result.3 ≡ self.schema }
        ensures typed { IsTyped (plan_of self) }
        ensures columns { tree_schemas (tree_of self.plan)
            ≡ map (λ (table : TableAt). table.schema) self.tables }
    {
        let TypedPlan {
            tables,
            plan,
            output,
            schema,
        } = self;
        (tables, plan, output, schema)
    }

    /// A plan of these parts.
    pub fn new(tables: Vec<TableVersion>, plan: Plan, output: Output, schema: Schema) -> TypedPlan
        requires typed { IsTyped (plan_of
            (record { tables = tables.items; plan = plan; output = output; schema = schema })) }
        requires columns { tree_schemas (tree_of plan)
            ≡ map (λ (table : TableAt). table.schema) tables.items }
        ensures { result
            ≡ record { tables = tables.items; plan = plan; output = output; schema = schema } }
    {
        TypedPlan {
            tables,
            plan,
            output,
            schema,
        }
    }
}
