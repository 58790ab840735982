//! The columns that the names of a query may stand for.

ghost use Rattle.std.specs.Prelude.{◌≡◌, ◌<◌, ◌++◌, IfOk, OnOk, Some, length, option_map};
ghost use Rattle.std.specs.Prelude.{slice_get};
ghost use Rattle.typed_plan.specs.Scope.{columns_in, stands_for as is_named, column_of};
ghost use Rattle.query_binder.specs.ResultSchema.{select_fields};
ghost use Rattle.sql_query.specs.declared.query.Select.TheVariants.{All};

use crate::answer::answer_field;
use arrow_types::Field;
use scan_base::{Fault, Items, Text};
use sql_query::ColumnName;
use std::alloc::{AllocError, Global};
use std::marker::Model;

// A column of a place, with the name that the place goes by.
#[derive(Drop)]
struct PlacedColumn<'a> {
    place: &'a Text,
    field: &'a Field,
}

impl<'a> Model for PlacedColumn<'a> {
    ghost use Rattle.typed_plan.specs.Scope.{ScopeColumn};

    ghost Value = { ScopeColumn };

    ghost view = { λ c. record { place = c.place.now; field = c.field.now } };
}

// The columns of a joined row, in order.
#[derive(Drop)]
pub(crate) struct Scope<'a> {
    columns: Vec<PlacedColumn<'a>>,
}

impl<'a> Model for Scope<'a> {
    ghost use Rattle.std.specs.Prelude.{List};
    ghost use Rattle.typed_plan.specs.Scope.{ScopeColumn};

    ghost Value = { List ScopeColumn };

    ghost view = { λ scope. scope.columns.items };
}

impl<'a> Scope<'a> {
    // The columns of one place.
    pub(crate) fn of_place(
        alloc: Global,
        place: &'a Text,
        fields: &'a [Field],
    ) -> Result<Scope<'a>, AllocError>
        ensures { IfOk result (λ scope. scope ≡ columns_in place.now fields.now) }
    {
        let mut columns = Vec::with_capacity(alloc, fields.len())?;
        for field in fields {
            columns.push(PlacedColumn { place, field })?;
        }
        Ok(Scope { columns })
    }

    // The columns of one place more, after the others.
    pub(crate) fn push_place(
        &mut self,
        place: &'a Text,
        fields: &'a [Field],
    ) -> Result<(), AllocError>
        ensures { OnOk result (self.new ≡ self.old ++ columns_in place.now fields.now) }
    {
        for field in fields {
            self.columns.push(PlacedColumn { place, field })?;
        }
        Ok(())
    }

    // How many columns there are.
    pub(crate) fn len(&self) -> usize
        ensures { result ≡ length self.now }
    {
        self.columns.len()
    }

    // The column of a number, counted from 0.
    pub(crate) fn field(&self, number: usize) -> &Field
        requires { number < length self.now }
        ensures { option_map (λ column. column.field) (slice_get self.now number)
            ≡ Some result.now }
    {
        self.columns[number].field
    }

    // All columns, as a result has them.
    pub(crate) fn answer_fields(&self, alloc: Global) -> Result<Items<Field>, AllocError>
        ensures { IfOk result (λ fields. fields ≡ select_fields self.now All) }
    {
        let mut fields = Items::new(alloc);
        for (number, column) in self.columns.iter().enumerate() {
            fields.push(answer_field(column.field, number as u64, &None)?)?;
        }
        Ok(fields)
    }

    // The number of the column that a name means.
    //
    // F14 (`Fault::UnknownName`) where it means none, or several.
    pub(crate) fn column_of(&self, name: &ColumnName) -> Result<usize, Fault>
        ensures within { IfOk result (λ number. number < length self.now) }
        ensures meant { result ≡ column_of self.now name.now }
    {
        let mut found = None;
        for (number, column) in self.columns.iter().enumerate() {
            if stands_for(name, column) {
                if found.is_some() {
                    return Err(Fault::UnknownName);
                }
                found = Some(number);
            }
        }
        match found {
            None => Err(Fault::UnknownName),
            Some(number) => Ok(number),
        }
    }
}

// Whether a name stands for a column.
fn stands_for(name: &ColumnName, column: &PlacedColumn<'_>) -> bool
    ensures { result ≡ is_named name.now column.now }
{
    match &name.place {
        None => name.name == column.field.name,
        Some(place) => *place == *column.place && name.name == column.field.name,
    }
}
