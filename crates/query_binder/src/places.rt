//! The tables of a query's places.

ghost use Rattle.std.specs.Prelude.{◌≡◌, [], Some, map};
ghost use Rattle.std.specs.List.{list_any};
ghost use Rattle.std.specs.Str.{bytes_eq};
ghost use Rattle.table_versions.specs.Database.{table_at};
ghost use Rattle.table_versions.specs.StoredTables.{tables_of};
ghost use Rattle.query_binder.specs.NameRules.{place_fault, places_fault};
ghost use Rattle.typed_plan.specs.Faults.{fault_in};
ghost use Rattle.query_binder.specs.Outcome.{Binds, Finds};
ghost use Rattle.query_binder.specs.PlaceTables.{AreTablesOf, names_of, places_of};

use scan_base::{Fault, Text};
use sql_query::{Join, Place, Query};
use std::alloc::Global;
use table_versions::{CatalogVersion, TableVersion};

// Whether each further place has a table, and goes by a name that no earlier one has. It takes no
// memory.
pub(crate) fn check_joins(query: &Query, catalog: &CatalogVersion) -> Result<(), Fault>
    ensures { fault_in result ≡ places_fault (tables_of catalog.now) (names_of query.now.first [])
        (map (λ join. join.place) query.now.joins) }
{
    let joins = query.joins.as_slice();
    for (number, join) in joins.iter().enumerate() {
        place_table(catalog, &query.first, &joins[..number], &join.place)?;
    }
    Ok(())
}

// The tables of the places, in order, of which the first is known.
pub(crate) fn place_tables(
    alloc: Global,
    query: &Query,
    catalog: &CatalogVersion,
    first: &TableVersion,
) -> Result<Vec<TableVersion>, Fault>
    requires { table_at catalog.now query.now.first.table ≡ Some first.now }
    ensures { Binds (places_fault (tables_of catalog.now) []
        (places_of query.now.first query.now.joins))
        (λ tables. AreTablesOf catalog.now (places_of query.now.first query.now.joins) tables.items)
        result }
{
    let mut tables = Vec::new(alloc);
    tables.push(first.share()?)?;
    let joins = query.joins.as_slice();
    for (number, join) in joins.iter().enumerate() {
        let table = place_table(catalog, &query.first, &joins[..number], &join.place)?;
        tables.push(table.share()?)?;
    }
    Ok(tables)
}

// The table of a place, after the first place and those of these joins.
fn place_table<'c>(
    catalog: &'c CatalogVersion,
    first: &Place,
    joins: &[Join],
    place: &Place,
) -> Result<&'c TableVersion, Fault>
    ensures { Finds (place_fault (tables_of catalog.now) (names_of first.now joins.now) place.now)
        (λ table. table_at catalog.now place.now.table ≡ Some table.now) result }
{
    let Some(table) = catalog.get(&place.table) else {
        return Err(Fault::TableMissing);
    };
    if is_taken(first, joins, place.name()) {
        return Err(Fault::UnknownName);
    }
    Ok(table)
}

// Whether an earlier place goes by the name.
fn is_taken(first: &Place, joins: &[Join], name: &Text) -> bool
    ensures { result ≡ list_any (bytes_eq name.now) (names_of first.now joins.now) }
{
    if *name == *first.name() {
        return true;
    }
    for join in joins {
        if *name == *join.place.name() {
            return true;
        }
    }
    false
}
