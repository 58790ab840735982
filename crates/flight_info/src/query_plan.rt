//! What a query's text asks of a version.

ghost use Rattle.std.specs.Prelude.{◌≢◌, length, nat_le, IfOk, IfErr};
ghost use Rattle.scan_base.specs.declared.fault.Fault.TheVariants.{LimitReached, OutOfMemory};
ghost use Rattle.scan_base.specs.Reading.{RefusesFirst, demand};
ghost use Rattle.scan_base.specs.Limits.{most_query_bytes};
ghost use Rattle.table_versions.specs.StoredTables.{tables_of};
ghost use Rattle.typed_plan.specs.HeldTables.{HoldsFrom};
ghost use Rattle.typed_plan.specs.View.{plan_of};
ghost use Rattle.flight_proto.specs.InfoCommand.{rows_of};
ghost use Rattle.flight_info.specs.QueryMeaning.{Misses};
ghost use Rattle.flight_info.specs.QueryPlan.{IsPlanned};

use query_binder::bind;
use scan_base::Fault;
use sql_parse::parse;
use std::alloc::Global;
use table_versions::CatalogVersion;
use typed_plan::TypedPlan;

/// The plan of a query, how many rows its first place has, and whether the query makes groups.
#[derive(Drop)]
pub struct QueryPlan {
    pub plan: TypedPlan,
    pub rows: usize,
    pub grouped: bool,
}

/// Parses and binds a query's text at a version of the catalog.
///
/// # Errors
///
/// The faults of [`parse`], and then those of [`bind`].
pub fn plan_text(alloc: Global, catalog: &CatalogVersion, text: &str) -> Result<QueryPlan, Fault>
    ensures planned { IfOk result (λ planned. IsPlanned (tables_of catalog.now) text.now
        (plan_of planned.plan) planned.rows planned.grouped) }
    ensures missed { IfErr result (λ fault. fault ≢ OutOfMemory →
        Misses (tables_of catalog.now) (rows_of text.now) fault) }
    ensures first { RefusesFirst result
        (demand (nat_le (length text.now) most_query_bytes) LimitReached) }
    ensures held { IfOk result (λ planned. HoldsFrom catalog.now planned.plan) }
{
    let query = parse(alloc, text)?;
    let plan = bind(alloc, &query, catalog)?;
    let rows = plan.tables()[0].rows();
    let grouped = query.is_grouped();
    Ok(QueryPlan {
        plan,
        rows,
        grouped,
    })
}
