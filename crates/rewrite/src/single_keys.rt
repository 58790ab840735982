//! Keys of an ON that come more than once.

ghost use Rattle.std.specs.Prelude.{◌≡◌, IfOk, OnOk};
ghost use Rattle.std.specs.List.{list_any};
ghost use Rattle.rewrite.specs.SameRows.{StandsFor};
ghost use Rattle.rewrite.specs.SingleKeys.{same_columns, with_key, single_keys, single_tree};
ghost use Rattle.typed_plan.specs.View.{tree_of};

use scan_base::Items;
use std::alloc::{AllocError, Global};
use typed_plan::{JoinKey, Plan, TypedPlan};

fn has_key(keys: &[JoinKey], key: JoinKey) -> bool
    ensures { result ≡ list_any (same_columns key) keys.now }
{
    for other in keys {
        if key.left == other.left && key.right == other.right {
            return true;
        }
    }
    false
}

// Adds a key, unless it is among these.
fn add_key(keys: &mut Items<JoinKey>, key: JoinKey) -> Result<(), AllocError>
    ensures { OnOk result (keys.new ≡ with_key keys.old key) }
{
    if has_key(keys.as_slice(), key) {
        return Ok(());
    }
    keys.push(key)
}

// The keys, each once.
fn single(alloc: Global, on: &[JoinKey]) -> Result<Items<JoinKey>, AllocError>
    ensures { IfOk result (λ keys. keys ≡ single_keys on.now) }
{
    let mut keys = Items::new(alloc);
    for key in on {
        add_key(&mut keys, *key)?;
    }
    Ok(keys)
}

// Leaves each key of each ON of a tree once.
fn single_in(alloc: Global, plan: &mut Plan) -> Result<(), AllocError>
    ensures { OnOk result (tree_of plan.new ≡ single_tree (tree_of plan.old)) }
{
    match plan {
        Plan::Scan { .. } => Ok(()),
        Plan::Filter {
            predicate: _,
            input,
        } => single_in(alloc, input),
        Plan::Join { left, right, on } => {
            let keys = single(alloc, on.as_slice())?;
            *on = keys;
            single_in(alloc, left)?;
            single_in(alloc, right)
        }
    }
}

/// The plan in which each key of an ON stands once. It gives the same rows.
///
/// # Errors
///
/// `AllocError` where memory is refused.
pub fn merge_keys(alloc: Global, plan: TypedPlan) -> Result<TypedPlan, AllocError>
    ensures same { IfOk result (λ made. StandsFor made plan) }
    ensures tree { IfOk result (λ made. tree_of made.plan ≡ single_tree (tree_of plan.plan)) }
{
    let (tables, mut plan, output, schema) = plan.into_parts();
    single_in(alloc, &mut plan)?;
    Ok(TypedPlan::new(tables, plan, output, schema))
}
