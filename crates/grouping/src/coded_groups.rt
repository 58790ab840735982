//! Groups of rows by the codes of their keys.

ghost use Rattle.std.specs.Prelude.{◌≡◌, ◌<◌, All, IfOk, IfSome, IsTrue, OnOk, get_or, length, map};
ghost use Rattle.std.specs.Prelude.{nat_lt};
ghost use Rattle.std.specs.List.{list_all};
ghost use Rattle.indexmap.specs.IndexSet.{insert_key};
ghost use Rattle.arrays.specs.Batch.{row_of};
ghost use Rattle.first_rows.specs.Firsts.{FitSeen};
ghost use Rattle.grouping.specs.FoundKeys.{found_then, place_in};
ghost use Rattle.grouping.specs.inside.Knowing.{StayKnown};
ghost use Rattle.grouping.specs.inside.Placing.{found_by, ArePlaced, FirstsStay};
ghost use Rattle.grouping.specs.inside.Seeing.{AreSeenOf};
ghost use Rattle.first_rows.specs.RowKeys.{key_of, same_first};

use crate::known_keys::short;
use crate::table::{ChosenRows, groups_one_by_one};
use coded_keys::{KeyRows, SeenNumbers, SeenRows};
use first_rows::{FirstRows, RowKey};
use std::alloc::{AllocError, Global};

/// The group of each of these rows, by the first rows of the groups; without columns there is one
/// group, also of no rows. A long text of a dictionary that was seen in the batch is not looked at.
///
/// # Errors
///
/// `AllocError` where memory is refused.
pub(crate) fn place_by_codes<'t>(
    alloc: Global,
    firsts: &mut FirstRows<'t>,
    seen: &mut SeenNumbers,
    chosen: &ChosenRows<'t, '_>,
) -> Result<Vec<u32>, AllocError>
    requires there { IsTrue (list_all
        (λ column. nat_lt column (length chosen.now.batch.now.columns)) chosen.now.columns.now) }
    requires within { All (λ row. row < chosen.now.batch.now.rows) chosen.now.rows.now }
    requires seen { AreSeenOf firsts.old.texts chosen.now.batch.now
        chosen.now.columns.now seen.old }
    ensures found { OnOk result (found_by chosen.now.columns.now firsts.new.keys
        ≡ found_then chosen.now.columns.now (found_by chosen.now.columns.now firsts.old.keys)
        (map (row_of chosen.now.batch.now.columns) chosen.now.rows.now)) }
    ensures placed { IfOk result (λ groups. ArePlaced chosen.now.columns.now
        chosen.now.batch.now.columns (found_by chosen.now.columns.now firsts.new.keys)
        chosen.now.rows.now groups.items (length chosen.now.rows.now)) }
    ensures firsts { OnOk result (FirstsStay chosen.now firsts.old.keys firsts.new.keys) }
    ensures stay { OnOk result
        (StayKnown (map key_of firsts.old.keys) (map key_of firsts.new.keys)) }
    ensures seen { OnOk result
        (AreSeenOf firsts.new.texts chosen.now.batch.now chosen.now.columns.now seen.new) }
{
    if chosen.columns.is_empty() {
        let mut groups = Vec::new(alloc);
        groups.resize(chosen.rows.len(), 0u32)?;
        return Ok(groups);
    }
    groups_by_codes(alloc, firsts, seen, chosen)
}

/// The group of each of these rows, by the first rows, where no text was seen in their batch.
///
/// # Errors
///
/// `AllocError` where memory is refused.
pub(crate) fn groups_unseen<'t>(
    alloc: Global,
    firsts: &mut FirstRows<'t>,
    chosen: &ChosenRows<'t, '_>,
) -> Result<Vec<u32>, AllocError>
    requires there { IsTrue (list_all
        (λ column. nat_lt column (length chosen.now.batch.now.columns)) chosen.now.columns.now) }
    requires within { All (λ row. row < chosen.now.batch.now.rows) chosen.now.rows.now }
    ensures found { OnOk result (map key_of firsts.new.keys
        ≡ found_then chosen.now.columns.now (map key_of firsts.old.keys)
        (map (row_of chosen.now.batch.now.columns) chosen.now.rows.now)) }
    ensures placed { IfOk result
        (λ groups. ArePlaced chosen.now.columns.now chosen.now.batch.now.columns (map key_of
        firsts.new.keys) chosen.now.rows.now groups.items (length chosen.now.rows.now)) }
    ensures firsts { OnOk result (FirstsStay chosen.now firsts.old.keys firsts.new.keys) }
{
    let mut seen = SeenNumbers::new(alloc, firsts.seed(), chosen.columns.len());
    groups_by_codes(alloc, firsts, &mut seen, chosen)
}

// The group of each of these rows, by the first rows. Where a column of the key has indices into a
// dictionary, a row with the codes of an earlier one has its group, and no text is looked at again.
fn groups_by_codes<'t>(
    alloc: Global,
    firsts: &mut FirstRows<'t>,
    numbers: &mut SeenNumbers,
    chosen: &ChosenRows<'t, '_>,
) -> Result<Vec<u32>, AllocError>
    requires there { IsTrue (list_all
        (λ column. nat_lt column (length chosen.now.batch.now.columns)) chosen.now.columns.now) }
    requires within { All (λ row. row < chosen.now.batch.now.rows) chosen.now.rows.now }
    requires seen { AreSeenOf firsts.old.texts chosen.now.batch.now chosen.now.columns.now
        numbers.old }
    ensures found { OnOk result (map key_of firsts.new.keys
        ≡ found_then chosen.now.columns.now (map key_of firsts.old.keys)
        (map (row_of chosen.now.batch.now.columns) chosen.now.rows.now)) }
    ensures placed { IfOk result
        (λ groups. ArePlaced chosen.now.columns.now chosen.now.batch.now.columns (map key_of
        firsts.new.keys) chosen.now.rows.now groups.items (length chosen.now.rows.now)) }
    ensures firsts { OnOk result (FirstsStay chosen.now firsts.old.keys firsts.new.keys) }
    ensures seen { OnOk result
        (AreSeenOf firsts.new.texts chosen.now.batch.now chosen.now.columns.now numbers.new) }
{
    let keys = KeyRows {
        batch: chosen.batch,
        columns: chosen.columns,
        rows: chosen.rows,
    };
    if !keys.has_codes() {
        numbers.forget();
        return groups_one_by_one(alloc, firsts, chosen);
    }
    let mut seen = SeenRows::new(alloc, firsts.seed(), chosen.rows.len())?;
    let mut groups = Vec::with_capacity(alloc, chosen.rows.len())?;
    for place in 0..chosen.rows.len() {
        let first = RowKey {
            number: chosen.number,
            batch: chosen.batch,
            columns: chosen.columns,
            row: chosen.rows[place],
        };
        let earlier = seen.earlier(&keys, place);
        let known = told(groups.as_slice(), earlier);
        groups.push(coded_group(firsts, numbers, known, first)?)?;
    }
    Ok(groups)
}

// The group of an earlier row, where it is known.
fn told(groups: &[u32], earlier: usize) -> Option<u32>
    ensures { IfSome result
        (λ group. (earlier < length groups.now) × (group ≡ get_or groups.now earlier 0)) }
{
    if earlier < groups.len() {
        Some(groups[earlier])
    } else {
        None
    }
}

// The group of a row: that of an earlier one, which has its key, or else by the first rows.
fn coded_group<'t>(
    firsts: &mut FirstRows<'t>,
    seen: &mut SeenNumbers,
    told: Option<u32>,
    first: RowKey<'t>,
) -> Result<u32, AllocError>
    requires told { IfSome told
        (λ group. (group ≡ place_in (map key_of firsts.old.keys) (key_of first))
        × (group < length (map key_of firsts.old.keys))) }
    requires seen { FitSeen firsts.old.texts first seen.old }
    ensures inserted { OnOk result
        (firsts.new.keys ≡ insert_key same_first firsts.old.keys first.entry) }
    ensures place { IfOk result
        (λ group. group ≡ place_in (map key_of firsts.old.keys) (key_of first.entry)) }
    ensures seen { FitSeen firsts.new.texts first.entry seen.new }
{
    if let Some(group) = told {
        return Ok(group);
    }
    short(firsts.insert_seen(seen, first)?)
}
