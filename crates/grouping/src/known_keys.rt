//! Keys that were found before, each by one number.

ghost use Rattle.std.specs.Prelude.{◌≡◌, ◌≤◌, ◌<◌, ◌==◌, ◌&&◌, ◌∷◌, [], not, length, map, nat_lt};
ghost use Rattle.std.specs.Prelude.{All, OnOk, IfOk, IfSome, IsTrue};
ghost use Rattle.std.specs.List.{list_all};
ghost use Rattle.indexmap.specs.IndexSet.{insert_key};
ghost use Rattle.grouping.specs.FoundKeys.{place_in};
ghost use Rattle.first_rows.specs.RowKeys.{key_of, same_first};
ghost use Rattle.grouping.specs.inside.Knowing.{AreKnown, AreNothing, AreTagged, GoOn};
ghost use Rattle.grouping.specs.inside.Knowing.{IsKnownGroup};

use crate::table::{ChosenRows, group_of};
use first_rows::{FirstRows, RowKey};
use group_slots::{NOTHING, Tag, Tags};
use scan_base::HashSeed;
use std::alloc::AllocError;
use std::hash::{BuildHasher, Hasher};

/// The tag of a key, and the place of its group; none where the kind is `NOTHING`.
#[derive(Clone, Copy, Drop)]
pub(crate) struct KnownKey {
    pub(crate) key: u64,
    pub(crate) kind: u32,
    pub(crate) group: u32,
}

impl KnownKey {
    ghost use Rattle.grouping.specs.inside.Knowing.{nothing};

    /// Of no key.
    pub(crate) fn nothing() -> KnownKey
        ensures { result ≡ nothing }
    {
        KnownKey {
            key: 0,
            kind: NOTHING,
            group: 0,
        }
    }

    // Whether it is of the key of a tag.
    fn is_of(self, tag: Tag) -> bool
        ensures { result
            ≡ (not (tag.kind == 0) && ((self.kind == tag.kind) && (self.key == tag.key))) }
    {
        tag.kind != NOTHING && self.kind == tag.kind && self.key == tag.key
    }
}

/// Entries of no key, so many.
///
/// # Errors
///
/// `AllocError` where memory is refused.
pub(crate) fn know_nothing(known: &mut Vec<KnownKey>, wanted: usize) -> Result<(), AllocError>
    ensures { OnOk result (AreNothing wanted known.new.items) }
{
    known.clear();
    known.resize(wanted, KnownKey::nothing())
}

/// How many keys may be known of so many groups and rows. They are many more than the groups, since
/// two keys that have one place take it from each other.
pub(crate) fn known_count(found: usize, rows: usize) -> usize
    ensures { 0 < result }
{
    if found <= 64 && rows <= 1_024 {
        256
    } else if found <= 64 {
        1_024
    } else if found <= 1_024 {
        16_384
    } else if found <= 16_384 {
        131_072
    } else if found <= 262_144 {
        262_144
    } else {
        1_048_576
    }
}

/// By which number keys are spread: those that follow each other have places apart.
pub(crate) const SPREAD: u64 = 0x9E37_79B9_7F4A_7C15;

/// By which number the indices of so many entries of a dictionary are spread over so many places, a
/// power of two. Each has a place of its own where there are enough. Else a secret spreads them, so
/// that no client can choose two that share a place: the text of each would be looked at for each
/// of their rows.
pub(crate) fn index_spread(entries: usize, places: usize, seed: HashSeed) -> u64 {
    if entries <= places {
        let mask = places.saturating_sub(1) as u64;
        return 1_u64.wrapping_shl(mask.leading_zeros());
    }
    seed.build_hasher().finish() | 1
}

/// How many indices may be known of so many rows, where a dictionary has so many entries.
pub(crate) fn index_count(entries: usize, rows: usize) -> usize
    ensures { 0 < result }
{
    let most = entries.min(rows);
    if most <= 64 {
        256
    } else if most <= 1_024 {
        4_096
    } else if most <= 8_192 {
        16_384
    } else {
        32_768
    }
}

// The place of a tag among so many entries, a power of two of them or any other number. No contract
// rests on it.
fn place_of(tag: Tag, entries: usize, spread: u64) -> usize
    requires { 0 < entries }
    ensures { result < entries }
{
    let mask = entries - 1;
    let product = (tag.key ^ tag.kind as u64).wrapping_mul(spread);
    product.wrapping_shr((mask as u64).leading_zeros()) as usize & mask
}

/// The group of a row, whose key has this tag: by what is known, or else by the first rows. It is
/// opened where the row's key is new, and known then.
///
/// # Errors
///
/// `AllocError` where memory is refused.
pub(crate) fn known_group<'t, T: Tags>(
    firsts: &mut FirstRows<'t>,
    known: &mut [KnownKey],
    tags: &T,
    first: RowKey<'t>,
    spread: u64,
) -> Result<u32, AllocError>
    requires some { 0 < length known.old }
    requires there { first.row < T.count tags.now }
    requires tagged { key_of first ≡ T.value tags.now first.row ∷ [] }
    requires known { AreKnown (T.meaning tags.now) (map key_of firsts.old.keys) known.old }
    ensures inserted { OnOk result
        (firsts.new.keys ≡ insert_key same_first firsts.old.keys first.entry) }
    ensures place { IfOk result
        (λ group. group ≡ place_in (map key_of firsts.old.keys) (key_of first.entry)) }
    ensures known { OnOk result
        (AreKnown (T.meaning tags.now) (map key_of firsts.new.keys) known.new) }
    ensures long { OnOk result (length known.new ≡ length known.old) }
{
    let tag = tags.tag(first.row as usize);
    let at = place_of(tag, known.len(), spread);
    let entry = known[at];
    if entry.is_of(tag) {
        return Ok(entry.group);
    }
    let group = short_group(firsts, first)?;
    known[at] = KnownKey {
        key: tag.key,
        kind: tag.kind,
        group,
    };
    Ok(group)
}

// The group of a row, whose key has this tag, where it is known.
fn told_group<T: Tags>(known: &[KnownKey], tags: &T, first: RowKey<'_>, spread: u64) -> Option<u32>
    requires some { 0 < length known.now }
    requires there { first.row < T.count tags.now }
    requires tagged { key_of first ≡ T.value tags.now first.row ∷ [] }
    ensures { IfSome result (IsKnownGroup (T.meaning tags.now) known.now first.entry) }
{
    let tag = tags.tag(first.row as usize);
    let at = place_of(tag, known.len(), spread);
    let entry = known[at];
    if entry.is_of(tag) {
        Some(entry.group)
    } else {
        None
    }
}

/// Adds the groups of the next rows whose keys are known, until one is not. Here no set is at hand,
/// so that the loop is short.
///
/// # Errors
///
/// `AllocError` where memory is refused.
pub(crate) fn push_known<T: Tags>(
    known: &[KnownKey],
    tags: &T,
    chosen: &ChosenRows<'_, '_>,
    groups: &mut Vec<u32>,
) -> Result<(), AllocError>
    requires some { 0 < length known.now }
    requires there { IsTrue (list_all
        (λ column. nat_lt column (length chosen.now.batch.now.columns)) chosen.now.columns.now) }
    requires within { All (λ row. row < chosen.now.batch.now.rows) chosen.now.rows.now }
    requires tagged { AreTagged (T.count tags.now)
        (T.value tags.now) chosen.now.columns.now chosen.now.batch.now }
    requires few { length groups.old.items ≤ length chosen.now.rows.now }
    ensures more { OnOk result (length groups.old.items ≤ length groups.new.items) }
    ensures few { OnOk result (length groups.new.items ≤ length chosen.now.rows.now) }
    ensures found { OnOk result
        (GoOn (T.meaning tags.now) known.now chosen.now groups.old.items groups.new.items) }
{
    for k in groups.len()..chosen.rows.len() {
        let first = RowKey {
            number: chosen.number,
            batch: chosen.batch,
            columns: chosen.columns,
            row: chosen.rows[k],
        };
        match told_group(known, tags, first, chosen.spread) {
            Some(group) => groups.push(group)?,
            None => return Ok(()),
        }
    }
    Ok(())
}

/// The group of a row, by the first rows. It is opened where the row's key is new.
///
/// # Errors
///
/// `AllocError` where memory is refused, or 32 bits do not name the group.
#[inline(never)]
pub(crate) fn short_group<'t>(
    firsts: &mut FirstRows<'t>,
    first: RowKey<'t>,
) -> Result<u32, AllocError>
    ensures inserted { OnOk result
        (firsts.new.keys ≡ insert_key same_first firsts.old.keys first.entry) }
    ensures place { IfOk result
        (λ group. group ≡ place_in (map key_of firsts.old.keys) (key_of first.entry)) }
{
    let group = group_of(firsts, first)?;
    short(group)
}

/// A group as a number of 32 bits.
///
/// # Errors
///
/// `AllocError` where 32 bits do not name it.
pub(crate) fn short(group: usize) -> Result<u32, AllocError>
    ensures { IfOk result (λ number. number ≡ group) }
{
    match u32::try_from(group) {
        Ok(group) => Ok(group),
        Err(_) => Err(AllocError),
    }
}
