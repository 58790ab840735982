//! What gives joined rows.

ghost use Rattle.std.specs.Prelude.{◌≡◌, ◌≤◌, [], ◌++◌, IfOk, length, map, OnOk};
ghost use Rattle.arrow_types.specs.Answer.{copied_type};
ghost use Rattle.join_batches.specs.Joiner.{joined_types};
ghost use Rattle.scan_base.specs.Limits.{most_rows};
ghost use Rattle.row_sources.specs.JoinParts.{CanJoin, JoinsRows, HasKeys, AreJoinInputs};
ghost use Rattle.row_sources.specs.JoinParts.{all_joined};
ghost use Rattle.row_sources.specs.JoinParts.{joiner_with};
ghost use Rattle.row_sources.specs.FilteredSource.{IsFilteredSource, filtered_source_at};
ghost use Rattle.row_sources.specs.CollectedRows.{plain_rows};
ghost use Rattle.row_sources.specs.JoinedRows.{IsJoined};

use crate::build::FilteredSource;
use crate::collected_rows::collect_watched;
use crate::columns::numbers_below;
use crate::rows::{JoinState, Source};
use arrow_types::DataType;
use join_batches::{JoinSide, JoinSides, Joiner, SeededSides};
use scan_base::HashSeed;
use std::alloc::{AllocError, Global};
use typed_plan::JoinKey;
use work_watch::Watches;

// What gives the rows of both sides of a join.
#[derive(Drop)]
pub(crate) struct JoinInput {
    pub(crate) left: FilteredSource,
    pub(crate) right: FilteredSource,
}

// What gives the joined rows of both sides that fit. The right ones are read here, watched.
pub(crate) fn join_source<W: Watches>(
    alloc: Global,
    seed: HashSeed,
    sides: JoinInput,
    on: &[JoinKey],
    watch: &mut W,
) -> Result<FilteredSource, AllocError>
    requires left { IsFilteredSource sides.left }
    requires right { IsFilteredSource sides.right }
    requires joinable { CanJoin on.now (filtered_source_at sides.left)
        (filtered_source_at sides.right) }
    requires ready { W.ready watch.old }
    ensures sourced { IfOk result IsFilteredSource }
    ensures joins { IfOk result (λ made. JoinsRows on.now (filtered_source_at sides.left)
        (filtered_source_at sides.right) (filtered_source_at made)) }
    ensures ready { OnOk result (W.ready watch.new) }
    ensures watched { W.watched watch.old watch.new }
{
    let JoinInput { left, right } = sides;
    let types = copied_types(alloc, left.types.as_slice(), right.types.as_slice())?;
    let sides = join_sides(alloc, left.types.as_slice(), right.types.as_slice(), on)?;
    let joiner = joiner_of(alloc, SeededSides { sides, seed }, right, watch)?;
    joined(alloc, left, joiner, types)
}

// The types of joined rows: those of dictionaries are texts.
fn copied_types(
    alloc: Global,
    left: &[DataType],
    right: &[DataType],
) -> Result<Vec<DataType>, AllocError>
    ensures { IfOk result (λ types. types.items ≡ map copied_type (left.now ++ right.now)) }
{
    left.iter()
        .chain(right.iter())
        .map(|data_type| data_type.copied())
        .collect(alloc)
}

// The types of both sides of a join, and the numbers of their columns that are the key.
fn join_sides(
    alloc: Global,
    left: &[DataType],
    right: &[DataType],
    on: &[JoinKey],
) -> Result<JoinSides, AllocError>
    ensures { IfOk result (λ sides. AreJoinInputs on.now left.now right.now sides) }
{
    let seam = left.len();
    let left = JoinSide {
        types: left.iter().copied().collect(alloc)?,
        key: on.iter().map(|key| key.left).collect(alloc)?,
    };
    let right = JoinSide {
        types: right.iter().copied().collect(alloc)?,
        key: on
            .iter()
            .map(|key| key.right.saturating_sub(seam))
            .collect(alloc)?,
    };
    Ok(JoinSides { left, right })
}

// The join with all rows of the right side, which are read and hashed here, watched.
fn joiner_of<W: Watches>(
    alloc: Global,
    seeded: SeededSides,
    right: FilteredSource,
    watch: &mut W,
) -> Result<Joiner, AllocError>
    requires right { IsFilteredSource right }
    requires unopened { (filtered_source_at right).opened ≡ [] }
    requires few { length (filtered_source_at right).ahead ≤ most_rows }
    requires typed { seeded.sides.right.types.items ≡ (filtered_source_at right).types }
    requires keys { HasKeys seeded.sides }
    requires ready { W.ready watch.old }
    ensures joiner { IfOk result
        (λ joiner. joiner
        ≡ joiner_with seeded.sides (plain_rows (filtered_source_at right).ahead)) }
    ensures ready { OnOk result (W.ready watch.new) }
    ensures watched { W.watched watch.old watch.new }
{
    let mut rows = right.rows(alloc)?;
    let batches = collect_watched(alloc, &mut rows, watch)?;
    Joiner::new(alloc, seeded, batches, watch)
}

// What gives the joined rows of left ones, in columns of these types.
fn joined(
    alloc: Global,
    left: FilteredSource,
    joiner: Joiner,
    types: Vec<DataType>,
) -> Result<FilteredSource, AllocError>
    requires left { IsFilteredSource left }
    requires joined { IsJoined (filtered_source_at left) joiner 0 }
    requires types { types.items ≡ joined_types joiner }
    ensures sourced { IfOk result IsFilteredSource }
    ensures joined { IfOk result (λ made. filtered_source_at made
        ≡ all_joined (filtered_source_at left) joiner) }
{
    let columns = numbers_below(alloc, types.len())?;
    let left = Box::new(alloc, left.rows(alloc)?)?;
    Ok(FilteredSource {
        source: Source::Joined(left, JoinState { joiner, number: 0 }),
        filters: Vec::new(alloc),
        columns,
        types,
    })
}
