//! The answer of groups, batch by batch.

ghost use Rattle.std.specs.Prelude.{◌≡◌, ◌≤◌, IfOk, length, map};
ghost use Rattle.scan_base.specs.Limits.{most_rows};
ghost use Rattle.group_slots.specs.Adding.{IsKept, lists_of};
ghost use Rattle.grouping.specs.Answers.{GivesAnswer, HasFirstRows, groups_at};
ghost use Rattle.grouping.specs.FedRows.{HasItems};
ghost use Rattle.grouping.specs.inside.Finishing.{CanAnswer, groups_in};
ghost use Rattle.grouping.specs.inside.Placing.{found_by, place_of};

use crate::batches::GroupRows;
use crate::group_state::GroupState;
use crate::groups::Grouping;
use crate::key::Place;
use array_select::{MOST_BATCH_ROWS, next_most, tried_rows};
use arrays::Batch;
use arrow_types::DataType;
use first_rows::FirstRows;
use group_slots::ItemTallies;
use std::alloc::{AllocError, Global};
use std::marker::Model;
use typed_plan::Aggregate;

/// The answer of groups: the items of each, in order. It holds where the first rows of groups
/// stand, and is given the batches again for each batch of it. A contract sees the groups, and how
/// many of them were answered.
#[derive(Drop)]
pub struct Answers {
    types: Vec<DataType>,
    keys: Vec<usize>,
    items: Vec<Aggregate>,
    firsts: Vec<Place>,
    tallies: Vec<ItemTallies>,
    given: usize,
    // As many groups as the next batch is tried with.
    most: usize,
}

impl Model for Answers {
    ghost use Rattle.std.specs.Prelude.{length};
    ghost use Rattle.group_slots.specs.Adding.{lists_of};
    ghost use Rattle.grouping.specs.Answers.{AnswersAt};
    ghost use Rattle.grouping.specs.inside.Finishing.{IsAnswers};

    ghost Value = { AnswersAt };

    ghost view = { λ a. record {
      types = a.types.items;
      keys = a.keys.items;
      items = a.items.items;
      firsts = a.firsts.items;
      tallies = lists_of a.tallies.items;
      given = a.given;
    } };

    ghost invariant = { λ a. IsAnswers a.types.items a.keys.items a.items.items
        (length a.firsts.items) (lists_of a.tallies.items) a.given };
}

impl Answers {
    /// Of what is kept of groups, of which none was answered.
    ///
    /// # Errors
    ///
    /// `AllocError` where memory is refused.
    pub(crate) fn new(
        alloc: Global,
        shape: &Grouping<'_>,
        kept: GroupState<'_>,
    ) -> Result<Answers, AllocError>
        requires has { HasItems shape.now.types.now shape.now.keys.now shape.now.items.now }
        requires kept { IsKept shape.now.items.now
            (length (found_by shape.now.keys.now kept.firsts.keys)) kept.count
            (lists_of kept.tallies.items) }
        requires few { kept.count ≤ most_rows }
        ensures { IfOk result (λ answers. answers ≡ record {
          types = shape.now.types.now;
          keys = shape.now.keys.now;
          items = shape.now.items.now;
          firsts = map place_of (kept.entry).firsts.keys;
          tallies = lists_of (kept.entry).tallies.items;
          given = 0;
        }) }
    {
        let GroupState {
            firsts,
            tallies,
            ..
        } = kept;
        Ok(Answers {
            types: copied(alloc, shape.types)?,
            keys: copied(alloc, shape.keys)?,
            items: copied(alloc, shape.items)?,
            firsts: places(alloc, &firsts)?,
            tallies,
            given: 0,
            most: MOST_BATCH_ROWS,
        })
    }

    /// The items of the next groups as a batch, where these are the batches whose rows were
    /// grouped: one row or more, no more than 65,536, which has room where it is more than one: no
    /// more than 131,072 cells, and no more than 2 MB of text in all. `None` where no group is
    /// left.
    ///
    /// # Errors
    ///
    /// `AllocError` where memory is refused, or where one text has so many bytes that no offset
    /// names the last: 2 to the 31 or more. The same groups come next.
    pub fn next(&mut self, alloc: Global, batches: &[Batch]) -> Result<Option<Batch>, AllocError>
        requires { HasFirstRows batches.now self.old }
        ensures { GivesAnswer batches.now self.old result self.new }
    {
        let answer = self.shown(batches);
        let left = answer.groups() - self.given;
        if left == 0 {
            return Ok(None);
        }
        let tried = tried_rows(left, self.items.len(), self.most);
        let batch = answer.next(alloc, self.given, tried)?;
        self.given += batch.rows();
        self.most = next_most(self.most, tried, batch.rows());
        Ok(Some(batch))
    }

    // The groups that are answered.
    fn shown<'a>(&'a self, batches: &'a [Batch]) -> GroupRows<'a>
        requires { HasFirstRows batches.now self.now }
        ensures can { CanAnswer result }
        ensures groups { groups_in result ≡ groups_at batches.now self.now }
        ensures few { self.now.given ≤ length (groups_in result).found }
    {
        GroupRows {
            batches,
            types: self.types.as_slice(),
            keys: self.keys.as_slice(),
            items: self.items.as_slice(),
            firsts: self.firsts.as_slice(),
            tallies: self.tallies.as_slice(),
        }
    }
}

// The elements of a list.
fn copied<T: Copy>(alloc: Global, elements: &[T]) -> Result<Vec<T>, AllocError>
    ensures { IfOk result (λ copy. copy.items ≡ elements.now) }
{
    let mut copy = Vec::with_capacity(alloc, elements.len())?;
    copy.extend_from_slice(elements)?;
    Ok(copy)
}

// Where first rows stand.
fn places(alloc: Global, firsts: &FirstRows<'_>) -> Result<Vec<Place>, AllocError>
    ensures { IfOk result (λ places. places.items ≡ map place_of firsts.now.keys) }
{
    let mut places = Vec::with_capacity(alloc, firsts.len())?;
    for place in 0..firsts.len() {
        let first = firsts.get(place);
        places.push(Place {
            batch: first.number,
            row: first.row,
        })?;
    }
    Ok(places)
}
