//! Cutting a batch into messages.

ghost use Rattle.std.specs.Prelude.{◌≡◌, ◌≤◌, ◌<◌, ◌+◌, ◌^◌, IfNone, IfOk, IfSome, MatchResult};
ghost use Rattle.arrays.specs.Batch.{cut_batch};
ghost use Rattle.arrays.specs.TypedLayouts.{AreOfTypes};
ghost use Rattle.dictionary_answers.specs.Lengths.{dressed_length};
ghost use Rattle.row_stream.specs.inside.Cuts.{IsCut, IsUncut};

use crate::dresser::Dresser;
use crate::message::{Parcel, batch_parcel};
use arrays::Batch;
use scan_base::Fault;
use std::alloc::AllocError;

// The most bytes of the bodies of two rows or more and of their dictionaries.
const MOST_BODY_BYTES: usize = 8_388_608;

// The most bytes of the bodies of one row and of its dictionaries.
const MOST_ROW_BYTES: usize = (1 << 31) - 1;

/// The messages of some rows of a batch, and where these end.
#[derive(Drop)]
pub(crate) struct CutMessages {
    pub parcel: Parcel,
    pub end: usize,
}

/// The messages of the rows of a batch from `at` on, of as many as a message may have.
///
/// # Errors
///
/// `Fault::OutOfMemory` where memory is refused, and `Fault::LimitReached` where the bodies of one
/// row have 2 to the 31 bytes or more.
pub(crate) fn some_cut(
    dresser: &Dresser,
    batch: &Batch,
    at: usize,
    most: usize,
) -> Result<CutMessages, Fault>
    requires typed { AreOfTypes dresser.now.fields batch.now.columns }
    requires more { at < batch.now.rows }
    requires some { 0 < most }
    requires few { most ≤ 65536 }
    ensures { MatchResult result (IsCut dresser.now batch.now at most)
        (IsUncut dresser.now batch.now) }
{
    match next_cut(dresser, batch, at, most)? {
        Some(cut) => Ok(cut),
        None => Err(Fault::LimitReached),
    }
}

// The messages of the rows of a batch from `at` on: of as many as a message may have, or of all
// that are left. Where their bodies would have too many bytes, they are of half as many rows, down
// to one. Nothing where those of one row have 2 to the 31 bytes or more.
fn next_cut(
    dresser: &Dresser,
    batch: &Batch,
    at: usize,
    most: usize,
) -> Result<Option<CutMessages>, AllocError>
    requires typed { AreOfTypes dresser.now.fields batch.now.columns }
    requires more { at < batch.now.rows }
    requires some { 0 < most }
    requires few { most ≤ 65536 }
    ensures cut { IfOk result (λ found. IfSome found (IsCut dresser.now batch.now at most)) }
    ensures long { IfOk result (λ found. IfNone found
        (2 ^ 31 ≤ dressed_length dresser.now.fields (cut_batch batch.now at (at + 1)).columns)) }
{
    let mut rows = most.min(batch.rows() - at);
    while rows > 1 {
        let end = at + rows;
        let slice = batch.slice(dresser.alloc, at, end)?;
        if let Some(parcel) = batch_parcel(dresser, &slice, MOST_BODY_BYTES)? {
            return Ok(Some(CutMessages { parcel, end }));
        }
        rows /= 2;
    }
    row_cut(dresser, batch, at)
}

// The messages of one row of a batch.
fn row_cut(dresser: &Dresser, batch: &Batch, at: usize) -> Result<Option<CutMessages>, AllocError>
    requires typed { AreOfTypes dresser.now.fields batch.now.columns }
    requires more { at < batch.now.rows }
    ensures cut { IfOk result (λ found. IfSome found (IsCut dresser.now batch.now at 1)) }
    ensures long { IfOk result (λ found. IfNone found
        (2 ^ 31 ≤ dressed_length dresser.now.fields (cut_batch batch.now at (at + 1)).columns)) }
{
    let _rows = batch.rows();
    let end = at + 1;
    let slice = batch.slice(dresser.alloc, at, end)?;
    match batch_parcel(dresser, &slice, MOST_ROW_BYTES)? {
        Some(parcel) => Ok(Some(CutMessages { parcel, end })),
        None => Ok(None),
    }
}
