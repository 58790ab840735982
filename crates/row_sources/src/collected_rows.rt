//! All rows that are still to be given, at once.

ghost use Rattle.std.specs.Prelude.{◌≡◌, IfOk, length, take, OnOk};
ghost use Rattle.row_sources.specs.CollectedRows.{AreCollected};
ghost use Rattle.row_sources.specs.Running.{GoesOn};

use crate::rows::Rows;
use crate::turn::{Turn, TurnContext, watched_patience};
use arrays::Batch;
use std::alloc::{AllocError, Global};
use work_watch::{Watches, tell};

/// All rows that are still to be given, batch by batch. After each batch, and each turn that gives
/// none, who watches may end it.
///
/// # Errors
///
/// `AllocError` where memory is refused, or who watches ends it.
pub fn collect_watched<W: Watches>(
    alloc: Global,
    rows: &mut Rows,
    watch: &mut W,
) -> Result<Vec<Batch>, AllocError>
    requires front { take (length rows.old.opened) rows.old.batches ≡ rows.old.opened }
    requires ready { W.ready watch.old }
    ensures on { GoesOn rows.old rows.new }
    ensures collected { IfOk result (λ batches. AreCollected rows.old batches.items rows.new) }
    ensures ready { OnOk result (W.ready watch.new) }
    ensures watched { W.watched watch.old watch.new }
{
    let mut batches = Vec::new(alloc);
    loop {
        let patience = watched_patience();
        let mut looking = TurnContext { alloc, patience };
        match rows.turn(&mut looking)? {
            Turn::Given(piece) => {
                batches.push(piece.batch)?;
                tell(watch, looking.looked())?;
            }
            Turn::Working => {
                tell(watch, looking.looked())?;
            }
            Turn::End => return Ok(batches),
        }
    }
}
