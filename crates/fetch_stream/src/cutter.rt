//! Cutting a batch into messages.

ghost use Rattle.std.specs.Prelude.{◌≡◌, ◌≤◌, ◌<◌, length, false, IfOk, OnErr};
ghost use Rattle.std.specs.List.{list_any};
ghost use Rattle.scan_base.specs.Limits.{most_columns};
ghost use Rattle.arrays.specs.Batch.{rows_of};
ghost use Rattle.table_versions.specs.Table.{is_long_text};
ghost use Rattle.fetch_stream.specs.inside.RowsAhead.{AnsweredAs, IsCutter};
ghost use Rattle.fetch_stream.specs.inside.BatchCuts.{Cuts};

use crate::message::{WriteContext, batch_parcel};
use crate::parcel::Parcel;
use array_select::MOST_BATCH_ROWS;
use arrays::Batch;
use arrays::laws::batch_slices_keep_rows;
use arrow_types::Schema;
use std::alloc::AllocError;

// A batch that is cut into messages.
pub(crate) struct Cutter {
    pub(crate) batch: Batch,
    // The first row that was not given yet.
    pub(crate) at: usize,
    // How many rows the next message may have: after one that had few, twice as many.
    pub(crate) most: usize,
}

// Written out, so that dropping it is one call (docs/DECISIONS.md).
impl Drop for Cutter {
    fn drop(self) {
        let Cutter {
            batch: _,
            at: _,
            most: _,
        } = self;
    }
}

impl Cutter {
    /// Before the first row of a batch.
    pub(crate) fn new(batch: Batch) -> Cutter
        ensures { result ≡ record { batch = batch; at = 0; most = 65536 } }
    {
        Cutter {
            batch,
            at: 0,
            most: MOST_BATCH_ROWS,
        }
    }

    /// The next rows as a parcel: as many as a message may have. Where the bodies of its payloads
    /// would have too many bytes, it has half as many rows, down to one.
    ///
    /// # Errors
    ///
    /// `AllocError` where memory is refused. The same rows come next.
    pub(crate) fn next(
        &mut self,
        writing: WriteContext,
        schema: &Schema,
    ) -> Result<Parcel, AllocError>
        requires placed { IsCutter self.old }
        requires more { self.old.at < self.old.batch.rows }
        requires few { length self.old.batch.columns ≤ most_columns }
        requires answered { AnsweredAs schema.now self.old.batch.columns }
        ensures cut { IfOk result (λ parcel. Cuts schema.now self.old parcel self.new) }
        ensures kept { OnErr result (self.new ≡ self.old) }
    {
        batch_slices_keep_rows();
        let mut rows = self.most.min(self.batch.rows() - self.at);
        loop {
            let end = self.at + rows;
            let slice = self.batch.slice(writing.alloc, self.at, end)?;
            if let Some(parcel) = batch_parcel(writing, schema, &slice)? {
                self.at = end;
                self.most = (rows * 2).min(MOST_BATCH_ROWS);
                return Ok(parcel);
            }
            rows /= 2;
        }
    }
}
