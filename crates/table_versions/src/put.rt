//! What a client puts: batches for a table.

ghost use Rattle.std.specs.Prelude.{◌≡◌, ◌^◌, ◌-◌, All, length, min};
ghost use Rattle.arrow_types.specs.Schema.{IsSchema};
ghost use Rattle.arrays.specs.Batch.{BatchAt};
ghost use Rattle.arrays.specs.TypedLayouts.{AreOfTypes};
ghost use Rattle.table_versions.specs.StoredTables.{put_of};

use arrow_types::Schema;
use batch_stats::MeasuredBatch;
use scan_base::{IfExists, IfNotExist, Text};
use std::marker::Model;

/// Batches for a table, and what to do where the table is absent and where it is there. The schema
/// is one that can be written, and each batch has one column for each of its fields, of the field's
/// type.
#[derive(Drop)]
pub struct Put {
    pub(crate) table: Text,
    pub(crate) if_not_exist: IfNotExist,
    pub(crate) if_exists: IfExists,
    pub(crate) schema: Schema,
    pub(crate) batches: Vec<MeasuredBatch>,
}

impl Model for Put {
    ghost use Rattle.table_versions.specs.StoredTables.{PutAt};
    ghost use Rattle.table_versions.specs.KeptTables.{IsStorable};

    ghost Value = { PutAt };

    ghost view = { λ p. record {
      table = p.table;
      if_not_exist = p.if_not_exist;
      if_exists = p.if_exists;
      schema = p.schema;
      batches = p.batches.items;
    } };

    ghost invariant = { λ p. IsStorable p.schema p.batches.items };
}

impl Put {
    /// A put of these batches into the table of this name. What a reader of IPC messages gives
    /// meets the conditions.
    pub fn new(
        table: Text,
        if_not_exist: IfNotExist,
        if_exists: IfExists,
        schema: Schema,
        batches: Vec<MeasuredBatch>,
    ) -> Put
        requires valid { IsSchema schema }
        requires typed { All (λ (batch : BatchAt). AreOfTypes schema.fields batch.columns)
            batches.items }
        ensures { result ≡ record {
          table = table;
          if_not_exist = if_not_exist;
          if_exists = if_exists;
          schema = schema;
          batches = batches.items;
        } }
    {
        Put {
            table,
            if_not_exist,
            if_exists,
            schema,
            batches,
        }
    }

    /// How many rows are put: the lesser of that number and 2^64 - 1. An accepted put has at most
    /// 16,777,216 ([`crate::laws::accepted_puts_are_few`]).
    pub fn rows(&self) -> usize
        ensures { result ≡ min (length (put_of self.now).rows) (2 ^ 64 - 1) }
    {
        let mut rows = 0_usize;
        for batch in self.batches.as_slice() {
            rows = rows.saturating_add(batch.rows());
        }
        rows
    }
}
