//! A predicate over rows, one after another.

ghost use Rattle.std.specs.Prelude.{◌≡◌, ◌≤◌, ◌<◌, ◌+◌, ℕ};
ghost use Rattle.scan_base.specs.View.{pred_of};
ghost use Rattle.kernels.specs.Rows.{AreRowsOf, NamesOnlyRead};

use crate::kernel::{Kernel, SlotTruths, slot_by_slot};
use crate::row::RowAt;
use crate::word::Word;
use arrays::Column;
use scan_base::{Predicate, Truth};

/// The truths of a predicate in rows, of which there are `count`.
#[derive(Clone, Copy, Drop)]
pub(crate) struct PredicateRows<'a> {
    pub(crate) columns: &'a [Column],
    pub(crate) read: &'a [usize],
    pub(crate) count: usize,
    pub(crate) predicate: &'a Predicate<usize>,
    ghost there: { AreRowsOf columns.now read.now count },
    ghost over: { NamesOnlyRead read.now (pred_of predicate.now) },
}

impl<'a> SlotTruths for PredicateRows<'a> {
    ghost use Rattle.scan_base.specs.View.{pred_of};
    ghost use Rattle.kernels.specs.Rows.{truth_in};

    ghost count = { λ rows. rows.count };

    ghost truth = { λ rows row. truth_in rows.columns.now rows.read.now
        (pred_of rows.predicate.now) row };

    fn truth(&self, place: usize) -> Truth {
        let row = RowAt {
            columns: self.columns,
            read: self.read,
            row: place,
        };
        self.predicate.truth(&row)
    }
}

impl<'a> Kernel for PredicateRows<'a> {
    type Cell = Truth;

    fn word(&self, from: usize) -> Word {
        let _count = self.count;
        slot_by_slot(self, from, 64)
    }
}
