//! The rows of a part that were chosen.

ghost use Rattle.std.specs.Prelude.{◌≡◌, false};

use array_select::Selection;
use std::alloc::Global;

// The rows that were chosen last, and whether they are those of the part that comes next.
pub(crate) struct Choice {
    // Its memory is used again.
    pub(crate) selection: Selection,
    pub(crate) made: bool,
}

// Written out, so that dropping it is one call (docs/DECISIONS.md).
impl Drop for Choice {
    fn drop(self) {
        let Choice {
            selection: _,
            made: _,
        } = self;
    }
}

impl Choice {
    // No rows were chosen yet.
    pub(crate) fn new(alloc: Global) -> Choice
        ensures { result.made ≡ false }
    {
        Choice {
            selection: Selection::new(alloc),
            made: false,
        }
    }
}
