//! What slots of every kind give: typed slots, texts, and columns.

ghost use Rattle.std.specs.Prelude.{◌≡◌, ◌<◌, ℕ, false};
ghost use Rattle.scan_base.specs.declared.value.Value.{Value};
ghost use Rattle.scan_base.specs.Value.{value_of, is_null};

use scan_base::ValueRef;

/// The slots of a column. Its law: what `value_at` gives is the slot of that place, as the layout
/// of the buffers says it.
pub trait Cells {
    ghost slot_count: { Self → ℕ };

    ghost slot: { Self → ℕ → Value };

    /// How many slots there are.
    fn len(&self) -> usize
        ensures { result ≡ slot_count self.now };

    /// The value of the slot at a place, counted from 0. It takes no memory.
    fn value_at(&self, place: usize) -> ValueRef<'_>
        requires { place < slot_count self.now }
        ensures { value_of result ≡ slot self.now place };

    /// Whether a slot may be null: where the answer is no, none is. It looks at no slot.
    fn may_have_nulls(&self) -> bool
        ensures { result ≡ false →
            (place : ℕ) → place < slot_count self.now → is_null (slot self.now place) ≡ false };
}
