//! The texts of a column.

ghost use Rattle.std.specs.Prelude.{◌≡◌, ◌<◌, ◌≤◌, All, length};
ghost use Rattle.arrays.specs.Column.{slot_of, values_of};
ghost use Rattle.arrays.specs.WrittenSlots.{text_bytes};

use crate::cells::Cells;
use crate::column::Column;
use crate::layout::Layout;
use scan_base::ValueRef;

impl Column {
    /// The bytes of a slot's text, and none where it holds no text.
    pub fn text_at(&self, place: usize) -> &[u8]
        requires { place < (self.now).len }
        ensures { result.now ≡ text_bytes (slot_of self.now place) }
    {
        match self.value_at(place) {
            ValueRef::Text(text) => text.as_bytes(),
            _ => &[],
        }
    }

    /// A number of bytes that no text has more of: 0 where the column has no texts. The texts of
    /// nulls count, and of a dictionary all values do. It looks at offsets alone.
    pub fn longest_text(&self) -> usize
        ensures { All (λ value. length (text_bytes value) ≤ result) (values_of self.now) }
    {
        let first = self.first();
        let behind = first + self.len();
        match self.layout() {
            Layout::Texts(cells) => cells.longest_between(first, behind),
            Layout::Indices(cells) => cells.dictionary().longest(),
            _ => 0,
        }
    }
}
