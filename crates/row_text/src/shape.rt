//! The shape of a table's columns, and the blanks in their cells.

ghost use Rattle.std.specs.Prelude.{◌≡◌};
ghost use Rattle.row_text.specs.TableCells.{before, behind, blanks, dashes, stands_right};

use crate::widths::MOST_WIDTH;
use arrow_types::DataType;
use number_words::keyword;

// As many as the widest column has.
const BLANKS: &[u8] = b"                                        ";

const DASHES: &[u8] = b"----------------------------------------";

/// A column: the type of its values, and how wide it is.
#[derive(Clone, Copy, Debug, PartialEq, Eq)]
pub(crate) struct Shape {
    pub data_type: DataType,
    pub width: usize,
}

// So many blanks.
fn blanks(count: usize) -> &'static [u8]
    ensures { result.now ≡ blanks count }
{
    &BLANKS[..count.min(MOST_WIDTH)]
}

/// So many dashes.
pub(crate) fn dashes(count: usize) -> &'static [u8]
    ensures { result.now ≡ dashes count }
{
    &DASHES[..count.min(MOST_WIDTH)]
}

// Whether values of a type stand at the right of their column.
fn stands_right(data_type: DataType) -> bool
    ensures { result ≡ stands_right data_type }
{
    match data_type {
        DataType::Number(kind) => keyword(kind).is_none(),
        _ => false,
    }
}

/// The blanks before a text that takes so many columns.
pub(crate) fn before(shape: Shape, taken: usize) -> &'static [u8]
    ensures { result.now ≡ before shape taken }
{
    if stands_right(shape.data_type) {
        return blanks(shape.width.saturating_sub(taken));
    }
    &[]
}

/// The blanks after it.
pub(crate) fn behind(shape: Shape, taken: usize) -> &'static [u8]
    ensures { result.now ≡ behind shape taken }
{
    if stands_right(shape.data_type) {
        return &[];
    }
    blanks(shape.width.saturating_sub(taken))
}
