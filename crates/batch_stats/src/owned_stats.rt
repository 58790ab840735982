//! Statistics that are kept without their column.

ghost use Rattle.std.specs.Prelude.{◌≡◌, false, IfNone, IfSome, IsSome, Some};
ghost use Rattle.scan_base.specs.Value.{value_of};
ghost use Rattle.batch_stats.specs.Beginnings.{AreBeginnings, AreFirst};
ghost use Rattle.batch_stats.specs.OwnedStats.{AreKept, are_alike};
ghost use Rattle.batch_stats.specs.Sides.{ends_at, side_at};
ghost use Rattle.batch_stats.specs.Stats.{StatsAt};

use crate::beginnings::{Beginning, Beginnings};
use crate::side::{Ends, Side};
use arrayvec::ArrayString;
use scan_base::ValueRef;

// How many bytes are kept of a text.
const MOST_BYTES: usize = 36;

/// The statistics of a column, to be kept without it. They take 80 bytes.
#[derive(Clone, Copy, Drop)]
pub enum OwnedStats {
    /// Each value is null, or there is none.
    Nulls {
        nulls: usize,
    },
    Flags {
        least: bool,
        greatest: bool,
        nulls: usize,
    },
    Numbers {
        least: i128,
        greatest: i128,
        nulls: usize,
    },
    /// Of both texts the first bytes, at most 36, and whether they are all of it.
    Texts {
        least_is_whole: bool,
        greatest_is_whole: bool,
        least: ShortText,
        greatest: ShortText,
        nulls: usize,
    },
}

/// A text of at most 36 bytes.
pub type ShortText = ArrayString<MOST_BYTES>;

// The first characters of a text, in at most 36 bytes, and whether they are all of it.
#[derive(Clone, Copy, Drop)]
struct ShortBeginning {
    text: ShortText,
    is_whole: bool,
}

// Those of a text. They always fit.
#[tactic(auto, using(crate::proofs::Begun::first_cut))]
fn short_beginning(text: &str) -> Option<ShortBeginning>
    ensures always { IsSome result }
    ensures first { IfSome result (λ begun. AreFirst begun.text.bytes begun.is_whole text.now) }
{
    let end = text.floor_char_boundary(MOST_BYTES);
    let is_whole = end == text.len();
    let text = ArrayString::from(&text[..end]).ok()?;
    Some(ShortBeginning { text, is_whole })
}

impl OwnedStats {
    // Those of a least and a greatest value. It is `None` only of two that are not alike.
    pub(crate) fn of_ends(ends: Ends<'_>, nulls: usize) -> Option<OwnedStats>
        ensures kept { IfSome result (λ owned. AreKept owned
            (record { ends = Some (ends_at ends.entry); nulls = nulls })) }
        ensures alike { IfNone result
            (are_alike (value_of ends.entry.least) (value_of ends.entry.greatest) ≡ false) }
    {
        match (ends.least, ends.greatest) {
            (ValueRef::Bool(least), ValueRef::Bool(greatest)) => Some(OwnedStats::Flags {
                least,
                greatest,
                nulls,
            }),
            (ValueRef::Int(least), ValueRef::Int(greatest)) => Some(OwnedStats::Numbers {
                least,
                greatest,
                nulls,
            }),
            (ValueRef::Text(least), ValueRef::Text(greatest)) => {
                let least = short_beginning(least)?;
                let greatest = short_beginning(greatest)?;
                Some(OwnedStats::Texts {
                    least: least.text,
                    least_is_whole: least.is_whole,
                    greatest: greatest.text,
                    greatest_is_whole: greatest.is_whole,
                    nulls,
                })
            }
            _ => None,
        }
    }

    /// What the values are between, and how many are null. It is `None` of texts of which one is
    /// not whole.
    pub fn side(&self) -> Option<Side<'_>>
        ensures { IfSome result
            (λ side. (stats : StatsAt) → AreKept self.now stats → stats ≡ side_at side) }
    {
        match self {
            OwnedStats::Nulls { nulls } => Some(Side {
                ends: None,
                nulls: *nulls,
            }),
            OwnedStats::Flags {
                least,
                greatest,
                nulls,
            } => {
                let (least, greatest) = (ValueRef::Bool(*least), ValueRef::Bool(*greatest));
                Some(Side::between(least, greatest, *nulls))
            }
            OwnedStats::Numbers {
                least,
                greatest,
                nulls,
            } => {
                let (least, greatest) = (ValueRef::Int(*least), ValueRef::Int(*greatest));
                Some(Side::between(least, greatest, *nulls))
            }
            OwnedStats::Texts { .. } => self.beginnings()?.whole(),
        }
    }

    /// How the least and the greatest text begin. It is `None` of other values.
    pub fn beginnings(&self) -> Option<Beginnings<'_>>
        ensures { IfSome result
            (λ known. (stats : StatsAt) → AreKept self.now stats → AreBeginnings known stats) }
    {
        match self {
            OwnedStats::Texts {
                least,
                least_is_whole,
                greatest,
                greatest_is_whole,
                nulls,
            } => Some(Beginnings {
                least: Beginning {
                    first: least.as_str(),
                    is_whole: *least_is_whole,
                },
                greatest: Beginning {
                    first: greatest.as_str(),
                    is_whole: *greatest_is_whole,
                },
                nulls: *nulls,
            }),
            _ => None,
        }
    }
}
