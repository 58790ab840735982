//! Sets of codes: those of a dictionary's values that were looked at.

ghost use Rattle.std.specs.Prelude.{◌≡◌, ◌≤◌, ◌⊎◌, ℕ, false, length, replicate, IfOk};
ghost use Rattle.arrays.specs.Number.{byte_width};
ghost use Rattle.batch_stats.specs.inside.CodeSets.{HasLast, HasMark, HasSorted};

use arrays::{Code, Indices};
use std::alloc::{AllocError, Global};

/// How many codes a set of the last ones has.
pub(crate) const MOST_LAST: usize = 2048;

/// A set of codes. It may forget some of them.
pub(crate) trait CodeSet {
    /// The set has a code.
    ghost has: { Self → ℕ → Type 0 };

    /// Adds a code: whether the set did not have it.
    fn insert(&mut self, code: u64) -> bool
        ensures found { result ≡ false → has self.old code }
        ensures all { (other : ℕ) → has self.new other → (other ≡ code) ⊎ has self.old other };
}

/// For each remainder by 2,048 the code that came last. It forgets none of codes below 2,048, and
/// takes no memory.
#[derive(Drop)]
pub(crate) struct LastCodes {
    pub(crate) codes: [u64; MOST_LAST],
}

impl LastCodes {
    /// A set of one code.
    pub(crate) fn new(code: u64) -> LastCodes
        ensures { result.codes ≡ replicate 2048 code }
    {
        LastCodes {
            codes: [code; MOST_LAST],
        }
    }
}

impl CodeSet for LastCodes {
    ghost has = { λ set code. HasLast set.codes code };

    #[tactic(auto, using(crate::proofs::CodeSets::last_more))]
    fn insert(&mut self, code: u64) -> bool {
        let place = code as usize % MOST_LAST;
        if self.codes[place] == code {
            return false;
        }
        self.codes[place] = code;
        true
    }
}

/// A mark for each code below a number. It forgets none of them.
#[derive(Drop)]
pub(crate) struct MarkedCodes {
    pub(crate) marks: Vec<bool>,
}

impl MarkedCodes {
    /// A set of no code, with marks for those below a number.
    ///
    /// # Errors
    ///
    /// `AllocError` where memory is refused: that of a byte for each mark.
    pub(crate) fn new(alloc: Global, count: usize) -> Result<MarkedCodes, AllocError>
        ensures { IfOk result (λ set. set.marks.items ≡ replicate count false) }
    {
        let marks = vec![in alloc; false; count]?;
        Ok(MarkedCodes { marks })
    }
}

impl CodeSet for MarkedCodes {
    ghost has = { λ set code. HasMark set.marks.items code };

    #[tactic(auto, using(crate::proofs::CodeSets::mark_more))]
    fn insert(&mut self, code: u64) -> bool {
        let place = code as usize;
        if place >= self.marks.len() {
            return true;
        }
        if self.marks[place] {
            return false;
        }
        self.marks[place] = true;
        true
    }
}

/// Some codes in their order, and a mark for each. It forgets none of them.
#[derive(Drop)]
pub(crate) struct SortedCodes {
    pub(crate) codes: Vec<u64>,
    pub(crate) marked: MarkedCodes,
}

impl SortedCodes {
    /// A set of no code, with marks for those of the valid ones of the slots `from` up to, not
    /// with, `to`.
    ///
    /// # Errors
    ///
    /// `AllocError` where memory is refused: that of nine bytes for each slot.
    pub(crate) fn new<C: Code>(
        alloc: Global,
        cells: &Indices<'_>,
        from: usize,
        to: usize,
    ) -> Result<SortedCodes, AllocError>
        requires width { C.WIDTH ≡ byte_width (cells.now).index }
        requires ordered { from ≤ to }
        requires within { to ≤ (cells.now).len }
        ensures { IfOk result
            (λ set. set.marked.marks.items ≡ replicate (length set.codes.items) false) }
    {
        let mut codes = codes_of::<C>(alloc, cells, from, to)?;
        codes.sort_unstable();
        let marked = MarkedCodes::new(alloc, codes.len())?;
        Ok(SortedCodes { codes, marked })
    }
}

impl CodeSet for SortedCodes {
    ghost has = { λ set code. HasSorted set.codes.items set.marked.marks.items code };

    fn insert(&mut self, code: u64) -> bool {
        match self.codes.binary_search(&code) {
            Ok(rank) => self.marked.insert(rank as u64),
            Err(_) => true,
        }
    }
}

// The codes of the valid ones of the slots `from` up to, not with, `to`.
fn codes_of<C: Code>(
    alloc: Global,
    cells: &Indices<'_>,
    from: usize,
    to: usize,
) -> Result<Vec<u64>, AllocError>
    requires width { C.WIDTH ≡ byte_width (cells.now).index }
    requires ordered { from ≤ to }
    requires within { to ≤ (cells.now).len }
{
    let _count = cells.len();
    let mut codes = Vec::with_capacity(alloc, to - from)?;
    for place in from..to {
        if cells.validity().is_valid(place) {
            codes.push(C::code(cells.values(), place))?;
        }
    }
    Ok(codes)
}
