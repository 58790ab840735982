//! Work whose answers are easy to look at.

use scan_workers::Work;
use std::alloc::{AllocError, Global};
use std::sync::atomic::{AtomicU64, Ordering};

// So many numbers of eight bytes no allocator gives: together they are a quarter of all addresses.
const TOO_MANY: usize = 1 << 59;

/// The answer to a morsel is its number, in memory of its own.
#[derive(Drop)]
pub struct Numbers {
    count: usize,
    /// The morsel that asks for more memory than there is. If it is no morsel, none asks.
    greedy: usize,
    chooses_first: bool,
    /// How many morsels were begun.
    pub begun: AtomicU64,
}

impl Numbers {
    /// So many morsels.
    pub fn new(count: usize) -> Numbers {
        Numbers::with_greedy(count, count)
    }

    /// So many morsels. Of those that are chosen first nothing is made later.
    pub fn of_kind(count: usize, chooses_first: bool) -> Numbers {
        Numbers {
            count,
            greedy: count,
            chooses_first,
            begun: AtomicU64::new(0),
        }
    }

    /// So many morsels, one of which asks for more memory than there is.
    pub fn with_greedy(count: usize, greedy: usize) -> Numbers {
        Numbers {
            count,
            greedy,
            chooses_first: false,
            begun: AtomicU64::new(0),
        }
    }
}

impl Work for Numbers {
    type Answer = Result<Vec<usize>, AllocError>;

    ghost use Rattle.std.specs.Prelude.{◌≡◌, ◌∷◌, [], IfOk};

    ghost ready = { λ _. Unit {0} };

    ghost count = { λ w. w.count };

    ghost answers = { λ _ n a. IfOk a (λ v. v.items ≡ n ∷ []) };

    fn count(&self) -> usize {
        self.count
    }

    fn chooses_first(&self) -> bool {
        self.chooses_first
    }

    fn answer(&self, alloc: Global, morsel: usize) -> Result<Vec<usize>, AllocError> {
        self.begun.fetch_add(1, Ordering::SeqCst);
        let room = if morsel == self.greedy { TOO_MANY } else { 1 };
        let mut numbers = Vec::with_capacity(alloc, room)?;
        numbers.push(morsel)?;
        Ok(numbers)
    }
}
