//! Who watches long work, and may end it.

ghost use Rattle.std.specs.Prelude.{OnOk, OnErr};

use std::alloc::AllocError;

/// Who watches work that may take long, and may end it.
pub trait Watches {
    ghost use Rattle.std.specs.Prelude.{◌≡◌, ℕ, ◌+◌, true, false};

    // What has to hold for it to be asked. It holds again only where the work is to go on.
    ghost ready: { Self → Type 0 };

    // What is so where it ended the work.
    ghost ended: { Self → Type 0 };

    // What may have become of it while it watched.
    ghost watched: { Self → Self → Type 0 };

    // What may have become of it while it was told of so many rows.
    ghost told: { ℕ → Self → Self → Type 0 };

    /// So many rows more were looked at. Whether the work is to go on. Where it is not, nothing
    /// more is asked.
    fn goes_on(&mut self, rows: usize) -> bool
        requires { ready self.old }
        ensures ready { result ≡ true → ready self.new }
        ensures ended { result ≡ false → ended self.new }
        ensures watched { watched self.old self.new }
        ensures told { told rows self.old self.new };

    // Nothing became of it where it was not asked.
    ghost unasked: { (one : Self) → watched one one };

    // It may watch work after other work.
    ghost again: { (one next last : Self) → watched one next → watched next last →
        watched one last };

    // Where it was not asked it was told of no row.
    ghost untold: { (one : Self) → told 0 one one };

    // It may be told of rows after others.
    ghost told_again: { (some more : ℕ) (one next last : Self) → told some one next →
        told more next last → told (some + more) one last };
}

/// Nobody watches: the work goes on to its end.
#[derive(Clone, Copy, Drop)]
pub struct NoWatch;

impl Watches for NoWatch {
    ghost ready = { λ _. Unit {0} };

    // It never ends the work.
    ghost ended = { λ _. ⊥ };

    ghost watched = { λ _ _. Unit {0} };

    ghost told = { λ _ _ _. Unit {0} };

    fn goes_on(&mut self, _rows: usize) -> bool {
        true
    }

    ghost unasked = { λ _. tt };

    ghost again = { λ _ _ _ _ _. tt };

    ghost untold = { λ _. tt };

    ghost told_again = { λ _ _ _ _ _ _ _. tt };
}

/// Tells who watches that so many rows more were looked at.
///
/// # Errors
///
/// `AllocError` where the work is not to go on: it ends as where memory is refused.
pub fn tell<W: Watches>(watch: &mut W, rows: usize) -> Result<(), AllocError>
    requires ready { W.ready watch.old }
    ensures ready { OnOk result (W.ready watch.new) }
    ensures ended { OnErr result (W.ended watch.new) }
    ensures watched { W.watched watch.old watch.new }
    ensures told { W.told rows watch.old watch.new }
{
    if watch.goes_on(rows) {
        Ok(())
    } else {
        Err(AllocError)
    }
}
