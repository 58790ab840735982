//! What stands for no place, and why a column's texts are not coded.

use std::alloc::{AllocError, AllocFailed};

/// What stands in a list of places for a slot that has none, and in a table at an index that was
/// not met.
pub(crate) const NO_PLACE: u32 = 4_294_967_295;

/// Why the texts of a column are not coded: memory is refused, or they have more bytes than there
/// is room for.
#[derive(Debug, Drop)]
pub(crate) enum Stop {
    OutOfMemory,
    OutOfRoom,
}

impl From<AllocError> for Stop {
    ghost use Rattle.std.specs.Prelude.{◌≡◌};
    ghost use Rattle.dictionary_answers.specs.declared.coding.Stop.TheVariants.{OutOfMemory};

    ghost from_gives = { λ _ stop. stop ≡ OutOfMemory };

    fn from(_: AllocError) -> Stop {
        Stop::OutOfMemory
    }
}

impl<T: Drop> From<AllocFailed<T>> for Stop {
    ghost use Rattle.std.specs.Prelude.{◌≡◌};
    ghost use Rattle.dictionary_answers.specs.declared.coding.Stop.TheVariants.{OutOfMemory};

    ghost from_gives = { λ _ stop. stop ≡ OutOfMemory };

    fn from(_: AllocFailed<T>) -> Stop {
        Stop::OutOfMemory
    }
}
