//! Why a call gave nothing.

use scan_base::Fault;
use std::alloc::AllocError;

/// Why a call gave nothing: who found the fault.
#[derive(Clone, Copy, Debug, PartialEq, Eq)]
pub enum Failure {
    /// The server answered with this fault.
    Answered(Fault),
    /// It was found at this end.
    Found(Fault),
}

impl From<Fault> for Failure {
    ghost use Rattle.std.specs.Prelude.{◌≡◌};
    ghost use Rattle.client_calls.specs.declared.failure.Failure.TheVariants.{Found};

    ghost from_gives = { λ fault failure. failure ≡ Found fault };

    fn from(fault: Fault) -> Failure {
        Failure::Found(fault)
    }
}

impl From<AllocError> for Failure {
    ghost use Rattle.std.specs.Prelude.{◌≡◌};
    ghost use Rattle.scan_base.specs.declared.fault.Fault.TheVariants.{OutOfMemory};
    ghost use Rattle.client_calls.specs.declared.failure.Failure.TheVariants.{Found};

    ghost from_gives = { λ _ failure. failure ≡ Found OutOfMemory };

    fn from(_: AllocError) -> Failure {
        Failure::Found(Fault::OutOfMemory)
    }
}
