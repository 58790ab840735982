//! Why the rows of a query were not fetched.

use client_calls::Failure;
use scan_base::Fault;
use std::alloc::AllocError;
use std::io::Error;

/// Why the rows of a query were not fetched.
#[derive(Clone, Copy)]
pub(crate) enum FetchFailure {
    /// A call gave nothing, or memory was refused, or the streams do not join.
    Failed(Failure),
    /// The network was asked twice for a further connection, and gave none.
    Unconnected(Error),
}

impl From<Failure> for FetchFailure {
    ghost use Rattle.std.specs.Prelude.{◌≡◌};
    ghost use Rattle.client_commands.specs.declared.fetch_failure.FetchFailure.TheVariants.{Failed};

    ghost from_gives = { λ failure lost. lost ≡ Failed failure };

    fn from(failure: Failure) -> FetchFailure {
        FetchFailure::Failed(failure)
    }
}

impl From<AllocError> for FetchFailure {
    ghost use Rattle.std.specs.Prelude.{◌≡◌};
    ghost use Rattle.scan_base.specs.declared.fault.Fault.TheVariants.{OutOfMemory};
    ghost use Rattle.client_calls.specs.declared.failure.Failure.TheVariants.{Found};
    ghost use Rattle.client_commands.specs.declared.fetch_failure.FetchFailure.TheVariants.{Failed};

    ghost from_gives = { λ _ lost. lost ≡ Failed (Found OutOfMemory) };

    fn from(_: AllocError) -> FetchFailure {
        FetchFailure::Failed(Failure::Found(Fault::OutOfMemory))
    }
}

impl From<Fault> for FetchFailure {
    ghost use Rattle.std.specs.Prelude.{◌≡◌};
    ghost use Rattle.client_calls.specs.declared.failure.Failure.TheVariants.{Found};
    ghost use Rattle.client_commands.specs.declared.fetch_failure.FetchFailure.TheVariants.{Failed};

    ghost from_gives = { λ fault lost. lost ≡ Failed (Found fault) };

    fn from(fault: Fault) -> FetchFailure {
        FetchFailure::Failed(Failure::Found(fault))
    }
}
