//! How the program ends.

ghost use Rattle.std.specs.Prelude.{◌≡◌};
ghost use Rattle.command_ends.specs.Status.{number_of};

/// How a command ended.
#[derive(Clone, Copy, Debug, PartialEq, Eq)]
pub enum ExitStatus {
    /// All was done.
    Done,
    /// The server answered a fault.
    FaultAnswered,
    /// The command line does not parse, or asks for help.
    BadCommandLine,
    /// A fault found at this end.
    FaultAtThisEnd,
}

impl ExitStatus {
    /// The number that the system is told.
    pub fn number(self) -> u8
        ensures { result ≡ number_of self }
    {
        match self {
            ExitStatus::Done => 0,
            ExitStatus::FaultAnswered => 1,
            ExitStatus::BadCommandLine => 2,
            ExitStatus::FaultAtThisEnd => 3,
        }
    }
}
