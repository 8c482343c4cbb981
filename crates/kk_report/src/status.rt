//! How a run ended that was not refused.
ghost use Rattle.std.specs.Prelude.{◌≡◌};
ghost use Rattle.kk_report.specs.Status.{code_of};

/// How a run ended that was not refused.
#[derive(Clone, Copy, Debug, PartialEq, Eq)]
pub enum Status {
    /// All the work is done.
    Done,
    /// Some generation doesn't decode.
    NotDecoded,
    /// Some generation doesn't decode, and a gate failed.
    GateFailed,
    /// A sink failed.
    OutputFault,
}

impl Status {
    /// The number that the process ends with.
    pub fn code(self) -> u8
        ensures { result ≡ code_of self }
    {
        match self {
            Status::Done => 0,
            Status::NotDecoded => 3,
            Status::GateFailed => 6,
            Status::OutputFault => 5,
        }
    }
}
