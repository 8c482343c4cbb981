//! Why a file isn't read, or isn't sent.
ghost use Rattle.std.specs.Prelude.{◌≡◌};
ghost use Rattle.kk_sender.specs.Faults.{as_send_fault};

/// Why a file isn't read.
#[derive(Clone, Copy, Debug, PartialEq, Eq)]
pub enum FileFault {
    /// The source failed.
    Read,
    /// The source doesn't have as many bytes as the file.
    Length {
        /// How many bytes it gave.
        got: u64,
        /// Whether these are more than the file has: one more. Else they are all.
        more: bool,
    },
}

/// Why a file isn't sent.
#[derive(Clone, Copy, Debug, PartialEq, Eq)]
pub enum SendFault {
    /// The source failed.
    Read,
    /// The source doesn't have as many bytes as the file.
    Length {
        /// How many bytes it gave.
        got: u64,
        /// Whether these are more than the file has: one more. Else they are all.
        more: bool,
    },
    /// The outlet failed.
    Outlet,
}

impl From<FileFault> for SendFault {
    ghost from_gives = { λ fault e. e ≡ as_send_fault fault };

    fn from(fault: FileFault) -> SendFault {
        match fault {
            FileFault::Read => SendFault::Read,
            FileFault::Length { got, more } => SendFault::Length { got, more },
        }
    }
}
