//! Why a socket couldn't be opened.
ghost use Rattle.std.specs.Prelude.{◌≡◌, ◌↔◌};
ghost use Rattle.std.specs.IoError.{error_kind};

use std::error::Error;
use std::io::ErrorKind;
use std::{fmt, io};

/// Why a gate or an outlet couldn't be opened.
#[derive(Clone, Copy, Debug, PartialEq, Eq)]
pub enum OpenFault {
    /// The system has no memory for it.
    Alloc,
    /// The system refused the address or the socket.
    Cannot,
}

impl fmt::Display for OpenFault {
    ghost use Rattle.std.specs.Prelude.{Some};
    ghost use Rattle.kk_outside.specs.OpenFaultText.{open_fault_text};

    ghost output = { λ fault. Some (open_fault_text fault) };

    fn fmt<W: fmt::Write>(&self, f: &mut fmt::Formatter<W>) -> fmt::Result {
        match self {
            OpenFault::Alloc => write!(f, "the system has no memory for a socket"),
            OpenFault::Cannot => write!(f, "the system refused the address or the socket"),
        }
    }
}

impl Error for OpenFault {}

/// The fault that an error of the system is.
pub(crate) fn open_fault(e: io::Error) -> OpenFault
    ensures { (result ≡ OpenFault.Alloc) ↔ (error_kind e ≡ ErrorKind.OutOfMemory) }
{
    if e.kind() == ErrorKind::OutOfMemory {
        OpenFault::Alloc
    } else {
        OpenFault::Cannot
    }
}
