//! Why words ask for nothing.
ghost use Rattle.std.specs.Prelude.{◌≡◌, ◌↔◌};
ghost use Rattle.clap.specs.Values.{kind_of};
ghost use Rattle.clap.specs.declared.error.kind.ErrorKind.TheVariants.{OutOfMemory};
ghost use Rattle.kk_forms.specs.declared.fault.WordsFault.TheVariants.{Alloc};

use clap::error::ErrorKind;
use std::alloc::{AllocError, AllocFailed};
use std::error::Error;
use std::fmt;

/// Why words ask for nothing.
#[derive(Clone, Copy, Debug, PartialEq, Eq)]
pub enum WordsFault {
    /// The words are not of a command's form.
    Words,
    /// No memory. It is answered only where the first word names the command.
    Alloc,
}

impl fmt::Display for WordsFault {
    ghost use Rattle.std.specs.Prelude.{Some};
    ghost use Rattle.kk_forms.specs.FaultText.{fault_text};

    ghost output = { λ fault. Some (fault_text fault) };

    fn fmt<W: fmt::Write>(&self, f: &mut fmt::Formatter<W>) -> fmt::Result {
        match self {
            WordsFault::Words => f.write_str("the words are not of a command's form"),
            WordsFault::Alloc => f.write_str("out of memory"),
        }
    }
}

impl Error for WordsFault {}

impl From<AllocError> for WordsFault {
    ghost from_gives = { λ _ e. e ≡ Alloc };

    fn from(_: AllocError) -> WordsFault {
        WordsFault::Alloc
    }
}

/// What a refusal of clap means: memory ran out, or the words are not of the command's form.
pub(crate) fn fault_of(error: &clap::Error) -> WordsFault
    ensures { (result ≡ WordsFault.Alloc) ↔ (kind_of error.now ≡ OutOfMemory) }
{
    if error.kind() == ErrorKind::OutOfMemory {
        WordsFault::Alloc
    } else {
        WordsFault::Words
    }
}
