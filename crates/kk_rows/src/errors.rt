//! The one error of calls that ask for memory.
ghost use Rattle.std.specs.Prelude.{Some, codes};

use std::alloc::{AllocError, AllocFailed};
use std::error::Error;
use std::fmt;

/// No memory: the one error of a call that asks for some.
#[derive(Clone, Copy, Debug, PartialEq, Eq)]
pub struct Alloc;

impl fmt::Display for Alloc {
    ghost output = { λ _. Some (codes "out of memory") };

    fn fmt<W: fmt::Write>(&self, f: &mut fmt::Formatter<W>) -> fmt::Result {
        write!(f, "out of memory")
    }
}

impl Error for Alloc {}

impl From<AllocError> for Alloc {
    fn from(_: AllocError) -> Alloc {
        Alloc
    }
}

impl<T: Drop> From<AllocFailed<T>> for Alloc {
    fn from(_: AllocFailed<T>) -> Alloc {
        Alloc
    }
}
