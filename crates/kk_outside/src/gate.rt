//! A gate, where datagrams come in.
ghost use Rattle.std.specs.Prelude.{◌≡◌};
ghost use Rattle.kk_outside.specs.Causes.{HasCause};
ghost use Rattle.kk_outside.specs.Change.{change};
ghost use Rattle.kk_outside.specs.Gate.{GateTold, TellsFrom};

use crate::{Failed, Got};

/// The most bytes of a datagram that a sender makes.
pub const MAX_DATAGRAM_BYTES: usize = 640;

/// The bytes of a gate's buffer: one more, so that a datagram which is too long shows. A longer one is told as its first
/// `GATE_BYTES` bytes.
pub const GATE_BYTES: usize = MAX_DATAGRAM_BYTES + 1;

/// Where datagrams come in. It can be moved into a worker, and dropped with it.
pub trait Gate: Drop {
    /// The events that are left, or `None` where it doesn't tell them; the events that its calls have told so far; how
    /// many calls it has answered by `Over`; and how often it failed, a count that stops at 2^64 - 1.
    ghost told: { Self → GateTold };

    /// Takes the first event that is left and tells it: a datagram by the first bytes of `buf`, a quiet, or a fault by
    /// `Failed`. `Over` comes exactly where no event is left.
    /// What stands in `buf` after the datagram is left open, and all of it after another answer.
    fn next(&mut self, buf: &mut [u8; GATE_BYTES]) -> Result<Got, Failed>
        ensures tells { TellsFrom (change (told self.old) (told self.new)) result buf.new }
        ensures cause { HasCause (told self.old).faults (told self.new).faults result };
}
