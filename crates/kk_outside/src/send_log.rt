//! What the sends of an outlet came to, for contracts alone.
ghost use Rattle.std.specs.Prelude.{◌≡◌, ◌∷◌, ◌++◌, []};
ghost use Rattle.kk_outside.specs.Outlet.{send_of};

use crate::Failed;
use crate::read_log::ByteLog;
use std::marker::Model;
use std::snapshot::Snapshot;

/// The sends of an outlet so far, in order. Clauses see the whole list; at run time there is one byte, since what came
/// before the last send is kept as a snapshot, which has none.
#[cycle(send_log)]
#[derive(Drop)]
pub(crate) struct SendLog {
    last: LastSend,
}

#[cycle(send_log)]
#[derive(Drop)]
enum LastSend {
    NoSend,
    HasSent(Snapshot<ByteLog>, Snapshot<SendLog>),
    HasFailed(Snapshot<SendLog>),
}

impl Model for SendLog {
    ghost use Rattle.std.specs.Prelude.{List, length};
    ghost use Rattle.kk_outside.specs.Outlet.{Send};

    ghost Value = { List Send };

    ghost use Rattle.kk_outside.specs.SendLog.{sends_of};

    ghost view = { λ log. sends_of log.last };

    ghost size = { length };

    ghost use Rattle.std.proofs.Common.{arith, length-append};

    ghost size_decreases = { λ log h. Prim.grind (arith, length-append) };
}

impl SendLog {
    /// No send so far.
    pub(crate) fn new() -> SendLog
        ensures { result ≡ [] }
    {
        SendLog {
            last: LastSend::NoSend,
        }
    }

    /// One send more, of this datagram, with this answer.
    pub(crate) fn add(&mut self, answer: Result<(), Failed>, datagram: &[u8])
        ensures { self.new ≡ self.old ++ send_of answer datagram.now ∷ [] }
    {
        let before = Snapshot::of(self);
        self.last = match answer {
            Ok(()) => LastSend::HasSent(Snapshot::of(&ByteLog::of(datagram)), before),
            Err(_) => LastSend::HasFailed(before),
        };
    }
}
