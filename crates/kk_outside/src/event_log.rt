//! What the calls of a gate told, for contracts alone.
ghost use Rattle.std.specs.Prelude.{◌≡◌, ◌+◌, ◌++◌, [], IfOk};
ghost use Rattle.kk_outside.specs.Gate.{events_of, overs_of, IsWithin};

use crate::read_log::ByteLog;
use crate::{Failed, Got};
use std::marker::Model;
use std::snapshot::Snapshot;

/// The events that a gate has told so far, in order, and how often it has answered that they are over. Clauses see all of
/// that; at run time there is one byte, since what came before the last answer is kept as a snapshot, which has none.
#[cycle(event_log)]
#[derive(Drop)]
pub(crate) struct EventLog {
    last: LastEvent,
}

#[cycle(event_log)]
#[derive(Drop)]
enum LastEvent {
    NoEvent,
    Datagram(Snapshot<ByteLog>, Snapshot<EventLog>),
    Quiet(Snapshot<EventLog>),
    Fault(Snapshot<EventLog>),
    Over(Snapshot<EventLog>),
}

impl Model for EventLog {
    ghost use Rattle.kk_outside.specs.EventsTold.{EventsTold, calls_told};

    ghost Value = { EventsTold };

    ghost use Rattle.kk_outside.specs.EventLog.{events_logged};

    ghost view = { λ log. events_logged log.last };

    ghost size = { calls_told };

    ghost use Rattle.std.proofs.Common.{arith, length-append};

    ghost size_decreases = { λ log h. Prim.grind (arith, length-append) };
}

impl EventLog {
    /// No answer so far.
    pub(crate) fn new() -> EventLog
        ensures { result ≡ record { events = []; overs = 0 } }
    {
        EventLog {
            last: LastEvent::NoEvent,
        }
    }

    /// One answer more, with this buffer.
    pub(crate) fn add(&mut self, answer: Result<Got, Failed>, buf: &[u8])
        requires { IfOk answer (λ got. IsWithin got buf.now) }
        ensures events { self.new.events ≡ self.old.events ++ events_of answer buf.now }
        ensures overs { self.new.overs ≡ self.old.overs + overs_of answer }
    {
        let before = Snapshot::of(self);
        self.last = match answer {
            Ok(Got::Datagram(n)) => {
                LastEvent::Datagram(Snapshot::of(&ByteLog::of(&buf[..n])), before)
            }
            Ok(Got::Quiet) => LastEvent::Quiet(before),
            Ok(Got::Over) => LastEvent::Over(before),
            Err(_) => LastEvent::Fault(before),
        };
    }
}
