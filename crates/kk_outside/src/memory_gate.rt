//! A gate over events in memory.
ghost use Rattle.std.specs.Prelude.{◌≡◌, ◌∷◌, [], All, Ok, Err, IfOk};
ghost use Rattle.kk_outside.specs.Causes.{HasCause, one_more};
ghost use Rattle.kk_outside.specs.Change.{change};
ghost use Rattle.kk_outside.specs.Gate.{TellsFrom, FitsGate, IsWithin, events_of};
ghost use Rattle.kk_outside.specs.GateState.{told, unasked};

use crate::event_log::EventLog;
use crate::{Event, Failed, GATE_BYTES, Gate, Got};
use std::marker::Model;

/// Tells the events that it holds, in order, and then that they are over. The count of its faults stops at 2^64 - 1.
#[derive(Drop)]
pub struct MemoryGate {
    events: Vec<Event>,
    start: usize,
    log: EventLog,
    faults: u64,
}

impl Model for MemoryGate {
    ghost use Rattle.std.specs.Prelude.{◌≤◌, All, drop, length};
    ghost use Rattle.kk_outside.specs.Gate.{FitsGate};
    ghost use Rattle.kk_outside.specs.GateState.{GateState};

    ghost Value = { GateState };

    ghost view = { λ g. record { left = drop g.start g.events.items; events = g.log.events; overs = g.log.overs; faults = g.faults } };

    ghost invariant = { λ g. (g.start ≤ length g.events.items) × All FitsGate g.events.items };
}

impl MemoryGate {
    /// A gate of these events, of which each datagram has at most `GATE_BYTES` bytes.
    pub fn new(events: Vec<Event>) -> MemoryGate
        requires { All FitsGate events.items }
        ensures { result ≡ unasked events.items }
    {
        MemoryGate {
            events,
            start: 0,
            log: EventLog::new(),
            faults: 0,
        }
    }

    /// How many calls failed.
    pub fn faults(&self) -> u64
        ensures { result ≡ self.now.faults }
    {
        self.faults
    }
}

impl Gate for MemoryGate {
    ghost told = { told };

    fn next(&mut self, buf: &mut [u8; GATE_BYTES]) -> Result<Got, Failed>
        ensures tells { TellsFrom (change (told self.old) (told self.new)) result buf.new }
        ensures cause { HasCause self.old.faults self.new.faults result }
    {
        let answer = match self.events.get(self.start) {
            Some(event) => {
                self.start += 1;
                tell(event, buf)
            }
            None => Ok(Got::Over),
        };
        if answer.is_err() {
            self.faults = self.faults.saturating_add(1);
        }
        self.log.add(answer, buf);
        answer
    }
}

/// The answer that tells this event, with the bytes of a datagram at the front of `buf`.
fn tell(event: &Event, buf: &mut [u8; GATE_BYTES]) -> Result<Got, Failed>
    requires { FitsGate event.now }
    ensures event { events_of result buf.new ≡ event.now ∷ [] }
    ensures bounded { IfOk result (λ got. IsWithin got buf.new) }
{
    match event {
        Event::Datagram(bytes) => {
            let bytes = bytes.as_slice();
            buf[..bytes.len()].copy_from_slice(bytes);
            Ok(Got::Datagram(bytes.len()))
        }
        Event::Quiet => Ok(Got::Quiet),
        Event::Fault => Err(Failed),
    }
}
