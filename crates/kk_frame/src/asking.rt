//! A gate that an intake asks for its events.
ghost use Rattle.std.specs.Prelude.{◌≡◌, ◌≢◌, ◌<◌, ◌≤◌, ◌++◌, ℕ, List, All, Some, IfSome, true, length};
ghost use Rattle.kk_outside.specs.Change.{change};
ghost use Rattle.kk_outside.specs.Gate.{GateTold, events_told};
ghost use Rattle.kk_outside.specs.declared.event.Event.{Event};
ghost use Rattle.kk_frame.specs.declared.gate_count.Ended.TheVariants as Ended;
ghost use Rattle.kk_frame.specs.Asking.{HasAsked, frames_of};
ghost use Rattle.kk_frame.specs.Frame.{Vector, IsFrame};
ghost use Rattle.kk_frame.specs.Intake.{is_running, calls_left};

use crate::{Batch, Intake};
use kk_code::Ticket;
use kk_outside::{GATE_BYTES, Gate, Got};

impl Intake {
    /// Takes the next answer of the gate, by this buffer. The answer is the data frames of a datagram, or `None` where no
    /// datagram came.
    pub fn ask<G: Gate>(
        &mut self,
        gate: &mut G,
        buf: &mut [u8; GATE_BYTES],
        ticket: &Ticket,
    ) -> Option<Batch>
        requires { is_running self.old ≡ true }
        ensures asked { (origin : GateTold) (events : List Event) (frames : List (ℕ × ℕ))
            → HasAsked ticket.now (change origin (G.told gate.old)) events frames self.old
            → HasAsked ticket.now (change origin (G.told gate.new))
            (events ++ events_told (change (G.told gate.old) (G.told gate.new))) (frames ++ frames_of result) self.new }
        ensures one { length (events_told (change (G.told gate.old) (G.told gate.new))) ≤ 1 }
        ensures no_fault { IfSome result (λ _. self.new.counts.ended ≢ Some Ended.Fault) }
        ensures in_range { IfSome result (λ batch. All (λ f. IsFrame ticket.now (Vector f.0 f.1)) batch) }
        ensures limits { self.new.limits ≡ self.old.limits }
        ensures sooner { calls_left self.new < calls_left self.old }
    {
        match gate.next(buf) {
            Ok(Got::Datagram(len)) => Some(self.datagram(&buf[..len], ticket)),
            Ok(Got::Quiet) => {
                self.quiet();
                None
            }
            Ok(Got::Over) => {
                self.over();
                None
            }
            Err(_) => {
                self.fault();
                None
            }
        }
    }
}
