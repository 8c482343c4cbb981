//! The rule by which the events of a gate become frames, and by which a gate ends.
ghost use Rattle.std.specs.Prelude.{◌≡◌, ◌≢◌, ℕ, ◌+◌, ◌*◌, ◌<◌, ◌≤◌, true, false, if◌then◌else◌, Some, None, IfSome, All, List, [], ◌∷◌, ◌++◌};
ghost use Rattle.kk_code.specs.Ticket.{TicketFields};
ghost use Rattle.kk_outside.specs.declared.event.Event.{Event};
ghost use Rattle.kk_outside.specs.declared.event.Event.TheVariants.{Datagram, Quiet, Fault};
ghost use Rattle.kk_frame.specs.Frame.{IsFrame, Vector};
ghost use Rattle.kk_frame.specs.FrameView.{frame_of};
ghost use Rattle.kk_frame.specs.declared.datagram.TheConstants.{MAX_DATAGRAM_FRAMES};
ghost use Rattle.kk_frame.specs.Datagram.{readings, data_frames};
ghost use Rattle.kk_frame.specs.Counting.{IsAtMost, IsCounted};
ghost use Rattle.kk_frame.specs.Events.{taken, counts, overs_to};
ghost use Rattle.kk_frame.specs.Intake.{IsIntake, IsAfter, is_running, calls_left};

use crate::gate_count::Refused;
use crate::received::Received;
use crate::{Batch, Ended, FRAME_BYTES, Frame, GateCount, Limits, read_frame};
use kk_code::Ticket;
use kk_rows::Row;
use std::marker::Model;

/// What a receiver keeps of the events of one gate. Each event is given to it once, in order, until it has ended; all
/// datagrams are read under the same ticket.
#[derive(Debug, Drop)]
pub struct Intake {
    limits: Limits,
    counts: GateCount,
    quiets: u32,
}

impl Model for Intake {
    ghost use Rattle.kk_frame.specs.Intake.{IntakeState, IsIntake};

    ghost Value = { IntakeState };

    ghost view = { λ i. record { limits = i.limits; counts = i.counts; quiets = i.quiets } };

    ghost invariant = { λ i. IsIntake (record { limits = i.limits; counts = i.counts; quiets = i.quiets }) };
}

/// Why a gate has ended with a datagram: an END was read of it, or it is the last one that is allowed.
fn ended_by(has_end: bool, is_last: bool) -> Option<Ended>
    ensures { result ≡ (if has_end then Some Ended.End else (if is_last then Some Ended.Most else None)) }
{
    if has_end {
        Some(Ended::End)
    } else if is_last {
        Some(Ended::Most)
    } else {
        None
    }
}

impl Intake {
    /// An intake that was given no event yet.
    pub fn new(limits: Limits) -> Intake
        requires idle { 1 ≤ limits.idle }
        requires most { 1 ≤ limits.most }
        ensures after { (t : TicketFields) → IsAfter t [] result }
        ensures limits { result.limits ≡ limits }
        ensures running { is_running result ≡ true }
        ensures calls { calls_left result ≡ (limits.most + 1) * limits.idle }
    {
        Intake {
            limits,
            counts: GateCount::NONE,
            quiets: 0,
        }
    }

    /// Whether it has not ended.
    pub fn runs(&self) -> bool
        ensures running { result ≡ is_running self.now }
        ensures intake { IsIntake self.now }
    {
        self.counts.ended.is_none()
    }

    /// Why the gate has ended, and the counts so far.
    pub fn counts(&self) -> GateCount
        ensures counts { result ≡ self.now.counts }
        ensures ended { (t : TicketFields) (events : List Event) → IsAfter t events self.now → is_running self.now ≡ false → result ≡ counts FRAME_BYTES t self.now.limits events }
    {
        self.counts
    }

    /// Counts a datagram of which so many data frames were read, and this was refused.
    #[inline(always)]
    fn count_datagram(&mut self, frames: usize, refused: &Refused, has_end: bool)
        requires running { is_running self.old ≡ true }
        requires few { frames ≤ MAX_DATAGRAM_FRAMES }
        requires refused { IsAtMost MAX_DATAGRAM_FRAMES refused.now }
        ensures after { (t : TicketFields) (events : List Event) (bytes : List ℕ) → IsAfter t events self.old
            → IsCounted FRAME_BYTES t bytes frames refused.now has_end → IsAfter t (events ++ Datagram bytes ∷ []) self.new }
        ensures ended { self.new.counts.ended ≢ Some Ended.Fault }
        ensures not_over { overs_to self.new.counts.ended ≡ 0 }
        ensures limits { self.new.limits ≡ self.old.limits }
        ensures sooner { calls_left self.new < calls_left self.old }
    {
        self.counts.datagrams += 1;
        self.counts.frames += frames as u64;
        self.counts.refused.add(refused);
        let is_last = self.counts.datagrams == u64::from(self.limits.most);
        self.counts.ended = ended_by(has_end, is_last);
        self.quiets = 0;
    }

    /// A datagram came. The answer is its data frames in order, up to its first END; pieces that are refused are left
    /// out and counted.
    pub fn datagram(&mut self, bytes: &[u8], ticket: &Ticket) -> Batch
        requires { is_running self.old ≡ true }
        ensures frames { result ≡ data_frames (readings FRAME_BYTES ticket.now bytes.now) }
        ensures in_range { All (λ f. IsFrame ticket.now (Vector f.0 f.1)) result }
        ensures after { (events : List Event) → IsAfter ticket.now events self.old → IsAfter ticket.now (events ++ Datagram bytes.now ∷ []) self.new }
        ensures taken { (events : List Event) → IsAfter ticket.now events self.old → taken FRAME_BYTES ticket.now self.old.limits (events ++ Datagram bytes.now ∷ []) ≡ taken FRAME_BYTES ticket.now self.old.limits events ++ result }
        ensures ended { self.new.counts.ended ≢ Some Ended.Fault }
        ensures not_over { overs_to self.new.counts.ended ≡ 0 }
        ensures limits { self.new.limits ≡ self.old.limits }
        ensures sooner { calls_left self.new < calls_left self.old }
    {
        let received = Received::of(bytes, ticket);
        self.count_datagram(received.batch.len(), &received.refused, received.has_end);
        received.batch
    }

    /// A datagram of one piece came. The answer is its data frame, where it is one: what [`Intake::datagram`] answers of it,
    /// without room for the frames of a longest datagram.
    pub fn piece(&mut self, bytes: &[u8; FRAME_BYTES], ticket: &Ticket) -> Option<(u32, Row)>
        requires { is_running self.old ≡ true }
        ensures frames { frame_of result ≡ data_frames (readings FRAME_BYTES ticket.now bytes.now) }
        ensures in_range { IfSome result (λ f. IsFrame ticket.now (Vector f.0 f.1.0)) }
        ensures after { (events : List Event) → IsAfter ticket.now events self.old → IsAfter ticket.now (events ++ Datagram bytes.now ∷ []) self.new }
        ensures taken { (events : List Event) → IsAfter ticket.now events self.old → taken FRAME_BYTES ticket.now self.old.limits (events ++ Datagram bytes.now ∷ []) ≡ taken FRAME_BYTES ticket.now self.old.limits events ++ frame_of result }
        ensures ended { self.new.counts.ended ≢ Some Ended.Fault }
        ensures not_over { overs_to self.new.counts.ended ≡ 0 }
        ensures limits { self.new.limits ≡ self.old.limits }
        ensures sooner { calls_left self.new < calls_left self.old }
    {
        match read_frame(bytes, ticket) {
            Ok(Frame::Vector { generation, row }) => {
                self.count_datagram(1, &Refused::NONE, false);
                Some((generation, row))
            }
            Ok(Frame::End) => {
                self.count_datagram(0, &Refused::NONE, true);
                None
            }
            Err(fault) => {
                let mut refused = Refused::NONE;
                refused.count(fault);
                self.count_datagram(0, &refused, false);
                None
            }
        }
    }

    /// No datagram came for a while.
    pub fn quiet(&mut self)
        requires { is_running self.old ≡ true }
        ensures after { (t : TicketFields) (events : List Event) → IsAfter t events self.old → IsAfter t (events ++ Quiet ∷ []) self.new }
        ensures taken { (t : TicketFields) (events : List Event) → IsAfter t events self.old → taken FRAME_BYTES t self.old.limits (events ++ Quiet ∷ []) ≡ taken FRAME_BYTES t self.old.limits events }
        ensures ended { self.new.counts.ended ≢ Some Ended.Fault }
        ensures not_over { overs_to self.new.counts.ended ≡ 0 }
        ensures limits { self.new.limits ≡ self.old.limits }
        ensures sooner { calls_left self.new < calls_left self.old }
    {
        self.quiets += 1;
        if self.quiets == self.limits.idle {
            self.counts.ended = Some(Ended::Idle);
        }
    }

    /// The gate failed.
    pub fn fault(&mut self)
        requires { is_running self.old ≡ true }
        ensures after { (t : TicketFields) (events : List Event) → IsAfter t events self.old → IsAfter t (events ++ Fault ∷ []) self.new }
        ensures taken { (t : TicketFields) (events : List Event) → IsAfter t events self.old → taken FRAME_BYTES t self.old.limits (events ++ Fault ∷ []) ≡ taken FRAME_BYTES t self.old.limits events }
        ensures ended { self.new.counts.ended ≡ Some Ended.Fault }
        ensures limits { self.new.limits ≡ self.old.limits }
        ensures sooner { calls_left self.new < calls_left self.old }
    {
        self.counts.ended = Some(Ended::Fault);
    }

    /// There are no more events.
    pub fn over(&mut self)
        requires { is_running self.old ≡ true }
        ensures counts { (t : TicketFields) (events : List Event) → IsAfter t events self.old → self.new.counts ≡ counts FRAME_BYTES t self.old.limits events }
        ensures ended { self.new.counts.ended ≡ Some Ended.Over }
        ensures limits { self.new.limits ≡ self.old.limits }
        ensures sooner { calls_left self.new < calls_left self.old }
    {
        self.counts.ended = Some(Ended::Over);
    }
}
