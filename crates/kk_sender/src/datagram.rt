//! The datagram that is being filled.
ghost use Rattle.std.specs.Prelude.{◌≡◌, ◌≤◌, List, [], ◌∷◌, ◌++◌, OnOk, OnErr};
ghost use Rattle.kk_outside.specs.Causes.{HasCause};
ghost use Rattle.kk_outside.specs.Change.{change};
ghost use Rattle.kk_outside.specs.Outlet.{OutletTold, append_datagrams};
ghost use Rattle.kk_code.specs.Ticket.{TicketFields};
ghost use Rattle.kk_frame.specs.Frame.{FrameValue, IsFrame};
ghost use Rattle.kk_frame.specs.FrameView.{value};
ghost use Rattle.kk_sender.specs.SentFrames.{datagrams_of};
ghost use Rattle.kk_sender.specs.Sending.{IsPending, IsCut};

use arrayvec::ArrayVec;
use kk_code::Ticket;
use kk_frame::{Frame, MAX_DATAGRAM_FRAMES, frame_bytes};
use kk_outside::{Failed, MAX_DATAGRAM_BYTES, Outlet};
use std::marker::Model;

/// Frames that wait until there are as many as a datagram has. Clauses see how many these are, how many wait, and the bytes
/// of those that wait.
#[derive(Drop)]
pub(crate) struct Datagram {
    frames_per_datagram: usize,
    frames: usize,
    bytes: ArrayVec<u8, MAX_DATAGRAM_BYTES>,
}

impl Model for Datagram {
    ghost use Rattle.std.specs.Prelude.{◌≡◌, ◌*◌, ◌<◌, ◌≤◌, length};
    ghost use Rattle.kk_frame.specs.declared.frame.TheConstants.{FRAME_BYTES};
    ghost use Rattle.kk_frame.specs.declared.datagram.TheConstants.{MAX_DATAGRAM_FRAMES};
    ghost use Rattle.kk_sender.specs.Sending.{DatagramState};

    ghost Value = { DatagramState };

    ghost view = { λ d. record { frames_per_datagram = d.frames_per_datagram; frames = d.frames; bytes = d.bytes.items } };

    ghost invariant = { λ d. (d.frames < d.frames_per_datagram) × (d.frames_per_datagram ≤ MAX_DATAGRAM_FRAMES) × (length d.bytes.items ≡ FRAME_BYTES * d.frames) };
}

impl Datagram {
    /// A datagram of `frames_per_datagram` frames, of which none is there yet.
    pub(crate) fn new(frames_per_datagram: u32) -> Datagram
        requires some { 1 ≤ frames_per_datagram }
        requires few { frames_per_datagram ≤ MAX_DATAGRAM_FRAMES }
        ensures { result ≡ record { frames_per_datagram = frames_per_datagram; frames = 0; bytes = [] } }
    {
        Datagram {
            frames_per_datagram: frames_per_datagram as usize,
            frames: 0,
            bytes: ArrayVec::new(),
        }
    }

    /// Adds a frame, and sends the datagram where it has all its frames then.
    pub(crate) fn push<O: Outlet>(
        &mut self,
        frame: &Frame,
        ticket: &Ticket,
        outlet: &mut O,
    ) -> Result<(), Failed>
        requires { IsFrame ticket.now (value frame.now) }
        ensures pending { OnOk result ((start : OutletTold) (frames : List FrameValue)
            → IsPending ticket.now (change start (O.told outlet.old)) self.old frames
            → IsPending ticket.now (change start (O.told outlet.new)) self.new (frames ++ value frame.now ∷ [])) }
        ensures cut { OnErr result ((start : OutletTold) (frames : List FrameValue)
            → IsPending ticket.now (change start (O.told outlet.old)) self.old frames
            → IsCut ticket.now self.old.frames_per_datagram (change start (O.told outlet.new)) (frames ++ value frame.now ∷ [])) }
        ensures cause { HasCause (O.told outlet.old).faults (O.told outlet.new).faults result }
        ensures frames_per_datagram { self.new.frames_per_datagram ≡ self.old.frames_per_datagram }
    {
        let text = frame_bytes(frame, ticket);
        self.bytes.try_extend_from_slice(&text).unwrap();
        self.frames += 1;
        if self.frames < self.frames_per_datagram {
            return Ok(());
        }
        let sent = outlet.send(self.bytes.as_slice());
        self.bytes.clear();
        self.frames = 0;
        sent
    }

    /// Sends the frames that wait, where there are some.
    pub(crate) fn finish<O: Outlet>(self, outlet: &mut O) -> Result<(), Failed>
        ensures all { OnOk result ((start : OutletTold) (frames : List FrameValue) (t : TicketFields)
            → IsPending t (change start (O.told outlet.old)) self frames
            → (O.told outlet.new).sends ≡ append_datagrams start.sends (datagrams_of t self.frames_per_datagram frames)) }
        ensures cut { OnErr result ((start : OutletTold) (frames : List FrameValue) (t : TicketFields)
            → IsPending t (change start (O.told outlet.old)) self frames
            → IsCut t self.frames_per_datagram (change start (O.told outlet.new)) frames) }
        ensures cause { HasCause (O.told outlet.old).faults (O.told outlet.new).faults result }
    {
        if self.frames == 0 {
            return Ok(());
        }
        outlet.send(self.bytes.as_slice())
    }
}
