//! A sender.
ghost use Rattle.std.specs.Prelude.{◌≡◌, ◌↔◌, ◌+◌, ◌*◌, ◌≤◌, ℕ, Bool, Some, Err, length, IfOk, OnOk, OnErr, IfSome};
ghost use Rattle.kk_outside.specs.Causes.{CanCount};
ghost use Rattle.kk_outside.specs.Change.{change};
ghost use Rattle.kk_outside.specs.Source.{SourceFailed, bytes_read};
ghost use Rattle.kk_outside.specs.Outlet.{IsCutShort, OutletFailed, append_datagrams};
ghost use Rattle.kk_code.specs.Ticket.{generations};
ghost use Rattle.kk_frame.specs.declared.datagram.TheConstants.{MAX_DATAGRAM_FRAMES};
ghost use Rattle.kk_outside.specs.Generator.{after_words, word_at};
ghost use Rattle.kk_sender.specs.declared.rows.TheConstants.{MAX_EXTRA};
ghost use Rattle.kk_sender.specs.SentFrames.{sent_rows, data_frames, sent_datagrams};
ghost use Rattle.kk_sender.specs.LengthRule.{wrong_length, ReadsToLength, FailsWithinLength, LeavesAfterLength};

use crate::send::send_file;
use crate::{SendFault, Sent, read_file};
use kk_code::{Encoder, Ticket};
use kk_outside::{Alloc, Outlet, Room, Source};
use rand_core::Rng;
use std::alloc::Global;
use std::marker::Model;

/// All that a sender needs in memory: the encoder of its ticket's code, and room for the file and one byte more. It lends no
/// allocator, so nobody takes memory by it.
#[derive(Drop)]
pub struct Sender {
    ticket: Ticket,
    encoder: Encoder,
    room: Room,
}

// Clauses see the ticket.
impl Model for Sender {
    ghost use Rattle.std.specs.Prelude.{◌≡◌, ◌+◌, length};
    ghost use Rattle.kk_code.specs.Ticket.{TicketFields};

    ghost Value = { TicketFields };

    ghost view = { λ s. s.ticket };

    ghost invariant = { λ s. (s.encoder ≡ s.ticket.code) × (length s.room ≡ s.ticket.length + 1) };
}

impl Sender {
    /// A sender under this ticket. It takes all the memory that it needs.
    pub fn new(alloc: Global, ticket: &Ticket) -> Result<Sender, Alloc>
        ensures { IfOk result (λ sender. sender ≡ ticket.now) }
    {
        Ok(Sender {
            ticket: *ticket,
            encoder: Encoder::new(alloc, &ticket.code())?,
            room: Room::new(alloc, ticket.length() as usize + 1)?,
        })
    }

    /// Sends the file that the source has: per generation the rows of its codeword, and `extra` combinations of them by the
    /// words of the generator, as frames in datagrams of `frames_per_datagram`, across generations; and then END in a
    /// datagram of its own.
    ///
    /// The whole file is read before anything is sent.
    pub fn send_all<S: Source, R: Rng, O: Outlet>(
        &mut self,
        source: &mut S,
        rng: &mut R,
        extra: u32,
        frames_per_datagram: u32,
        outlet: &mut O,
    ) -> Result<Sent, SendFault>
        requires extra { extra ≤ MAX_EXTRA }
        requires some { 1 ≤ frames_per_datagram }
        requires few { frames_per_datagram ≤ MAX_DATAGRAM_FRAMES }

        // Which answer comes.
        ensures wrong_length { (got : ℕ) (more : Bool) → (result ≡ Err SendFault.Read → ⊥)
            → ((result ≡ Err (SendFault.Length got more)) ↔ (wrong_length self.old.length (length (bytes_read (change (S.told source.old) (S.told source.new)))) ≡ Some (got, more))) }
        ensures source_failed { CanCount (S.told source.old).faults
            → ((result ≡ Err SendFault.Read) ↔ SourceFailed (change (S.told source.old) (S.told source.new))) }
        ensures outlet_failed { CanCount (O.told outlet.old).faults
            → ((result ≡ Err SendFault.Outlet) ↔ OutletFailed (change (O.told outlet.old) (O.told outlet.new))) }

        // What was read of the source.
        ensures read { (result ≡ Err SendFault.Read → ⊥)
            → ReadsToLength self.old.length (change (S.told source.old) (S.told source.new)) }
        ensures failed_before { result ≡ Err SendFault.Read → FailsWithinLength self.old.length (change (S.told source.old) (S.told source.new)) }
        ensures remainder { (result ≡ Err SendFault.Read → ⊥)
            → IfSome (S.told source.old).left (λ bytes. LeavesAfterLength self.old.length bytes (change (S.told source.old) (S.told source.new))) }

        // What was sent.
        ensures sent { OnOk result ((O.told outlet.new).sends ≡ append_datagrams (O.told outlet.old).sends
            (sent_datagrams self.old (bytes_read (change (S.told source.old) (S.told source.new))) extra frames_per_datagram (word_at (R.stream rng.old)))) }
        ensures frames { IfOk result (λ sent. sent.frames ≡ length (data_frames
            (sent_rows self.old (bytes_read (change (S.told source.old) (S.told source.new))) extra (word_at (R.stream rng.old))) (generations self.old)) + 1) }
        ensures datagrams { IfOk result (λ sent. sent.datagrams ≡ length
            (sent_datagrams self.old (bytes_read (change (S.told source.old) (S.told source.new))) extra frames_per_datagram (word_at (R.stream rng.old)))) }
        ensures prefix { result ≡ Err SendFault.Outlet → IsCutShort (change (O.told outlet.old) (O.told outlet.new))
            (sent_datagrams self.old (bytes_read (change (S.told source.old) (S.told source.new))) extra frames_per_datagram (word_at (R.stream rng.old))) }
        ensures unsent { OnErr result ((result ≡ Err SendFault.Outlet → ⊥) → outlet.new ≡ outlet.old) }

        // What was drawn of the generator.
        ensures words { OnOk result (R.stream rng.new ≡ after_words (generations self.old * extra) (R.stream rng.old)) }
        ensures no_words { OnErr result ((result ≡ Err SendFault.Outlet → ⊥) → rng.new ≡ rng.old) }
        ensures ticket { self.new ≡ self.old }
    {
        read_file(source, self.room.as_mut_slice())?;
        let file = &self.room.as_slice()[..self.ticket.length() as usize];
        let Ok(()) = send_file(
            &self.ticket,
            &self.encoder,
            file,
            rng,
            extra,
            frames_per_datagram,
            outlet,
        ) else {
            return Err(SendFault::Outlet);
        };
        Ok(Sent::of(&self.ticket, extra, frames_per_datagram))
    }
}
