//! A packing that was opened, and its run.
ghost use Rattle.std.specs.Prelude.{◌≡◌, ◌⊎◌, ◌↔◌, ◌<◌, ℕ, List, length, IfOk, IfErr};
ghost use Rattle.arrayvec.specs.ArrayString.{array_string_len};
ghost use Rattle.kk_outside.specs.Causes.{CanCount};
ghost use Rattle.kk_outside.specs.Change.{change};
ghost use Rattle.kk_outside.specs.Sink.{SinkFailed, WasGiven};
ghost use Rattle.kk_sender.specs.SentFrames.{packed};
ghost use Rattle.kk_report.specs.Command.{texts, IsRefusalOfWords, RanThrough};
ghost use Rattle.kk_order.specs.Order.{FitsLine, IsRefusedFor, cause_of, order_of};
ghost use Rattle.kk_run_pack.specs.Pack.{NamesTicket, Packs, frames_line, pack_form, refusal_of};

use crate::PACK;
use crate::capture::write_capture;
use kk_code::{Encoder, Ticket};
use kk_order::OrderFault;
use kk_outside::{Room, Sink, Source};
use kk_report::{Line, Refusal, Status, conclude, numbered, refuse};
use kk_sender::{FileFault, capture_frames, read_file};
use std::alloc::Global;
use std::marker::Model;

/// A packing that was opened: its ticket, the encoder of its code, and room for its file and one byte more. It holds
/// nothing that lends an allocator, so its run takes no memory.
#[derive(Drop)]
pub struct Packing {
    ticket: Ticket,
    encoder: Encoder,
    room: Room,
}

// Clauses see the ticket.
impl Model for Packing {
    ghost use Rattle.std.specs.Prelude.{◌≡◌, ◌+◌, length};
    ghost use Rattle.kk_code.specs.Ticket.{TicketFields};

    ghost Value = { TicketFields };

    ghost view = { λ p. p.ticket };

    ghost invariant = { λ p. (p.encoder ≡ p.ticket.code) × (length p.room ≡ p.ticket.length + 1) };
}

impl Packing {
    /// Opens a packing by the order in the words. All memory is taken here.
    ///
    /// # Errors
    ///
    /// Why the words are refused: the first cause of [`OrderForm::read`](kk_order::OrderForm::read). And `Memory`, to any
    /// words.
    pub fn open(alloc: Global, words: &[String]) -> Result<Packing, OrderFault>
        ensures asked { IfOk result (NamesTicket (texts words.now)) }
        ensures refused { IfErr result (λ fault. IsRefusedFor (order_of pack_form (texts words.now)) (cause_of fault)) }
        ensures line { IfErr result (λ fault. FitsLine (cause_of fault)) }
    {
        let order = match PACK.read(alloc, words) {
            Ok(order) => order,
            Err(fault) => return Err(fault),
        };
        let ticket = *order.ticket();
        let Ok(encoder) = Encoder::new(alloc, &ticket.code()) else {
            return Err(OrderFault::Memory);
        };
        let Ok(room) = Room::new(alloc, ticket.length() as usize + 1) else {
            return Err(OrderFault::Memory);
        };
        Ok(Packing {
            ticket,
            encoder,
            room,
        })
    }

    /// Reads the file by the ticket's length, and writes the rows of all its codewords as frames, and END. The answer is the
    /// status, which the report tells too.
    pub fn run<S: Source, K: Sink, P: Sink>(
        self,
        source: &mut S,
        file: &mut K,
        report: &mut P,
    ) -> u8
        ensures packs { (words : List (List ℕ)) → NamesTicket words self → Packs words (change (S.told source.old) (S.told source.new))
            (change (K.told file.old) (K.told file.new)) (change (P.told report.old) (P.told report.new)) result }
        ensures accepted { IsRefusalOfWords result → ⊥ }
        ensures unwritten { (RanThrough result → ⊥) → file.new ≡ file.old }
    {
        let Packing {
            ticket,
            encoder,
            mut room,
        } = self;
        if let Err(fault) = read_file(source, room.as_mut_slice()) {
            return refuse(refusal_of(fault), report);
        }
        let bytes = &room.as_slice()[..ticket.length() as usize];
        let status = pack(&ticket, &encoder, bytes, file);
        conclude(status, frames_line(&ticket).as_str(), report)
    }
}

/// Writes the capture of a file that is in memory.
fn pack<K: Sink>(ticket: &Ticket, encoder: &Encoder, bytes: &[u8], file: &mut K) -> Status
    requires encoder { encoder.now ≡ ticket.now.code }
    requires whole { length bytes.now ≡ ticket.now.length }
    ensures given { WasGiven (packed ticket.now bytes.now) (change (K.told file.old) (K.told file.new)) }
    ensures status { (result ≡ Status.Done) ⊎ (result ≡ Status.OutputFault) }
    ensures five { CanCount (K.told file.old).faults → ((result ≡ Status.OutputFault) ↔ SinkFailed (change (K.told file.old) (K.told file.new))) }
{
    match write_capture(ticket, encoder, bytes, file) {
        Ok(()) => Status::Done,
        Err(_) => Status::OutputFault,
    }
}

/// The line that tells how many frames the capture has.
fn frames_line(ticket: &Ticket) -> Line
    ensures text { (file : List ℕ) → result.bytes ≡ frames_line ticket.now file }
    ensures short { array_string_len result < 64 }
{
    let mut line = numbered("frames ", capture_frames(ticket));
    line.push_str("\n");
    line
}

/// Why a file isn't packed, by why it isn't read.
fn refusal_of(fault: FileFault) -> Refusal
    ensures { result ≡ refusal_of fault }
{
    match fault {
        FileFault::Read => Refusal::Input,
        FileFault::Length { got, more } => Refusal::Length { got, more },
    }
}
