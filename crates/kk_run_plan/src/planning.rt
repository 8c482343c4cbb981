//! A plan that was opened, and its run.
ghost use Rattle.std.specs.Prelude.{◌≡◌, ◌⊎◌, ◌↔◌, ◌++◌, ℕ, List, codes, IfOk, IfErr};
ghost use Rattle.kk_outside.specs.Causes.{CanCount};
ghost use Rattle.kk_outside.specs.Change.{change};
ghost use Rattle.kk_outside.specs.Sink.{SinkFailed, WasGiven};
ghost use Rattle.kk_code.specs.Ticket.{ticket_text};
ghost use Rattle.kk_report.specs.Command.{texts, RanThrough};
ghost use Rattle.kk_report.specs.Status.{code_of};
ghost use Rattle.kk_order.specs.Order.{FitsLine, IsRefusedFor, cause_of, order_of};
ghost use Rattle.kk_run_plan.specs.Plan.{NamesTicket, Plans, plan_form};

use crate::PLAN;
use kk_code::Ticket;
use kk_order::{OrderFault, refuse_words};
use kk_outside::{Room, Sink, Source, fill, write_all};
use kk_report::{Lines, Refusal, Status, conclude, refuse};
use std::alloc::Global;
use std::marker::Model;

/// A plan that was opened: its ticket, without a length, and room for the longest file and one byte more. It holds nothing
/// that lends an allocator, so its run takes no memory.
#[derive(Drop)]
pub struct Planning {
    ticket: Ticket,
    room: Room,
}

// Clauses see the ticket.
impl Model for Planning {
    ghost use Rattle.std.specs.Prelude.{◌^◌, ◌≤◌, length};
    ghost use Rattle.kk_code.specs.Ticket.{TicketFields};
    ghost use Rattle.kk_run_plan.specs.Plan.{IsFirstTooLong};

    ghost Value = { TicketFields };

    ghost view = { λ p. p.ticket };

    ghost invariant = { λ p. IsFirstTooLong p.ticket (length p.room) × (length p.room ≤ 2 ^ 22) };
}

impl Planning {
    /// Opens a plan by the order in the words. All memory is taken here.
    ///
    /// # Errors
    ///
    /// Why the words are refused: the first cause of [`OrderForm::read`](kk_order::OrderForm::read). And `Memory`, to any
    /// words.
    pub fn open(alloc: Global, words: &[String]) -> Result<Planning, OrderFault>
        ensures asked { IfOk result (NamesTicket (texts words.now)) }
        ensures refused { IfErr result (λ fault. IsRefusedFor (order_of plan_form (texts words.now)) (cause_of fault)) }
        ensures line { IfErr result (λ fault. FitsLine (cause_of fault)) }
    {
        let order = match PLAN.read(alloc, words) {
            Ok(order) => order,
            Err(fault) => return Err(fault),
        };
        let ticket = *order.ticket();
        let Ok(room) = Room::new(alloc, ticket.max_length() as usize + 1) else {
            return Err(OrderFault::Memory);
        };
        Ok(Planning { ticket, room })
    }

    /// Reads the source to its end, and writes the ticket of a file of that length and a line feed. The answer is the
    /// status, which the report tells too.
    pub fn run<S: Source, K: Sink, P: Sink>(
        self,
        source: &mut S,
        file: &mut K,
        report: &mut P,
    ) -> u8
        ensures plans { (words : List (List ℕ)) → NamesTicket words self → Plans words (change (S.told source.old) (S.told source.new))
            (change (K.told file.old) (K.told file.new)) (change (P.told report.old) (P.told report.new)) result }
        ensures accepted { (result ≡ 1) ⊎ ((result ≡ 8) ⊎ (result ≡ 11)) → ⊥ }
        ensures unwritten { (RanThrough result → ⊥) → file.new ≡ file.old }
    {
        let Planning { ticket, mut room } = self;
        let Ok(count) = fill(source, room.as_mut_slice()) else {
            return refuse(Refusal::Input, report);
        };
        match ticket.with_length(count as u64) {
            Ok(planned) => conclude(write_ticket(&planned, file), "", report),
            Err(fault) => refuse_words(OrderFault::Ticket(fault), report),
        }
    }
}

/// Writes the ticket and a line feed.
fn write_ticket<K: Sink>(ticket: &Ticket, file: &mut K) -> Status
    ensures given { WasGiven (ticket_text ticket.now ++ codes "\n") (change (K.told file.old) (K.told file.new)) }
    ensures status { RanThrough (code_of result) }
    ensures five { CanCount (K.told file.old).faults → ((code_of result ≡ 5) ↔ SinkFailed (change (K.told file.old) (K.told file.new))) }
{
    let mut text = Lines::new();
    text.push_str(ticket.write().as_str());
    text.push_str("\n");
    match write_all(file, text.as_str().as_bytes()) {
        Ok(()) => Status::Done,
        Err(_) => Status::OutputFault,
    }
}
