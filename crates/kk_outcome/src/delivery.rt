//! The file, from the answers to its sink.
ghost use Rattle.std.specs.Prelude.{◌≡◌, [], Some, All, IfOk, IfSome, length};
ghost use Rattle.kk_outside.specs.Change.{change};
ghost use Rattle.kk_code.specs.Codeword.{IsMessage};
ghost use Rattle.kk_code.specs.Ticket.{generations};
ghost use Rattle.kk_code.specs.TicketText.{IsTicket};
ghost use Rattle.kk_outcome.specs.Answers.{file_of};
ghost use Rattle.kk_report.specs.Command.{RanThrough};
ghost use Rattle.kk_outcome.specs.Delivery.{IsDelivered};
ghost use Rattle.kk_report.specs.Status.{code_of};

use kk_assemble::join;
use kk_code::{Message, Ticket};
use kk_outside::{Alloc, Room, Sink, write_all};
use kk_report::Status;
use std::alloc::Global;

/// Puts the file together in `bytes`, where each generation has an answer, and writes it to its sink.
pub fn deliver<K: Sink>(
    answers: &[Option<Message>],
    ticket: &Ticket,
    bytes: &mut [u8],
    file: &mut K,
) -> Status
    requires one_each { length answers.now ≡ generations ticket.now }
    requires messages { All (λ a. IfSome a (IsMessage ticket.now.code)) answers.now }
    requires room { length bytes.old ≡ ticket.now.length }
    ensures delivered { IsDelivered (file_of ticket.now answers.now) (code_of result) (change (K.told file.old) (K.told file.new)) }
    ensures unwritten { (RanThrough (code_of result) → ⊥) → file.new ≡ file.old }
    ensures no_bytes { file_of ticket.now answers.now ≡ Some [] → file.new ≡ file.old }
{
    if !join(answers, ticket, bytes) {
        return Status::NotDecoded;
    }
    match write_all(file, bytes) {
        Ok(()) => Status::Done,
        Err(_) => Status::OutputFault,
    }
}

/// Room for the bytes of the file.
pub fn room_of(alloc: Global, ticket: &Ticket) -> Result<Room, Alloc>
    ensures len { IfOk result (λ room. length room ≡ ticket.now.length) }
    ensures ticket { IsTicket ticket.now }
{
    Room::new(alloc, ticket.length() as usize)
}
