//! The file that messages make.
ghost use Rattle.std.specs.Prelude.{◌≡◌, ◌↔◌, length, All, IfSome, IsSome, IsTrue, Some, None};
ghost use Rattle.std.specs.Bool.{OnTrue, OnFalse};
ghost use Rattle.std.specs.Option.{option_map};
ghost use Rattle.kk_code.specs.Codeword.{IsMessage};
ghost use Rattle.kk_code.specs.Ticket.{generations};
ghost use Rattle.kk_assemble.specs.FileBits.{joined};
ghost use Rattle.kk_assemble.specs.Messages.{all_messages};

use crate::message_bits::MessageBits;
use kk_code::{Message, Ticket};

/// Whether every answer is a message.
fn is_complete(answers: &[Option<Message>]) -> bool
    ensures { IsTrue result ↔ All IsSome answers.now }
{
    answers.iter().all(|answer| answer.is_some())
}

/// Writes the file that the messages make, where every generation has one, and else answers false and writes nothing.
pub fn join(answers: &[Option<Message>], ticket: &Ticket, out: &mut [u8]) -> bool
    requires one_each { length answers.now ≡ generations ticket.now }
    requires messages { All (λ answer. IfSome answer (IsMessage ticket.now.code)) answers.now }
    requires room { length out.old ≡ ticket.now.length }

    ensures all { IsTrue result ↔ All IsSome answers.now }
    ensures file { OnTrue result (option_map (joined ticket.now.code ticket.now.length) (all_messages answers.now) ≡ Some out.new) }
    ensures missing { OnFalse result (all_messages answers.now ≡ None) }
    ensures unchanged { OnFalse result (out.new ≡ out.old) }
{
    if !is_complete(answers) {
        return false;
    }
    let mut bits = MessageBits::new(answers, ticket.code());
    let words = out.len() / 8;
    for i in 0..words {
        out[8 * i..8 * i + 8].copy_from_slice(&bits.word().to_be_bytes());
    }
    let last = bits.word().to_be_bytes();
    let end = out.len() % 8;
    out[8 * words..].copy_from_slice(&last[..end]);
    true
}
