//! The bits of messages, read one after another.
ghost use Rattle.std.specs.Prelude.{◌≡◌, ◌+◌, ◌*◌, ◌<◌, ◌^◌, [], All, IfSome, slice_index};
ghost use Rattle.std.specs.List.{slice_index_or};
ghost use Rattle.kk_code.specs.Codeword.{IsInRange, IsMessage};
ghost use Rattle.kk_assemble.specs.FileBits.{message_bit, number_from};
ghost use Rattle.kk_assemble.specs.Messages.{messages_or_empty};

use crate::bit_queue::BitQueue;
use kk_code::{Code, Message};
use std::marker::Model;

/// A symbol among those of all messages.
#[derive(Clone, Copy)]
struct Place {
    message: usize,
    symbol: usize,
}

impl Place {
    /// The next symbol, where each message has `k`.
    fn next(self, k: usize) -> Self
        requires symbol { self.symbol < k }
        requires fits { self.message + 1 < 2 ^ 64 }
        ensures below { result.symbol < k }
        ensures next { result.message * k + result.symbol ≡ self.message * k + self.symbol + 1 }
    {
        if self.symbol + 1 < k {
            Place {
                message: self.message,
                symbol: self.symbol + 1,
            }
        } else {
            Place {
                message: self.message + 1,
                symbol: 0,
            }
        }
    }
}

/// The symbol at this place, and 0 after the last message.
fn symbol_at(answers: &[Option<Message>], place: Place) -> u64
    ensures { result ≡ slice_index (slice_index_or (messages_or_empty answers.now) place.message []) place.symbol }
{
    match answers.get(place.message) {
        Some(Some(message)) => match message.symbols().get(place.symbol) {
            Some(&symbol) => symbol,
            None => 0,
        },
        _ => 0,
    }
}

/// A place in messages, with the bits from there on. After the last message they are zeros.
#[derive(Drop)]
pub(crate) struct MessageBits<'a> {
    answers: &'a [Option<Message>],
    code: Code,
    next: Place,
    queue: BitQueue,
}

impl<'a> Model for MessageBits<'a> {
    ghost use Rattle.std.specs.Prelude.{◌-◌, length};
    ghost use Rattle.kk_assemble.specs.Messages.{messages_or_empty};
    ghost use Rattle.kk_assemble.specs.Bits.{MessagePlace, AreReadAhead, first_bit};

    ghost Value = { MessagePlace };

    ghost view = { λ b. record { code = b.code; messages = messages_or_empty b.answers.now; at = first_bit b.code b.next.message b.next.symbol - length b.queue } };

    ghost invariant = { λ b. AreReadAhead b.code b.answers.now b.next.message b.next.symbol b.queue };
}

impl<'a> MessageBits<'a> {
    /// The bits of the messages from the first on.
    pub(crate) fn new(answers: &'a [Option<Message>], code: Code) -> Self
        requires in_range { IsInRange code }
        requires messages { All (λ answer. IfSome answer (IsMessage code)) answers.now }
        ensures { result ≡ record { code = code; messages = messages_or_empty answers.now; at = 0 } }
    {
        MessageBits {
            answers,
            code,
            next: Place {
                message: 0,
                symbol: 0,
            },
            queue: BitQueue::new(),
        }
    }

    /// The number that the next 64 bits make.
    pub(crate) fn word(&mut self) -> u64
        requires { self.old.at < 2 ^ 60 }
        ensures number { result ≡ number_from (message_bit self.old.code self.old.messages) self.old.at 64 }
        ensures place { self.new ≡ record { code = self.old.code; messages = self.old.messages; at = self.old.at + 64 } }
    {
        let m = self.code.m();
        let k = self.code.k() as usize;
        while self.queue.len() < 64 {
            self.queue.push(symbol_at(self.answers, self.next), m);
            self.next = self.next.next(k);
        }
        self.queue.take(64)
    }
}
