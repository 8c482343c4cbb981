//! What a command is to do.
ghost use Rattle.std.specs.Prelude.{◌≡◌, ◌<◌, length, slice_get, Some};
ghost use Rattle.kk_forms.specs.Request.{under};

use kk_code::Ticket;
use kk_forms::Request;
use std::marker::Model;

/// What a command is to do by its words. It owns its texts.
#[derive(Drop)]
pub struct Order {
    ticket: Ticket,
    seed: Option<[u8; 32]>,
    /// The texts and the numbers.
    request: Request,
}

impl Model for Order {
    ghost use Rattle.kk_order.specs.Order.{Order as Ordered};

    ghost Value = { Ordered };

    ghost view = { λ o. record {
      ticket = o.ticket;
      texts = o.request.texts;
      seed = o.seed;
      numbers = o.request.numbers;
    } };
}

impl Order {
    pub(crate) fn new(ticket: Ticket, seed: Option<[u8; 32]>, request: Request) -> Order
        ensures { result ≡ record { ticket = ticket; texts = request.texts; seed = seed; numbers = request.numbers } }
    {
        Order {
            ticket,
            seed,
            request,
        }
    }

    /// The ticket.
    pub fn ticket(&self) -> &Ticket
        ensures { result.now ≡ self.now.ticket }
    {
        &self.ticket
    }

    /// How many texts there are.
    pub fn texts(&self) -> usize
        ensures { result ≡ length self.now.texts }
    {
        self.request.texts()
    }

    /// Text `i`: of the words after the first that are no numbers, the one at place `i`.
    pub fn text(&self, i: usize) -> &str
        requires { i < length self.now.texts }
        ensures { slice_get self.now.texts i ≡ Some result.now }
    {
        self.request.text(i)
    }

    /// The seed, which is there where the form has the option `seed`.
    pub fn seed(&self) -> Option<[u8; 32]>
        ensures { result ≡ self.now.seed }
    {
        self.seed
    }

    /// The number of this name: the one that was given, or its default.
    pub fn number(&self, name: &str) -> Option<u64>
        ensures { result ≡ under self.now.numbers name.now }
    {
        self.request.number(name)
    }
}
