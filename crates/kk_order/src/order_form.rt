//! The form of an order.
ghost use Rattle.std.specs.Prelude.{◌≡◌, ◌⊎◌, ◌+◌, ◌≤◌, Ok, Err, IfOk, IfErr, IfSome, IsSome, IsTrue, length, option_map, string_bytes};
ghost use Rattle.std.specs.List.{list_any};
ghost use Rattle.clap.specs.Walk.{Text};
ghost use Rattle.kk_code.specs.TicketText.{IsTicket, ticket_of};
ghost use Rattle.kk_code.specs.declared.fault.TicketFault.{TicketFault};
ghost use Rattle.kk_forms.specs.Form.{argument_of, form_of};
ghost use Rattle.kk_forms.specs.Request.{HasTexts, has_option, has_sure_number, is_named, is_option, under};
ghost use Rattle.kk_report.specs.Command.{texts};
ghost use Rattle.kk_order.specs.Order.{AreKept, Cause, FitsLine, IsRefusedFor, is_sound, cause_of, first_broken, has_too_many, lacks_seed, order_form_of, order_of, parts_text, seed_name, ticket_text_in};
ghost use Rattle.kk_order.specs.declared.fault.OrderFault.TheVariants as why;
ghost use Rattle.kk_order.specs.declared.order_form.TicketPlace.TheVariants.{First};

use crate::bound::{Bound, first_broken_bound};
use crate::fault::OrderFault;
use crate::order::Order;
use crate::words::seed_in;
use kk_code::Ticket;
use kk_forms::{Argument, Form, Request, WordsFault};
use std::alloc::{AllocError, Global};

/// The long name of the option of a seed.
const SEED: &str = "seed";

/// Where the text of the ticket stands.
#[derive(Clone, Copy, Debug, PartialEq, Eq)]
pub enum TicketPlace {
    /// It is the first of the texts.
    First,
    /// The texts are its parts, without the mark and the length, which is 0.
    Parts,
}

/// The form of an order: which words a command takes, and what they have to keep.
#[derive(Clone, Copy, Debug)]
pub struct OrderForm {
    /// The words.
    pub words: Form,
    /// Where the text of the ticket stands among their texts.
    pub ticket: TicketPlace,
    /// The ranges of the numbers, in the order in which they are told.
    pub bounds: &'static [Bound],
    /// How many texts follow the ticket's at most, if there is a limit.
    pub listeners: Option<u32>,
}

impl OrderForm {
    /// The order in the words. `words` are those of the command line, without the program's name.
    ///
    /// # Errors
    ///
    /// The first of these that holds: the words are not of the form, the text of the ticket is none, the seed is none, a number
    /// is out of its range, there are too many addresses. And `Memory`, to words whose first is the form's name.
    pub fn read(&self, alloc: Global, words: &[String]) -> Result<Order, OrderFault>
        requires { IsTrue (is_sound (order_form_of self.now)) }
        ensures ordered { IfOk result (λ order. order_of (order_form_of self.now) (texts words.now) ≡ Ok order) }
        ensures refused { IfErr result (λ fault. IsRefusedFor (order_of (order_form_of self.now) (texts words.now)) (cause_of fault)) }
        ensures memory { result ≡ Err why.Memory → IsTrue (is_named (form_of self.now.words) (texts words.now)) }
        ensures line { IfErr result (λ fault. FitsLine (cause_of fault)) }

        // Each word has a text, at most so many after the ticket's, which is one; the seed is there, where the form has one, and so is each
        // number that has a default or is a word; and each number that is there lies in its range.
        ensures ticket { IfOk result (λ order. IsTicket order.ticket) }
        ensures texts { IfOk result (λ order. HasTexts (form_of self.now.words) (length order.texts)) }
        ensures listeners { IfOk result (λ order. IfSome self.now.listeners (λ n. length order.texts ≤ n + 1)) }
        ensures seed { IfOk result (λ order. IsTrue (has_option (form_of self.now.words) seed_name) → IsSome order.seed) }
        ensures numbers { IfOk result (λ order. (name : Text) → IsTrue (has_sure_number (form_of self.now.words) name) → IsSome (under order.numbers name)) }
        ensures bounds { IfOk result (λ order. AreKept order (order_form_of self.now).bounds) }
    {
        let request = match self.words.read(alloc, words) {
            Ok(request) => request,
            Err(WordsFault::Words) => return Err(OrderFault::Words),
            Err(WordsFault::Alloc) => return Err(OrderFault::Memory),
        };
        let ticket = match self.ticket_in(alloc, &request) {
            Ok(ticket) => ticket,
            Err(fault) => return Err(fault),
        };
        let seed = seed_in(request.option(SEED));
        let order = Order::new(ticket, seed, request);
        match self.first_broken(&order) {
            Some(fault) => Err(fault),
            None => Ok(order),
        }
    }

    /// The ticket among the texts of the words.
    fn ticket_in(&self, alloc: Global, request: &Request) -> Result<Ticket, OrderFault>
        ensures read { IfOk result (λ t. ticket_of (ticket_text_in self.now.ticket request.now.texts) ≡ Ok t) }
        ensures ticket { IfOk result IsTicket }
        ensures refused { IfErr result (λ fault. (fault ≡ why.Memory)
            ⊎ ((wrong : TicketFault) × (fault ≡ why.Ticket wrong) × (ticket_of (ticket_text_in self.now.ticket request.now.texts) ≡ Err wrong))) }
    {
        match self.ticket {
            TicketPlace::First => ticket_of(first_text(request)),
            TicketPlace::Parts => ticket_of(parts_text(alloc, request)?.as_str()),
        }
    }

    /// What the order breaks first of its form.
    fn first_broken(&self, order: &Order) -> Option<OrderFault>
        ensures { option_map cause_of result ≡ first_broken (order_form_of self.now) order.now }
    {
        if self.lacks_seed(order) {
            return Some(OrderFault::Seed);
        }
        if let Some(bound) = first_broken_bound(self.bounds, order) {
            return Some(OrderFault::Range(bound.name));
        }
        if self.has_too_many(order) {
            return Some(OrderFault::Listen);
        }
        None
    }

    /// Whether the form has a seed, and the order has none.
    fn lacks_seed(&self, order: &Order) -> bool
        ensures { result ≡ lacks_seed (order_form_of self.now) order.now }
    {
        self.has_seed() && order.seed().is_none()
    }

    /// Whether the form has a seed.
    fn has_seed(&self) -> bool
        ensures { result ≡ list_any (λ argument. is_option seed_name (argument_of argument)) self.now.words.arguments.now }
    {
        self.words.arguments.iter().any(
            |argument|
                ensures { result ≡ is_option seed_name (argument_of argument.now) }
            { is_seed(argument) },
        )
    }

    /// Whether more addresses follow the ticket than the form has listeners.
    fn has_too_many(&self, order: &Order) -> bool
        ensures { result ≡ has_too_many self.now.listeners order.now }
    {
        match self.listeners {
            Some(listeners) => order.texts() > listeners as usize + 1,
            None => false,
        }
    }
}

/// Whether the argument is the option of a seed.
fn is_seed(argument: &Argument) -> bool
    ensures { result ≡ is_option seed_name (argument_of argument.now) }
{
    match argument {
        Argument::TextOption(name) => *name == SEED,
        _ => false,
    }
}

/// The first of the texts, or no characters where there is none.
fn first_text(request: &Request) -> &str
    ensures { result.now ≡ ticket_text_in First request.now.texts }
{
    if request.texts() == 0 {
        return "";
    }
    request.text(0)
}

/// The texts as that of a ticket, with the length 0.
fn parts_text(alloc: Global, request: &Request) -> Result<String, AllocError>
    ensures { IfOk result (λ text. string_bytes text ≡ parts_text request.now.texts) }
{
    let mut text = String::from_str(alloc, "kk1")?;
    for i in 0..request.texts() {
        text.push_str(":")?;
        text.push_str(request.text(i))?;
    }
    text.push_str(":0")?;
    Ok(text)
}

/// The ticket that a text is.
fn ticket_of(text: &str) -> Result<Ticket, OrderFault>
    ensures read { IfOk result (λ t. ticket_of text.now ≡ Ok t) }
    ensures ticket { IfOk result IsTicket }
    ensures refused { IfErr result (λ fault. (wrong : TicketFault) × (fault ≡ why.Ticket wrong) × (ticket_of text.now ≡ Err wrong)) }
{
    match Ticket::read(text) {
        Ok(ticket) => Ok(ticket),
        Err(fault) => Err(OrderFault::Ticket(fault)),
    }
}
