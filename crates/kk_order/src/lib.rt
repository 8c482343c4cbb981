//! What the words ask of a command: its ticket, its seed, its numbers and their ranges. For the commands alone.
#![tactic(auto)]

mod bound;
mod fault;
mod order;
mod order_form;
mod refuse;
mod words;

pub use bound::{Bound, Limit, MAX_NAME_BYTES};
pub use fault::OrderFault;
pub use order::Order;
pub use order_form::{OrderForm, TicketPlace};
pub use refuse::refuse_words;
pub use words::{DATAGRAMS_LIMIT, QUIETS_LIMIT, seed_in};

#[cfg(test)]
mod tests;
