//! The code of Kötter and Kschischang, its tickets and its encoder.
#![tactic(auto)]

mod bad_params;
mod code;
mod encoder;
mod encoding;
mod fault;
pub mod laws;
mod message;
mod metric;
mod modulus;
mod multiples;
mod parts;
mod rows;
mod terms;
mod ticket;
mod writing;

pub use bad_params::BadParams;
pub use code::{Code, MAX_POINTS};
pub use encoder::Encoder;
pub use encoding::{encode, encode_with};
pub use fault::TicketFault;
pub use message::Message;
pub use metric::distance;
pub use modulus::{NotIrreducible, check_modulus};
pub use rows::CodeRows;
pub use ticket::{MAX_GENERATIONS, Ticket};
