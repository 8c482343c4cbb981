//! The bits of a file, and the messages that they are cut into.
//!
//! Bit t of a file is bit 7 - t % 8 of its byte t / 8: the most significant bit comes first, in bytes and in symbols.
#![tactic(auto)]

mod bit_queue;
mod cutting;
mod file_bits;
mod joining;
pub mod laws;
mod message_bits;

pub use cutting::cut;
pub use joining::join;
