//! The command `send`: a file comes in, and goes out in datagrams.
#![tactic(auto)]

mod send;
mod sending;

pub use send::{SEND, run_send};
pub use sending::Sending;
