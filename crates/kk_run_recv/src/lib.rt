//! The command `recv`: all gates are received from at once, and the file goes out.
#![tactic(auto)]

mod receiving;
mod recv;
mod report;

pub use receiving::Receiving;
pub use recv::{RECV, run_recv};
