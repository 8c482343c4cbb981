//! A receiver with several gates: one worker a gate, each in a thread of its own, and one table for the rows of all.
#![tactic(auto)]

mod closing;
mod decoding;
mod inserter;
pub mod laws;
mod plan;
mod received;
mod receiver;
mod receiving;
mod running;
mod totals;
mod worker;
mod working;

pub use decoding::decode_uncounted;
pub use plan::Plan;
pub use received::Received;
pub use receiver::Receiver;
pub use receiving::receive;
pub use running::MAX_GATES;
pub use totals::Totals;
pub use worker::{Unmade, Worker};
pub use working::work;
