//! The operator channel of Kötter and Kschischang: it passes a codeword through with a given number of dimensions erased and
//! injected.
#![tactic(auto)]

mod channel;
pub mod laws;
mod rows;

pub use channel::pass_through;
pub use rows::{ChannelRows, MAX_CHANNEL_ROWS};
