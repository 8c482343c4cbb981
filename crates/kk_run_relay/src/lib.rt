//! The command `relay`: the data frames of a gate come in, and combinations of their rows go out.
#![tactic(auto)]

mod relay;
mod relaying;

pub use relay::{RELAY, run_relay};
pub use relaying::Relaying;
