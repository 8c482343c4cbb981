//! A relay: it takes the data frames of a gate, and sends random combinations of the rows of their generations.
#![tactic(auto)]

mod basis;
mod emission;
pub mod laws;
mod relay;
mod relayed;

pub use kk_outside::Alloc;
pub use relay::{MAX_RATE, Relay};
pub use relayed::{RelayFault, Relayed};
