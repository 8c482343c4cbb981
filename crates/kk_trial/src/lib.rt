//! What is sent in a trial without a network: a file made by the words of a generator, and the frames of its generations after an
//! operator channel, dealt over gates in memory.
#![tactic(auto)]

mod dealing;
pub mod laws;
mod making;
mod operator_channel;
mod passing;
mod trials;

pub use kk_outside::Alloc;
pub use operator_channel::OperatorChannel;
pub use trials::{Trial, make_trial};
