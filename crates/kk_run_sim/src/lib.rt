//! The command `sim`: a file from a seed goes through an operator channel to a receiver, and a summary comes out.
#![tactic(auto)]

mod sim;
mod simulating;
mod simulation;

pub use sim::{SIM, run_sim};
pub use simulating::Simulating;
