//! The command `unpack`: a capture of frames comes in, and the file goes out.
#![tactic(auto)]

mod generations;
pub mod laws;
mod receive;
mod report;
mod totals;
mod unpack;
mod unpacking;

pub use unpack::{UNPACK, run_unpack};
pub use unpacking::Unpacking;
