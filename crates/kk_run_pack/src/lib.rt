//! The command `pack`: a file comes in, and the frames of its codewords go out.
#![tactic(auto)]

mod capture;
mod pack;
mod packing;

pub use pack::{PACK, run_pack};
pub use packing::Packing;
