//! The pure core of the shared table: what one thread answers, and every move that several threads can make.
#![tactic(auto)]

mod call;
pub mod laws;
mod log;
mod moves;
mod sight;
mod spaces;
mod world;

pub use call::{Call, Entry, Reply};
pub use log::{CLOSED, Log, MAX_WIDTH};
pub use moves::Move;
pub use sight::Sight;
pub use spaces::Spaces;
pub use world::World;
