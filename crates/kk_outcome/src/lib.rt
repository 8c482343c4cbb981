//! What becomes of a file that was received: the answers of its generations, the lines that tell them, and the file itself. For the commands alone.
#![tactic(auto)]

mod delivery;
pub mod laws;
mod lines;

pub use delivery::{deliver, room_of};
pub use lines::{count_line, generation_line, inserts_line};
