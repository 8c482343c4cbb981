//! Frames of 20 bytes, read and written under a ticket, and the intake of a gate: which frames a receiver takes of the
//! datagrams that come, what it counts, and when the gate ends.
#![tactic(auto)]

mod asking;
mod batch;
mod datagram;
mod fault;
mod frame;
mod gate_count;
mod intake;
pub mod laws;
mod limits;
mod reading;
mod received;
mod writing;

pub use batch::Batch;
pub use datagram::{BadLength, Frames, MAX_DATAGRAM_FRAMES, frames_of};
pub use fault::FrameFault;
pub use frame::{FRAME_BYTES, Frame};
pub use gate_count::{Ended, GateCount, Refused};
pub use intake::Intake;
pub use limits::Limits;
pub use reading::read_frame;
pub use writing::{frame_bytes, send_frame, write_frame};
