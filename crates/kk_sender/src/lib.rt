//! The sender: a file is read by its length, cut into messages, and sent as frames in datagrams, with combinations of the rows
//! of each codeword.
#![tactic(auto)]

mod datagram;
mod fault;
mod file;
pub mod laws;
mod rows;
mod send;
mod sender;

pub use fault::{FileFault, SendFault};
pub use file::read_file;
pub use kk_outside::Alloc;
pub use rows::MAX_EXTRA;
pub use send::{Sent, capture_frames};
pub use sender::Sender;
