//! The reports of the commands: lines, refusals and statuses, and the block by way of which a text goes to its sink. For the commands alone.
#![tactic(auto)]

mod block;
mod lines;
mod refusal;
mod report;
mod status;

pub use block::Block;
pub use lines::{Line, Lines, LongLine, gate_line, line_of, numbered, push_count, status_line};
pub use refusal::Refusal;
pub use report::{conclude, refuse, status_after_report};
pub use status::Status;
