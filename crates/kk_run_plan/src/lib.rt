//! The command `plan`: a source comes in, and the ticket of a file of its length goes out.
#![tactic(auto)]

mod plan;
mod planning;

pub use plan::{PLAN, run_plan};
pub use planning::Planning;
