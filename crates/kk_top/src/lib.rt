//! The program: the words name a command, whose own call does all that it does, over the objects that it is handed.
#![tactic(auto)]

mod program;

pub use kk_outside::Alloc;
pub use kk_run_pack::run_pack;
pub use kk_run_plan::run_plan;
pub use kk_run_recv::run_recv;
pub use kk_run_relay::run_relay;
pub use kk_run_send::run_send;
pub use kk_run_sim::run_sim;
pub use kk_run_unpack::{laws, run_unpack};
pub use kk_words::{Addresses, WordsFault, places};
pub use kk_workers::MAX_GATES;
pub use program::run;
