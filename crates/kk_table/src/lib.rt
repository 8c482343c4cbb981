//! A table of row spaces over GF(2) that threads share without a lock: what one thread would answer, on words that
//! change in single atomic steps.
#![tactic(auto)]

mod answers;
mod founder;
mod gen_table;
pub mod laws;
mod logs;
mod pass;
mod rule;
mod spares;
mod view;
mod words;

pub use answers::{Freeze, Inserted, NoPass};
pub use founder::Founder;
pub use gen_table::GenTable;
pub use logs::{Held, Logs};
pub use pass::Pass;
pub use view::{Known, Shape, View};
