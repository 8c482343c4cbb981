//! The words of a command line: which command they ask for, with what texts and numbers, and which addresses they name.
#![tactic(auto)]

mod addresses;
mod argument;
mod asked;
mod command;
mod reading;

pub use addresses::{Addresses, places};
pub use argument::Name;
pub use asked::Asked;
pub use command::{Command, command_in};
pub use kk_forms::WordsFault;
pub use reading::read_words;
