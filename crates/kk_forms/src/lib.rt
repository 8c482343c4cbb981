//! Forms of commands: which words a command takes, and what they ask for.
#![tactic(auto)]

mod fault;
mod form;
mod reading;
mod request;

pub use fault::WordsFault;
pub use form::{Argument, Form};
pub use request::Request;
