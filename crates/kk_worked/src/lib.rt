//! Worked values for tests: a ticket, the rows of its codewords, frames and captures as bytes, and words.
#![tactic(auto)]

mod captures;
mod command_lines;

pub use captures::{FIVE, FIVE_AND_ZEROS, ONE_BYTE, SEVEN, ZERO, capture, frame};
pub use command_lines::{ZEROS, texts, words_of};
