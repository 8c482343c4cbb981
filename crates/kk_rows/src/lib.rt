//! Row spaces over GF(2): the span of a few rows of at most 128 bits, kept in reduced row echelon form.
//!
//! A [`Row`] is a number: bit i is its coordinate i, and the sum of two rows is their exclusive or.
#![tactic(auto)]

mod combining;
mod echelon;
mod errors;
pub mod laws;
mod row_list;
mod row_space;
mod rows;
mod traced;
mod word;

pub use combining::combination;
pub use errors::Alloc;
pub use row_list::RowList;
pub use row_space::{MAX_WIDTH, RowSpace};
pub use rows::Row;
