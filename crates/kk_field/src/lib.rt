//! The field GF(2^m), and the ring of residues modulo X^m + low where that polynomial has factors.
//!
//! A polynomial over GF(2) is a whole number, whose bit i is the coefficient of X^i: its sums are exclusive ors, and
//! its products are carry-less products. Residues are the numbers below 2^m.
#![tactic(auto)]

pub use field::Field;
pub use ring::Ring;
pub use steps::Steps;

mod echelon;
mod field;
pub mod laws;
mod ring;
mod steps;
