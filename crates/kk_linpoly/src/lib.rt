//! Linearised polynomials over GF(2^m): the sums of c_i·X^(2^i), with composition as their product.
//!
//! They are the linear maps of GF(2^m) over GF(2), and a ring of skew polynomials (Ore, "On a special class of
//! polynomials", 1933).
#![tactic(auto)]

pub use lin_map::LinMap;
pub use lin_poly::{LinPoly, MAX_COEFFICIENTS};
pub use matrix::{MAX_COLUMNS, MatrixRow, transform};

mod comb;
pub mod laws;
mod lin_map;
mod lin_poly;
mod matrix;
mod places;
