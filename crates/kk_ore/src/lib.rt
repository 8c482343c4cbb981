//! Left and right Euclidean division of linearised polynomials over GF(2^m), and left division without remainder.
//!
//! With composition as their product these polynomials are the skew polynomial ring over GF(2^m) with the Frobenius map:
//! X^2 ∘ c·X is c^2·X^2. It has both divisions (O. Ore, "On a special class of polynomials", 1933), which cancel leading
//! coefficients, the highest first. Nothing takes memory.
#![tactic(auto)]

pub use left::div_left;
pub use low::exact_left;
pub use right::div_right;

pub mod laws;
mod left;
mod low;
mod places;
mod right;
