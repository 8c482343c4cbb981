//! Interpolation of linearised polynomials in two variables, Q(x, y) = qx(x) + qy(y) over GF(2^m), through points, as the
//! decoder of subspace codes needs it (R. Kötter and F. R. Kschischang, "Coding for errors and erasures in random network
//! coding", 2008).
#![tactic(auto)]

pub use bi_poly::BiPoly;
pub use interp::Interp;

mod bi_poly;
mod interp;
