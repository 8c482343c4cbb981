//! The exact decoder of the subspace code of Kötter and Kschischang, and the loss of a space against a codeword.
//!
//! A space decodes to the message whose codeword lies within subspace distance l - k of it; there is at most one. It is found
//! by a fixed linear map where nothing was lost, and else by interpolation and a division of linearised polynomials
//! (R. Kötter and F. R. Kschischang, "Coding for errors and erasures in random network coding", IEEE Trans. Inf. Theory 54(8),
//! 2008, section V), and tested by its distance.
#![tactic(auto)]

mod by_map;
mod candidate;
mod decoder;
mod distance;
mod divide;
mod fixed_map;
mod injected;
mod interpolate;
pub mod laws;
mod loss;
mod powers;
mod scratch;
mod spaces;
mod uninjected;
mod weights;

pub use decoder::{decode, decode_space};
pub use loss::{Loss, channel_loss};
pub use scratch::Scratch;
