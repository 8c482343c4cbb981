//! Worked values of the arithmetic, the code and the decoder: tests alone.
#![tactic(auto)]

#[cfg(test)]
mod code;
#[cfg(test)]
mod decode;
#[cfg(test)]
mod degrees;
#[cfg(test)]
mod field;
#[cfg(test)]
mod interp;
#[cfg(test)]
mod linpoly;
#[cfg(test)]
mod ore;
#[cfg(test)]
mod rows;
#[cfg(test)]
mod tables;
