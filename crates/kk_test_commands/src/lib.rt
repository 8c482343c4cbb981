//! Each command over objects in memory: tests alone.
#![tactic(auto)]

#[cfg(test)]
mod pack;
#[cfg(test)]
mod plan;
#[cfg(test)]
mod relay;
#[cfg(test)]
mod send;
#[cfg(test)]
mod sim;
#[cfg(test)]
mod unpack;
