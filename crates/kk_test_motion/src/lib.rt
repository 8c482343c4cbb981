//! The outside, frames, senders, relays and channels over objects in memory and over sockets: tests alone.
#![tactic(auto)]

#[cfg(test)]
mod assemble;
#[cfg(test)]
mod channel;
#[cfg(test)]
mod frame;
#[cfg(test)]
mod outside;
#[cfg(test)]
mod relay;
#[cfg(test)]
mod sender;
#[cfg(test)]
mod trial;
#[cfg(test)]
mod words;
