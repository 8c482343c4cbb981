//! Whole runs of the program, over objects in memory and over sockets: tests alone.
#![tactic(auto)]

#[cfg(test)]
mod tests;
