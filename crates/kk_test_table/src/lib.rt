//! The shared table, its receivers, and the words of commands: tests alone.
#![tactic(auto)]

#[cfg(test)]
mod forms;
#[cfg(test)]
mod machine;
#[cfg(test)]
mod order;
#[cfg(test)]
mod table;
#[cfg(test)]
mod words;
#[cfg(test)]
mod workers;
