//! What happens at a gate.
use crate::Bytes;

/// What happens at a gate.
#[derive(Drop)]
pub enum Event {
    /// A datagram came.
    Datagram(Bytes),
    /// None came for a while.
    Quiet,
    /// The gate failed.
    Fault,
}
