//! What a gate answers.

/// What a gate answers, where it doesn't fail.
#[derive(Clone, Copy, Debug, PartialEq, Eq)]
pub enum Got {
    /// A datagram came: so many bytes at the front of the buffer.
    Datagram(usize),
    /// None came for a while.
    Quiet,
    /// No more events come.
    Over,
}
