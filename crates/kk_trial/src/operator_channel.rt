//! What an operator channel is to do.

/// An operator channel: how many dimensions it erases of each codeword, and how many it injects.
#[derive(Clone, Copy, Debug, PartialEq, Eq)]
pub struct OperatorChannel {
    /// So many of the codeword's dimensions don't come out.
    pub erase: u32,
    /// So many come out that are foreign to the codeword.
    pub inject: u32,
}
