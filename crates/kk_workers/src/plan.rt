//! What a receiver is to do.
use kk_frame::Limits;

/// When gates are given up, and when a generation is closed.
#[derive(Clone, Copy, Debug, PartialEq, Eq)]
pub struct Plan {
    /// When a gate is given up.
    pub limits: Limits,
    /// The rank at which a generation is closed; `None` where each stays open until all gates have ended.
    pub goal: Option<u32>,
}
