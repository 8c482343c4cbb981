//! When a gate is given up.

/// After so many events of a kind a gate is given up. Both numbers are at least 1.
#[derive(Clone, Copy, Debug, PartialEq, Eq)]
pub struct Limits {
    /// So many quiets in a row.
    pub idle: u32,
    /// So many datagrams.
    pub most: u32,
}
