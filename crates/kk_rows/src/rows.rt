//! What a row is.

/// A row over GF(2): bit i of the number is coordinate i.
#[derive(Clone, Copy, Debug, PartialEq, Eq, PartialOrd, Ord, Hash)]
pub struct Row(pub u128);
