//! What is wrong with a text that is no ticket.

/// Why a text is no ticket. The text is cut at each colon into parts, which are numbered from 0. Its fault is the first
/// of these that holds.
#[derive(Clone, Copy, Debug, PartialEq, Eq)]
pub enum TicketFault {
    /// A part is missing or not of its form, or there is an eighth one.
    Shape {
        /// The number of the first such part.
        at: u32,
    },
    /// A number is out of its range.
    Range {
        /// The number of the first such part: 2 for M, 3 for MOD, 4 for L and 5 for K.
        field: u32,
    },
    /// The modulus is a product of two polynomials of degree at least 1.
    NotIrreducible,
    /// The file takes more than [`crate::MAX_GENERATIONS`] messages.
    TooMany {
        /// How many messages it takes.
        generations: u64,
    },
}
