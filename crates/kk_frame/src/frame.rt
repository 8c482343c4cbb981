//! Frames: what a sender or a relay says in a piece of a datagram.
use kk_rows::Row;

/// The bytes of a frame.
pub const FRAME_BYTES: usize = 20;
/// The version of this layout.
pub(crate) const VERSION: u8 = 1;
/// The kind of a frame with a row.
pub(crate) const DATA: u8 = 0;
/// The kind of the frame that ends a transmission.
pub(crate) const END: u8 = 1;

/// What a piece of a datagram says.
#[derive(Clone, Copy, Debug, PartialEq, Eq)]
pub enum Frame {
    /// A row of a generation.
    Vector {
        /// Which message of the file it belongs to, counted from 0.
        generation: u32,
        /// A vector of the space that the message's codeword spans, unless it was changed on the way.
        row: Row,
    },
    /// The end of the transmission.
    End,
}
