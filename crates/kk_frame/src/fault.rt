//! What is wrong with a piece that is no frame.

/// Why a piece is no frame of a ticket: the first rule, from its front, that it breaks.
#[derive(Clone, Copy, Debug, PartialEq, Eq, Hash)]
pub enum FrameFault {
    /// The first two bytes aren't `KK`.
    Magic,
    /// The version isn't 1.
    Version,
    /// The kind is neither data nor END.
    Kind,
    /// The frame is of another session.
    Session,
    /// A data frame's generation isn't below the ticket's number of generations.
    Generation,
    /// A data frame's row isn't below 2^(l+m).
    Row,
    /// An END frame has a 1 after its session.
    EndRow,
}
